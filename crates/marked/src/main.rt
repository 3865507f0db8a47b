// Runs the marked requests without a star on the printed table: the arguments are the starting mode and the requests.
#![tactic(auto)]

fn main(rt: HostRuntime) {
    let text =
        b"actor,1,1,2,1,1\r\nactor,1,2,1,4,2\r\nactor,1,3,1,1,1\r\nactor,1,5,2,1,1\r\nchannel,1,1,2,1 0,1\r\nchannel,1,2,3,1,1\r\nchannel,1,3,5,1,2 0\r\nactor,2,1,2,1,1\r\nactor,2,2,1,8,2\r\nactor,2,3,1,1,1\r\nactor,2,4,1,3,1\r\nactor,2,5,2,1,1\r\nchannel,2,1,2,1 0,1\r\nchannel,2,1,4,1 1,2\r\nchannel,2,2,3,1,1\r\nchannel,2,3,5,1,1 0\r\nchannel,2,4,5,1,0 1\r\n";
    console::ask(&rt, text, 1, console::arg_count(&rt));
}
