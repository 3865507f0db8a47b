// A machine on the plan of the table on standard input: the first argument is the starting mode, each further one a request, MODE@CLOCK.
#![tactic(auto)]

use units::limits::MOST_BYTES;

fn main(rt: HostRuntime) {
    let mut text = [0u8; MOST_BYTES + 1];
    if let Some(count) = console::read_input(&rt, &mut text) {
        console::ask(&rt, &text[..count], 1, console::arg_count(&rt));
    }
}
