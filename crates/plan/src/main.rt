// Plans the table on standard input, and prints the plan or the refusal.
#![tactic(auto)]

use units::limits::MOST_BYTES;

fn main(rt: HostRuntime) {
    let mut text = [0u8; MOST_BYTES + 1];
    if let Some(count) = console::read_input(&rt, &mut text) {
        console::plan(&rt, &text[..count]);
    }
}
