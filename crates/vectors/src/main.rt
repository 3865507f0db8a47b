// The tables and the calls of the vectors, one after the other. An argument that ends in .csv names a table; where the next one is a starting mode, those up to the
// next table are requests, and otherwise the table's plan is printed.
#![tactic(auto)]

use std::rt::{Env, Files};
use units::limits::MOST_BYTES;

// Whether argument i names a table.
fn is_table(rt: &impl Env, i: usize) -> bool {
    let mut word = [0u8; 256];
    match rt.arg(i, &mut word) {
        Ok(k) => word[..k].ends_with(b".csv"),
        Err(_) => false,
    }
}

// The place of the first argument from i on that names a table; the end where there is none, so that what lies before it is then all.
fn next_table(rt: &impl Env, i: usize) -> usize {
    let end = console::arg_count(rt);
    (i..end).find(|&k| is_table(rt, k)).unwrap_or(end)
}

// The plan of the table that argument i names, or the call on it.
fn answer(rt: &(impl Env + Files + Print + Eprint), i: usize, first: usize) {
    let mut path = [0u8; 256];
    let Ok(k) = rt.arg(i, &mut path) else {
        return;
    };
    console::write(rt, &path[..k]);
    console::write(rt, b"\r\n");
    let mut text = [0u8; MOST_BYTES + 1];
    let Some(count) = console::read_file(rt, &path[..k], &mut text) else {
        return;
    };
    let end = next_table(rt, first);
    if first == end {
        console::plan(rt, &text[..count]);
    } else {
        console::ask(rt, &text[..count], first, end);
    }
}

fn main(rt: HostRuntime) {
    // i is an argument's number
    for i in 1..console::arg_count(&rt) {
        if is_table(&rt, i) {
            answer(&rt, i, i + 1);
        }
    }
}
