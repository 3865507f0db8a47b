// What the programs read from the operating system, and write to it.
#![tactic(auto)]

ghost use Rattle.std.specs.Prelude.{◌≡◌, IfSome, IfOk, ◌<◌, length, take};
ghost use Rattle.std.specs.Result.{result_ok};
ghost use Rattle.std.specs.Io.KnownBytes.{Consumes, IsAtEnd};
ghost use Rattle.console.specs.Counts.{IsPrefixLen};

use calls::LINE;
use printer::PRINTED;
use std::env::FillError;
use std::fmt::InlineText;
use std::io::{self, Error, ErrorKind, Read};
use std::rt::{Env, Files, HostRuntime};
use std::{fs, str};

// The most bytes of the arguments of a call, each with its 0.
const MOST_ARGUMENTS: usize = 32768;

// Tells on standard error what failed and why, in the system's words, without the error's number.
fn tell(rt: &impl Eprint, what: &[u8], error: Error) {
    let text = InlineText::<128>::of(error);
    let words = text.as_str();
    let why = match words.split_once(" (os error ") {
        Some((front, _)) => front,
        None => words,
    };
    let what = str::from_utf8(what).unwrap_or("?");
    let _ = eprintln!(rt; "{what}: {why}");
}

// What was done, where it did not fail; a failure is told on standard error.
fn done<T>(rt: &impl Eprint, what: &[u8], outcome: io::Result<T>) -> Option<T>
    ensures { result ≡ result_ok outcome }
{
    match outcome {
        Ok(value) => Some(value),
        Err(error) => {
            tell(rt, what, error);
            None
        }
    }
}

// Reads until the end of the input or of the buffer, and tells how many bytes.
fn fill<R: Read>(file: &mut R, buffer: &mut [u8]) -> io::Result<usize>
    ensures front { IfOk result (λ n. IsPrefixLen n buffer.new) }
    ensures bytes { IfOk result (λ n. Consumes (R.remaining file.old) (R.remaining file.new) (take n buffer.new)) }
    ensures end { IfOk result (λ n. n < length buffer.new → IsAtEnd (R.remaining file.new)) }
{
    let mut at: usize = 0;
    // the place goes on by as many bytes as a read gives
    while at < buffer.len() {
        let more = file.read(&mut buffer[at..])?;
        if more == 0 {
            break;
        }
        at += more;
    }
    Ok(at)
}

// Reads until the end of the input or of the buffer: how many bytes. A read that fails is told on standard error, and then there are none.
pub fn read<R: Read>(
    rt: &impl Eprint,
    file: &mut R,
    name: &[u8],
    buffer: &mut [u8],
) -> Option<usize>
    ensures front { IfSome result (λ n. IsPrefixLen n buffer.new) }
    ensures bytes { IfSome result (λ n. Consumes (R.remaining file.old) (R.remaining file.new) (take n buffer.new)) }
    ensures end { IfSome result (λ n. n < length buffer.new → IsAtEnd (R.remaining file.new)) }
{
    done(rt, name, fill(file, buffer))
}

// Reads standard input, as `read` does.
pub fn read_input(rt: &HostRuntime, buffer: &mut [u8]) -> Option<usize>
    ensures { IfSome result (λ n. IsPrefixLen n buffer.new) }
{
    let mut stdin = rt.stdin();
    read(rt, &mut stdin, b"standard input", buffer)
}

// Reads the file that a path names, as `read` does.
pub fn read_file(rt: &(impl Files + Eprint), path: &[u8], buffer: &mut [u8]) -> Option<usize>
    ensures { IfSome result (λ n. IsPrefixLen n buffer.new) }
{
    let Ok(name) = str::from_utf8(path) else {
        tell(rt, b"a path", Error::from(ErrorKind::InvalidFilename));
        return None;
    };
    let mut file = done(rt, path, fs::open(rt, name))?;
    read(rt, &mut file, path, buffer)
}

// Writes on standard output. What could not be written is told on standard error.
pub fn write(rt: &(impl Print + Eprint), bytes: &[u8]) {
    done(rt, b"standard output", rt.write_all(bytes));
}

// The arguments of the program from one up to another, each ended by a 0: how many bytes, where there is room for them.
fn gather(rt: &impl Env, first: usize, end: usize, buffer: &mut [u8]) -> Option<usize>
    ensures { IfSome result (λ n. IsPrefixLen n buffer.new) }
{
    let mut at: usize = 0;
    // i is an argument's number
    for i in first..end {
        at += rt.arg(i, &mut buffer[at..]).ok()?;
        if at == buffer.len() {
            return None;
        }
        buffer[at] = 0;
        at += 1;
    }
    Some(at)
}

// Prints the plan of a text, or its refusal.
pub fn plan(rt: &(impl Print + Eprint), text: &[u8]) {
    let mut out = [0u8; PRINTED];
    if let Ok(n) = calls::plan(text, &mut out) {
        write(rt, &out[..n]);
    }
}

// Prints the answers to some arguments, on the plan of a text.
fn answer(rt: &(impl Print + Eprint), text: &[u8], arguments: &[u8]) {
    let mut out = [0u8; LINE * (MOST_ARGUMENTS + 1)];
    if let Ok(n) = calls::ask(text, arguments, &mut out) {
        write(rt, &out[..n]);
    }
}

// Prints the answers to the arguments of the program from one up to another, on the plan of a text.
pub fn ask(rt: &(impl Env + Print + Eprint), text: &[u8], first: usize, end: usize) {
    let mut arguments = [0u8; MOST_ARGUMENTS];
    match gather(rt, first, end, &mut arguments) {
        Some(count) => answer(rt, text, &arguments[..count]),
        None => {
            let _ = rt.eprintln("arguments: too long");
        }
    }
}

// How many arguments the program has, its own name among them.
pub fn arg_count(rt: &impl Env) -> usize {
    (0..usize::MAX)
        .find(|&i| matches!(rt.arg(i, &mut []), Err(FillError::NotPresent)))
        .unwrap_or(usize::MAX)
}
