// The face for firmware: plans, machines and requests as plain numbers, for a caller in C.
// The crate `stellarsnare_c` exports these functions.
#![tactic(auto)]

ghost use Rattle.std.specs.Prelude.{◌≡◌};
ghost use Rattle.terms.specs.Refusal.{numbers_of};
ghost use Rattle.stellarsnare.specs.Face.{three_of, Tells, PlanTold, StartTold, RequestTold, PrintTold};

use machine::Machine;
use terms::refusal::Refusal;
use units::Tick;

// The five numbers of a refusal's line.
fn numbers(refusal: Refusal) -> [u64; 5]
    ensures { result ≡ numbers_of refusal }
{
    refusal.printed().five()
}

// What an answer gives, where it is no refusal; and its five numbers.
fn told<T>(answer: Result<T, Refusal>, refusal: &mut [u64; 5]) -> Option<T>
    ensures { Tells answer result refusal.new }
{
    match answer {
        Ok(given) => {
            *refusal = [0; 5];
            Some(given)
        }
        Err(refused) => {
            *refusal = numbers(refused);
            None
        }
    }
}

// A machine as its mode, its starting tick and the tick at which its change ends. No From: the machine knows nothing of the face for C.
fn three(machine: Machine) -> [u64; 3]
    ensures { result ≡ three_of machine }
{
    [machine.mode, machine.started.ticks(), machine.ended.ticks()]
}

// Plans the table of a text into the words.
pub fn stellarsnare_plan(text: &[u8], words: &mut [u64], refusal: &mut [u64; 5]) -> bool
    ensures { PlanTold text.now words.old result words.new refusal.new }
{
    told(planner::plan(text, words), refusal).is_some()
}

// Begins a machine, at tick 0 in the mode with this number; 0 stands for the lowest listed mode.
pub fn stellarsnare_start(
    words: &[u64],
    mode: u64,
    machine: &mut [u64; 3],
    refusal: &mut [u64; 5],
) -> bool
    ensures { StartTold words.now mode machine.old result machine.new refusal.new }
{
    let Some(begun) = told(machine::start(words, mode), refusal) else {
        return false;
    };
    *machine = three(begun);
    true
}

// Answers a machine's request for the mode with this number at a tick.
pub fn stellarsnare_request(
    words: &[u64],
    machine: &mut [u64; 3],
    mode: u64,
    clock: u64,
    delay: &mut u64,
    refusal: &mut [u64; 5],
) -> bool
    ensures { RequestTold words.now machine.old mode clock delay.old result machine.new delay.new refusal.new }
{
    let before = Machine {
        mode: machine[0],
        started: Tick::of(machine[1]),
        ended: Tick::of(machine[2]),
    };
    let answer = before.request(words, mode, Tick::of(clock));
    let Some(wait) = told(answer.reply, refusal) else {
        return false;
    };
    *machine = three(answer.machine);
    *delay = wait.ticks();
    true
}

// Prints the plan that the words hold.
pub fn stellarsnare_print(
    words: &[u64],
    out: &mut [u8],
    length: &mut usize,
    refusal: &mut [u64; 5],
) -> bool
    ensures { PrintTold words.now out.old length.old result out.new length.new refusal.new }
{
    let Some(bytes) = told(planner::print(words, out), refusal) else {
        return false;
    };
    *length = bytes;
    true
}
