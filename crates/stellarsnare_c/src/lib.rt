// The face for firmware as C symbols: each export calls the library's function of its name, with the same promise.
#![tactic(auto)]

ghost use Rattle.stellarsnare.specs.Face.{PlanTold, StartTold, RequestTold, PrintTold};

// Plans the table of a text into the words.
#[unsafe(no_mangle)]
pub extern "C" fn stellarsnare_plan(text: &[u8], words: &mut [u64], refusal: &mut [u64; 5]) -> bool
    ensures { PlanTold text.now words.old result words.new refusal.new }
{
    stellarsnare::stellarsnare_plan(text, words, refusal)
}

// Begins a machine, at tick 0 in the mode with this number; 0 stands for the lowest listed mode.
#[unsafe(no_mangle)]
pub extern "C" fn stellarsnare_start(
    words: &[u64],
    mode: u64,
    machine: &mut [u64; 3],
    refusal: &mut [u64; 5],
) -> bool
    ensures { StartTold words.now mode machine.old result machine.new refusal.new }
{
    stellarsnare::stellarsnare_start(words, mode, machine, refusal)
}

// Answers a machine's request for the mode with this number at a tick.
#[unsafe(no_mangle)]
pub extern "C" fn stellarsnare_request(
    words: &[u64],
    machine: &mut [u64; 3],
    mode: u64,
    clock: u64,
    delay: &mut u64,
    refusal: &mut [u64; 5],
) -> bool
    ensures { RequestTold words.now machine.old mode clock delay.old result machine.new delay.new refusal.new }
{
    stellarsnare::stellarsnare_request(words, machine, mode, clock, delay, refusal)
}

// Prints the plan that the words hold.
#[unsafe(no_mangle)]
pub extern "C" fn stellarsnare_print(
    words: &[u64],
    out: &mut [u8],
    length: &mut usize,
    refusal: &mut [u64; 5],
) -> bool
    ensures { PrintTold words.now out.old length.old result out.new length.new refusal.new }
{
    stellarsnare::stellarsnare_print(words, out, length, refusal)
}
