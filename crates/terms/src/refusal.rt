// Refusals: why something is refused, and where in a table.
ghost use Rattle.std.specs.Prelude.{◌≡◌};
ghost use Rattle.terms.specs.Refusal.{number_of, line_of, printed_of, five, nowhere_for};

// Why a table, a request, a buffer or a machine is refused, each with its number of document 01.
#[derive(Clone, Copy, PartialEq, Eq)]
pub enum Reason {
    // The text is empty or too long, or a record is not RFC 4180 or has not the fields of a row.
    Unreadable = 1,
    // The first field is unknown, or a number is badly written or out of its range.
    BadField = 2,
    // An actor is listed twice in a mode, an end of a channel is not yet listed in it, or it has a channel too many.
    Mislisted = 3,
    // An actor is on another processor than in an earlier row.
    Elsewhere = 4,
    // A list of rates is not as long as its actor has phases, or all of it is 0.
    BadRates = 5,
    // The channels of a mode form a cycle.
    Cycle = 6,
    // A mode has not exactly one actor without incoming channels, and one without outgoing ones.
    NoEnds = 7,
    // A mode has no balance within range.
    NoBalance = 8,
    // The load of a processor is above its limit.
    Overload = 9,
    // An actor starts later than the sink.
    Late = 10,
    // A mode is not in the plan.
    NoMode = 11,
    // The mode that is asked for is the one now running.
    SameMode = 12,
    // The clock is past its limit.
    PastClock = 13,
    // The current change has not ended.
    Unended = 14,
    // A buffer has not the one length, or is not what some accepted table leaves.
    NoPlan = 15,
    // The machine's mode is not in the plan, or its starting tick is after the end of its change.
    NoMachine = 16,
}

impl Reason {
    // The number by which a refusal is told.
    pub fn number(self) -> u64
        ensures { result ≡ number_of self }
    {
        self as u64
    }
}

// Where in a table a refusal points. Nowhere is one of the places, as each refusal has one to print (the paper's form).
#[derive(Clone, Copy, PartialEq, Eq)]
pub enum Place {
    Nowhere,
    Row(u64),
    Mode(u64),
    Actor { mode: u64, actor: u64 },
    Processor { mode: u64, processor: u64 },
}

// Why something is refused, and where in a table.
#[derive(Clone, Copy, PartialEq, Eq)]
pub struct Refusal {
    pub reason: Reason,
    pub place: Place,
}

// The numbers of a refusal's line; 0 where none is named, as document 01 prints it.
#[derive(Clone, Copy, PartialEq, Eq)]
pub struct Printed {
    pub number: u64,
    pub row: u64,
    pub mode: u64,
    pub actor: u64,
    pub processor: u64,
}

// The numbers of a line, named.
fn line(number: u64, row: u64, mode: u64, actor: u64, processor: u64) -> Printed
    ensures { result ≡ line_of number row mode actor processor }
{
    Printed {
        number,
        row,
        mode,
        actor,
        processor,
    }
}

impl Printed {
    // The five numbers, in the order of a line.
    pub fn five(self) -> [u64; 5]
        ensures { result ≡ five self }
    {
        [self.number, self.row, self.mode, self.actor, self.processor]
    }
}

impl Refusal {
    // A refusal that points nowhere in a table.
    pub fn nowhere(reason: Reason) -> Refusal
        ensures { result ≡ nowhere_for reason }
    {
        Refusal {
            reason,
            place: Place::Nowhere,
        }
    }

    // What is printed of a refusal.
    pub fn printed(self) -> Printed
        ensures { result ≡ printed_of self }
    {
        let number = self.reason.number();
        match self.place {
            Place::Nowhere => line(number, 0, 0, 0, 0),
            Place::Row(row) => line(number, row, 0, 0, 0),
            Place::Mode(mode) => line(number, 0, mode, 0, 0),
            Place::Actor { mode, actor } => line(number, 0, mode, actor, 0),
            Place::Processor { mode, processor } => line(number, 0, mode, 0, processor),
        }
    }
}
