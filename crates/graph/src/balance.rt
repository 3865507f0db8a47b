// The smallest cycle counts that balance a mode's channels.
ghost use Rattle.std.specs.Prelude.{◌≡◌, ◌*◌, ◌<◌, ◌≤◌};
ghost use Rattle.units.specs.Bounds.{MOST_TOKENS};
ghost use Rattle.units.specs.Limits.{ACTORS};
ghost use Rattle.tables.specs.Stored.{mode_of};
ghost use Rattle.graph.specs.Counts.{Small, FlowIn, Shallow, Entered, flow_of, entries_of, scaled_of, fed_of, counts_from, evenb, balancesb};

use bits::has;
use numbers::extreme::greatest;
use tables::memory::InMemory;
use units::Token;
use units::bounds::MOST_CYCLES;
use units::limits::ACTORS;

// A channel by its two actors and the tokens that a cycle of the one makes and a cycle of the other takes.
#[derive(Drop)]
pub(crate) struct Flow {
    pub from: usize,
    pub to: usize,
    pub made: Token,
    pub taken: Token,
}

// Channel k.
fn flow_at(mode: &InMemory, k: usize) -> Flow
    requires { k < (mode_of mode.now).count }
    ensures { result ≡ flow_of (mode_of mode.now) k }
{
    let channel = mode.channel(k);
    let maker = mode.actor(channel.from);
    let taker = mode.actor(channel.to);
    Flow {
        from: channel.from,
        to: channel.to,
        made: rate::cycle_tokens(channel.production, maker.phases),
        taken: rate::cycle_tokens(channel.consumption, taker.phases),
    }
}

// For each actor its first incoming channel.
pub(crate) fn entries_of(mode: &InMemory) -> [Option<usize>; ACTORS]
    ensures { result ≡ entries_of (mode_of mode.now) }
{
    let count = mode.count();
    let mut entries = [None; ACTORS];
    // k is a channel's place in the mode, and is what is kept; the first is written last
    for k in (0..count).rev() {
        let channel = mode.channel(k);
        entries[channel.to] = Some(k);
    }
    entries
}

// All counts so many times, where none is above the limit.
fn scaled(counts: [u64; ACTORS], times: u64) -> Option<[u64; ACTORS]>
    requires { Small counts × (times ≤ MOST_TOKENS.0) }
    ensures { result ≡ scaled_of counts times }
{
    let mut next = [0u64; ACTORS];
    for (i, count) in counts.iter().enumerate() {
        let scaled = *count * times;
        if MOST_CYCLES < scaled {
            return None;
        }
        next[i] = scaled;
    }
    Some(next)
}

// The counts with that of actor i, which a channel feeds; all scaled so that it is whole.
fn fed(counts: [u64; ACTORS], flow: Flow, i: usize) -> Option<[u64; ACTORS]>
    requires { Small counts × FlowIn flow × (i < ACTORS) }
    ensures { result ≡ fed_of counts flow i }
{
    let meeting = rate::meet(counts[flow.from], flow.made, flow.taken);
    if MOST_CYCLES < meeting.takers {
        return None;
    }
    let mut next = scaled(counts, meeting.times)?;
    next[i] = meeting.takers;
    Some(next)
}

// The source runs one cycle, and the others follow by depth, and within a depth by place; none where one would be above the limit.
pub(crate) fn counts_of(
    mode: &InMemory,
    entries: [Option<usize>; ACTORS],
    depths: [usize; ACTORS],
    source: usize,
) -> Option<[u64; ACTORS]>
    requires { Shallow depths × Entered (mode_of mode.now) entries depths × (source < ACTORS) }
    ensures { result ≡ counts_from (mode_of mode.now) entries depths source (ACTORS * ACTORS) }
{
    let active = mode.active();
    let last = greatest(&depths);
    // 0 for an actor that has no count yet: no count is 0, and 0 is scaled to 0
    let mut counts = [0u64; ACTORS];
    counts[source] = 1;
    // n goes through the places once for each depth: a function of one depth is no plainer, as it would ask for the source to say what came before
    for n in 0..ACTORS * last {
        let i = n % ACTORS;
        if has(active, i) && depths[i] == n / ACTORS + 1 {
            let entry = entries[i].unwrap();
            counts = fed(counts, flow_at(mode, entry), i)?;
        }
    }
    Some(counts)
}

// Whether the counts balance channel k.
fn balances_at(mode: &InMemory, counts: &[u64], k: usize) -> bool
    requires { Small counts.now × (k < (mode_of mode.now).count) }
    ensures { result ≡ evenb (mode_of mode.now) counts.now k }
{
    let flow = flow_at(mode, k);
    rate::even(counts[flow.from], flow.made, counts[flow.to], flow.taken)
}

// Whether the counts balance each channel.
pub(crate) fn balances(mode: &InMemory, counts: [u64; ACTORS]) -> bool
    requires { Small counts }
    ensures { result ≡ balancesb (mode_of mode.now) counts (mode_of mode.now).count }
{
    (0..mode.count()).all(|k| balances_at(mode, &counts, k))
}
