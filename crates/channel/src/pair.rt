// A pair of phases, one of either end: what it comes to, in ticks of a wait or in tokens of a claim.
ghost use Rattle.std.specs.Prelude.{◌≡◌, ◌^◌, ◌<◌};
ghost use Rattle.std.specs.List.{All};
ghost use Rattle.channel.specs.Phases.{Faithful, pair_of, most_of_pairs};
ghost use Rattle.channel.specs.Bounds.{Small};

use units::Count;

// A phase of either end: how much it adds to what a pair comes to, how much it takes from that, and what is left over whole steps.
#[derive(Clone, Copy)]
pub(crate) struct Phase<A, B> {
    pub more: A,
    pub less: A,
    pub rest: B,
}

impl<A: Count, B: Count> Phase<A, B> {
    // What a place for a phase holds before one is put there: memory is fixed, so the places are there first.
    pub(crate) fn none() -> Phase<A, B> {
        Phase {
            more: A::count(0),
            less: A::count(0),
            rest: B::count(0),
        }
    }

    // What a phase of the producer comes to with one of the consumer.
    fn with(self, other: Phase<A, B>, unit: A) -> A
        requires { Faithful A.number A.count × Small A.number self × Small A.number other × (A.number unit < 2 ^ 62) }
        ensures { result ≡ pair_of A.number A.count B.number unit self other }
    {
        let more = self.more.plus(other.more);
        let less = self.less.plus(other.less);
        if self.rest.at_most(other.rest) {
            more.minus(less)
        } else {
            more.minus(less.plus(unit))
        }
    }
}

// The most that a phase of the consumer comes to with any of the producer.
pub(crate) fn most<A: Count, B: Count>(phases: &[Phase<A, B>], other: Phase<A, B>, unit: A) -> A
    requires { Faithful A.number A.count × All (Small A.number) phases.now × Small A.number other × (A.number unit < 2 ^ 62) }
    ensures { result ≡ most_of_pairs A.number A.count B.number phases.now unit other }
{
    let mut most = A::count(0);
    for phase in phases {
        most = most.greater(phase.with(other, unit));
    }
    most
}
