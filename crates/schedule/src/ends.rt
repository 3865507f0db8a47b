// An end of a channel.
ghost use Rattle.std.specs.Prelude.{◌≡◌};
ghost use Rattle.schedule.specs.Starts.{end_of};

use channel::End;
use tables::Actor;
use units::Tick;
use units::limits::PHASES;

// That of an actor with this period, which makes or takes so many tokens phase by phase.
pub(crate) fn end_of(actor: Actor, rates: [u8; PHASES], period: Tick) -> End
    ensures { result ≡ end_of actor rates period }
{
    End {
        phases: actor.phases,
        rates,
        period,
    }
}
