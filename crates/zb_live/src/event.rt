//! The event of the centre that a line of a session says.
ghost use Rattle.zb_live.specs.Events.{IsEventFor, cause_for, task_for};
ghost use Rattle.zb_script.specs.Resolving.{said_of};
ghost use Rattle.std.specs.Prelude.{◌≡◌};

use crate::Cause;
use zb_centre_store::CentreEvent;
use zb_script::{Draft, Said, Unresolved, resolve};

fn cause_of(why: Unresolved) -> Cause
    ensures { result ≡ cause_for why }
{
    match why {
        Unresolved::UnknownNode => Cause::UnknownNode,
        Unresolved::BadCode => Cause::BadCode,
    }
}

/// Returns the event of the centre that a line says, by the nodes that are declared.
///
/// # Errors
/// `UnknownNode` if a node isn't declared or has another role, or is its own parent or partner; then `BadCode`.
pub(crate) fn event_for(network: &Draft, said: Said) -> Result<CentreEvent, Cause>
    ensures { IsEventFor result (task_for network.now.stations (said_of said)) }
{
    match resolve(network, said) {
        Ok(event) => Ok(event),
        Err(why) => Err(cause_of(why)),
    }
}
