//! The effect of a rule that doesn't refuse.
ghost use Rattle.std.specs.Prelude.{◌≡◌, [], None, Some};

use arrayvec::ArrayVec;
use zb_base::Short;
use zb_node_types::Changes;
use zb_send::{Body, Sending};

/// What a rule does: the changes that it makes, without counters, and what it sends.
#[derive(Debug, Drop)]
pub struct Effect {
    /// The changes, in order. They may include one that leaves a thing as it is.
    pub changes: Changes,
    /// What the node sends, if anything.
    pub sending: Option<Sending>,
}

/// Returns the sending of a body to an address.
///
/// `secured`: whether the network layer is secured.
pub fn sending(to: Short, secured: bool, body: Body) -> Option<Sending>
    ensures { result ≡ Some (record { to = to; secured = secured; body = body }) }
{
    Some(Sending { to, secured, body })
}

impl Effect {
    /// Returns the effect that changes nothing and sends nothing.
    pub fn nothing() -> Effect
        ensures changes { result.changes.items ≡ [] }
        ensures sending { result.sending ≡ None }
    {
        Effect {
            changes: ArrayVec::new(),
            sending: None,
        }
    }

    /// Returns the effect that makes these changes and sends nothing.
    pub fn of_changes(changes: Changes) -> Effect
        ensures changes { result.changes ≡ changes }
        ensures sending { result.sending ≡ None }
    {
        Effect {
            changes,
            sending: None,
        }
    }

    /// Returns the effect that sends a body to an address and changes nothing.
    ///
    /// `secured`: whether the network layer is secured.
    pub fn of_sending(to: Short, secured: bool, body: Body) -> Effect
        ensures changes { result.changes.items ≡ [] }
        ensures sending { result.sending ≡ Some (record { to = to; secured = secured; body = body }) }
    {
        Effect {
            changes: ArrayVec::new(),
            sending: sending(to, secured, body),
        }
    }
}
