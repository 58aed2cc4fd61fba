//! The result of checking a line's counter.
use crate::floor::Sender;
use zb_base::{Key, Layer};

/// What a line needs from another line of its group.
#[derive(Clone, Copy)]
pub enum Need {
    /// A reserve needs a seal at its layer, unless the event was cut short.
    Seal(Layer),
    /// An accepted frame needs a floor line.
    Floor(Sender),
    /// A floor needs accepted frames to which it fits. If the event was cut short, it has to rise.
    Accept {
        sender: Sender,
        value: u32,
        block: u32,
    },
    /// An active line needs a start line of its key.
    Start(Key),
    /// A start line needs an active line of its key.
    Active(Key),
}

/// What is known about a line when it is read.
#[derive(Clone, Copy)]
pub enum Judgement {
    /// It adds up.
    Stands,
    /// It doesn't add up.
    Falls,
    /// It adds up if its group has another line.
    Waits(Need),
}

/// A line that waits for the end of its group.
#[derive(Clone, Copy)]
pub struct Wait {
    /// The number of the line.
    pub line: u32,
    /// The place of its node's name.
    pub place: usize,
    /// What it needs.
    pub need: Need,
}
