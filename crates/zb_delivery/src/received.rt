//! What a delivered frame brings, once it passed judging.
use zb_base::Key;
use zb_cmd::Command;
use zb_rules::Heard;

/// What a delivered frame brings, and how it came.
#[derive(Debug, Drop)]
pub(crate) struct Received {
    /// How it came, and from whom.
    pub came: Heard,
    /// The next key of the centre's supply.
    pub draw: Option<Key>,
    /// What it is.
    pub content: Content,
}

/// The content of a frame that passed judging.
#[derive(Debug, Drop)]
pub(crate) enum Content {
    /// A Leave of the network layer, by its options.
    Leave(u8),
    /// A command of the APS security services.
    Command(Command),
    /// Application data, or an acknowledgement.
    Data,
}
