//! Why a line of a session wasn't carried out.
ghost use Rattle.std.specs.Prelude.{◌≡◌};
ghost use Rattle.zb_live.specs.Answers.{cause_word};

/// Why a line wasn't carried out. The line changes nothing, and the session continues.
#[derive(Clone, Copy, Debug, PartialEq, Eq)]
pub enum Cause {
    /// The line isn't valid, or a line of the header is in the wrong place: the centre comes first, then its peers.
    Syntax,
    /// Bytes are no install code.
    BadCode,
    /// A node isn't declared, or its part doesn't allow the event.
    UnknownNode,
    /// A name, EUI or short address is taken.
    DuplicateNode,
    /// A block of counters is out of its range.
    Block,
    /// The 64th peer.
    TooMany,
    /// The session is to be opened, and no centre was declared.
    NoCentre,
    /// An event, `list` or `backup` comes before `open`.
    Closed,
    /// A line of the header, or a second `open`, comes after `open`.
    Opened,
    /// The store has no bytes yet, so there is nothing to open.
    Empty,
}

impl Cause {
    /// Returns the word for the cause.
    pub fn word(self) -> &'static [u8]
        ensures { result.now ≡ cause_word self }
    {
        match self {
            Cause::Syntax => b"syntax",
            Cause::BadCode => b"bad-code",
            Cause::UnknownNode => b"unknown-node",
            Cause::DuplicateNode => b"duplicate-node",
            Cause::Block => b"block",
            Cause::TooMany => b"too-many",
            Cause::NoCentre => b"no-centre",
            Cause::Closed => b"closed",
            Cause::Opened => b"opened",
            Cause::Empty => b"empty",
        }
    }
}
