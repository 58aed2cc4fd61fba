//! Why a text is no script.

/// Why a line may not stand where it does, or that there is no centre.
#[derive(Clone, Copy, Debug, PartialEq, Eq)]
pub enum ScriptCause {
    /// The line is of no form, or it stands out of order: the centre, then its peers, then commands.
    Syntax,
    /// A name, EUI or short address is taken.
    DuplicateNode,
    /// A block of counters is out of its range.
    Block,
    /// A node isn't declared, or its part doesn't allow the command.
    UnknownNode,
    /// Bytes are no install code.
    BadCode,
    /// A text is no backup.
    Backup,
    /// The 64th peer, or the 10,001st command.
    TooMany,
    /// There is no centre.
    NoCentre,
}

/// The first bad line, from 1, and its first cause. That there is no centre is a fault after the last line.
#[derive(Clone, Copy, Debug, PartialEq, Eq)]
pub struct ScriptError {
    /// The number of the line.
    pub line: u32,
    /// Why it may not stand there.
    pub cause: ScriptCause,
}
