//! Why a text is no schedule.

/// Why a line may not stand where it does, or that there is no centre.
#[derive(Clone, Copy, Debug, PartialEq, Eq)]
pub enum SchedCause {
    /// The line is of no form, or a declaration after an event.
    Syntax,
    /// A name, EUI or short address is taken, or a declaration stands twice for one node.
    DuplicateNode,
    /// The link key of an install code is known to others.
    DuplicateCode,
    /// A key of the supply or a network key is known already.
    DrawRepeated,
    /// A node isn't declared, or its part doesn't allow the line.
    UnknownNode,
    /// No node is the centre.
    NoCentre,
    /// Bytes are no install code.
    BadCode,
    /// A block of counters is out of its range.
    Block,
    /// The 65th node, or the 100,001st event.
    TooMany,
}

/// The first bad line, from 1, and its first cause. That there is no centre is a fault after the last line.
#[derive(Clone, Copy, Debug, PartialEq, Eq)]
pub struct SchedError {
    /// The number of the line.
    pub line: u32,
    /// Why it may not stand there.
    pub cause: SchedCause,
}
