//! What an audit returns.
/// The verdict on a transcript that keeps all claims.
#[derive(Clone, Copy, Debug, PartialEq, Eq)]
pub struct Verdict {
    /// How many terms were sealed.
    pub seals: u32,
    /// How many terms were accepted.
    pub accepts: u32,
    /// Whether everything accepted came from earlier terms, and outsiders forged with no more than they may know.
    /// Removed devices are then locked out.
    pub locked: bool,
}

/// Why there is no verdict.
#[derive(Clone, Copy, Debug, PartialEq, Eq)]
pub enum AuditFault {
    /// The first bad line, from 1, and the first claim that it breaks, from 1.
    Broken { line: u32, clause: u8 },
    /// Memory ran out.
    NoMemory,
}

/// A bad line, by its number from 1, and a claim that it breaks.
#[derive(Clone, Copy)]
pub struct BadLine {
    /// The number of the line.
    pub line: u32,
    /// The claim, from 1.
    pub clause: u8,
}
