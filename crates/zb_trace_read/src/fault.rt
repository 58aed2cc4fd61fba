//! Where a text isn't a transcript.
use std::error::Error;
use std::fmt;

/// The first line, from 1, that isn't a line of a transcript.
#[derive(Clone, Copy, Debug, PartialEq, Eq)]
pub struct TraceError {
    /// The number of the line.
    pub line: u32,
}

impl fmt::Display for TraceError {
    ghost use Rattle.std.specs.Prelude.{Some};
    ghost use Rattle.zb_trace_read.specs.Texts.{fault_text};

    ghost output = { λ it. Some (fault_text it) };

    fn fmt<W: fmt::Write>(&self, f: &mut fmt::Formatter<W>) -> fmt::Result {
        let line = self.line;
        write!(f, "line {line} is no line of a transcript")
    }
}

impl Error for TraceError {}
