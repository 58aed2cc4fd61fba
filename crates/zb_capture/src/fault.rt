//! What is wrong with a text that isn't a capture.
use std::error::Error;
use std::fmt;

/// What is wrong with a line. The causes are checked in this order.
#[derive(Clone, Copy, Debug, PartialEq, Eq)]
pub enum CaptureCause {
    /// It is not one of the lines of a capture.
    Syntax,
    /// The digits of a `code` line are not an install code.
    BadCode,
    /// It is the 257th `key` or `code` line, or the 100,001st `frame` line.
    TooMany,
    /// An earlier `addr` line has the same short address.
    AddressTaken,
}

impl fmt::Display for CaptureCause {
    ghost use Rattle.std.specs.Prelude.{Some};
    ghost use Rattle.zb_capture.specs.Texts.{cause_text};

    ghost output = { λ cause. Some (cause_text cause) };

    fn fmt<W: fmt::Write>(&self, f: &mut fmt::Formatter<W>) -> fmt::Result {
        match self {
            CaptureCause::Syntax => f.write_str("syntax"),
            CaptureCause::BadCode => f.write_str("bad-code"),
            CaptureCause::TooMany => f.write_str("too-many"),
            CaptureCause::AddressTaken => f.write_str("address-taken"),
        }
    }
}

/// Names the first bad line of a text, and the first cause of it.
#[derive(Clone, Copy, Debug, PartialEq, Eq)]
pub struct CaptureError {
    /// The number of the line, from 1.
    pub line: u32,
    /// What is wrong with it.
    pub cause: CaptureCause,
}

impl fmt::Display for CaptureError {
    ghost use Rattle.std.specs.Prelude.{Some};
    ghost use Rattle.zb_capture.specs.Texts.{fault_text};

    ghost output = { λ fault. Some (fault_text fault) };

    fn fmt<W: fmt::Write>(&self, f: &mut fmt::Formatter<W>) -> fmt::Result {
        let line = self.line;
        write!(f, "{line} ")?;
        self.cause.fmt(f)
    }
}

impl Error for CaptureError {}
