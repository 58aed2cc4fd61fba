//! What is wrong with bytes that aren't a capture file.
use std::error::Error;
use std::fmt;

/// What is wrong with a file. The causes are checked in this order.
#[derive(Clone, Copy, Debug, PartialEq, Eq)]
pub enum PcapCause {
    /// There are fewer than 24 bytes, or they don't begin as a capture file does.
    Magic,
    /// The version isn't 2.4.
    Version,
    /// The link type isn't one of IEEE 802.15.4.
    Link,
    /// A record isn't whole.
    Cut,
    /// It is the 100,001st record.
    TooMany,
}

impl fmt::Display for PcapCause {
    ghost use Rattle.std.specs.Prelude.{Some};
    ghost use Rattle.zb_pcap.specs.Texts.{cause_text};

    ghost output = { λ cause. Some (cause_text cause) };

    fn fmt<W: fmt::Write>(&self, f: &mut fmt::Formatter<W>) -> fmt::Result {
        match self {
            PcapCause::Magic => f.write_str("magic"),
            PcapCause::Version => f.write_str("version"),
            PcapCause::Link => f.write_str("link"),
            PcapCause::Cut => f.write_str("cut"),
            PcapCause::TooMany => f.write_str("too-many"),
        }
    }
}

/// The first bad part of a file, and what is wrong with it.
#[derive(Clone, Copy, Debug, PartialEq, Eq)]
pub struct PcapError {
    /// The number of the record, from 1, or 0 for the header.
    pub place: u32,
    /// What is wrong with it.
    pub cause: PcapCause,
}

impl fmt::Display for PcapError {
    ghost use Rattle.std.specs.Prelude.{Some};
    ghost use Rattle.zb_pcap.specs.Texts.{fault_text};

    ghost output = { λ fault. Some (fault_text fault) };

    fn fmt<W: fmt::Write>(&self, f: &mut fmt::Formatter<W>) -> fmt::Result {
        let place = self.place;
        write!(f, "{place} ")?;
        self.cause.fmt(f)
    }
}

impl Error for PcapError {}
