//! What a frame opens to, as C reads it.
ghost use Rattle.std.specs.Prelude.{◌≡◌, ◌≤◌, length, IfOk, OnErr};
ghost use Rattle.tc_c.specs.Numbers.{open_number};
ghost use Rattle.tc_c.specs.Openings.{IsWritten, label_number};
ghost use Rattle.zb_base.specs.Limits.{longest_frame};

use zb_base::Label;
use zb_seal::{OpenError, Term};

/// What a frame opens to, except its content.
#[repr(C)]
#[derive(Drop)]
pub struct TcOpened {
    /// The EUI of the node that sealed it.
    pub source: u64,
    /// Its frame counter.
    pub counter: u32,
    /// How many bytes its content has.
    pub len: u32,
    /// The key identifier: 0 data, 1 network, 2 key-transport, 3 key-load.
    pub label: u8,
    /// The security control byte, with the level that counts.
    pub control: u8,
}

/// Returns the key identifier of a label.
fn number_of(label: Label) -> u8
    ensures { result ≡ label_number label }
{
    match label {
        Label::Data => 0,
        Label::Network => 1,
        Label::Transport => 2,
        Label::Load => 3,
    }
}

/// Writes what a frame opens to.
fn write(term: &Term, content: &mut [u8], opened: &mut TcOpened)
    requires { longest_frame ≤ length content.old }
    ensures { IsWritten term.now content.old content.new opened.new }
{
    let len = term.content.len();
    content[..len].copy_from_slice(term.content.as_slice());
    opened.source = term.source.0;
    opened.counter = term.counter;
    opened.len = len as u32;
    opened.label = number_of(term.label);
    opened.control = term.control;
}

/// Writes what was opened and returns 0, or returns the number of the fault.
pub(crate) fn hand_out(
    found: Result<Term, OpenError>,
    content: &mut [u8],
    opened: &mut TcOpened,
) -> u32
    requires { longest_frame ≤ length content.old }
    ensures number { result ≡ open_number found }
    ensures written { IfOk found (λ t. IsWritten t content.old content.new opened.new) }
    ensures content { OnErr found (content.new ≡ content.old) }
    ensures opened { OnErr found (opened.new ≡ opened.old) }
{
    match found {
        Ok(term) => {
            write(&term, content, opened);
            0
        }
        Err(fault) => fault_number(&fault),
    }
}

/// Returns the number of a fault of opening.
pub(crate) fn fault_number(fault: &OpenError) -> u32
    ensures { result ≡ open_number (Err fault.now) }
{
    match fault {
        OpenError::Frame { .. } => 1,
        OpenError::NotSecured => 2,
        OpenError::NoSource => 3,
        OpenError::BadMic => 4,
    }
}
