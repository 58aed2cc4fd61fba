//! The terms of a frame, and the frame controls of the network layer (05-3474-21, 3.3.1.1).
ghost use Rattle.std.specs.Prelude.{◌≡◌, ◌+◌, length, None};
ghost use Rattle.zb_model.specs.Data.{ForData};
ghost use Rattle.zb_model.specs.Frames.{aps_term, data_front, nwk_term, sealed_command, sealed_data};
ghost use Rattle.zb_model_real.specs.Terms.{model_label, model_term};
ghost use Rattle.zb_seal.specs.Wire.{wire_length};

use crate::headers::{
    Head, aps_control, aps_label, command_header, data_header, joined, low_byte, nwk_auxiliary,
    nwk_header, put_nwk_headers,
};
use zb_base::{Eui, Frame, Key, Label, Layer};
use zb_seal::Term;

/// The NWK frame control of a sealed data frame.
pub const SECURED: u16 = 0x0208;

/// The NWK frame control of a sealed command.
pub const COMMAND: u16 = 0x0209;

/// The NWK frame control of a data frame that isn't sealed.
pub const CLEAR: u16 = 0x0008;

/// Makes the term of a NWK frame under a network key.
pub fn nwk_term(head: Head, content: Frame) -> Term
    ensures term { model_term result ≡ nwk_term head.control head.to.0 head.from.0 head.source.0 head.key.0
        head.sequence head.counter content.items }
    ensures len { wire_length result ≡ length content.items + 26 }
{
    let header = nwk_header(head.control, head.to, head.from, low_byte(head.counter));
    let auxiliary = nwk_auxiliary(head.counter, head.source, head.sequence);
    Term {
        layer: Layer::Nwk,
        base: head.key,
        label: Label::Network,
        source: head.source,
        counter: head.counter,
        control: 0x2d,
        header: joined(header.as_slice(), auxiliary.as_slice()),
        content,
    }
}

/// Makes a term whose parts are still to be written.
pub(crate) fn blank_term() -> Term {
    Term {
        layer: Layer::Nwk,
        base: Key([0; 16]),
        label: Label::Network,
        source: Eui(0),
        counter: 0,
        control: 0,
        header: Frame::new(),
        content: Frame::new(),
    }
}

/// Takes a term out of its place, if there is one.
pub(crate) fn forget(term: &mut Option<Term>)
    ensures { term.new ≡ None }
{
    if term.is_some() {
        *term = None;
    }
}

/// Writes the term of a NWK frame under a network key around the content that the term has.
pub(crate) fn put_nwk_term(term: &mut Term, head: Head)
    ensures term { model_term term.new ≡ nwk_term head.control head.to.0 head.from.0 head.source.0 head.key.0
        head.sequence head.counter term.old.content.items }
    ensures len { wire_length term.new ≡ length term.old.content.items + 26 }
{
    term.layer = Layer::Nwk;
    term.base = head.key;
    term.label = Label::Network;
    term.source = head.source;
    term.counter = head.counter;
    term.control = 0x2d;
    put_nwk_headers(&mut term.header, head);
}

/// Makes the term of an APS command under a link key.
pub fn command_term(label: Label, key: &Key, source: Eui, counter: u32, content: Frame) -> Term
    ensures term { model_term result
        ≡ aps_term sealed_command (model_label label) key.now.0 source.0 counter content.items }
    ensures len { wire_length result ≡ length content.items + 19 }
{
    Term {
        layer: Layer::Aps,
        base: *key,
        label: aps_label(label),
        source,
        counter,
        control: aps_control(label),
        header: command_header(label, counter, source),
        content,
    }
}

/// Makes the term of application data under a link key.
pub(crate) fn data_term(key: &Key, source: Eui, counter: u32, content: Frame) -> Term
    ensures term { model_term result
        ≡ aps_term (data_front sealed_data) ForData key.now.0 source.0 counter content.items }
    ensures len { wire_length result ≡ length content.items + 25 }
{
    Term {
        layer: Layer::Aps,
        base: *key,
        label: Label::Data,
        source,
        counter,
        control: 0x25,
        header: data_header(counter, source),
        content,
    }
}
