//! A line.

ghost use Rattle.std.specs.Prelude.{◌≡◌, IfSome};
ghost use Rattle.zb_text.specs.Words.{Shows};
ghost use Rattle.zb_sched_line.specs.Fits.{FitsEvent, FitsSentence};
ghost use Rattle.zb_sched_line.specs.Grammar.{is_quiet, meaning_of};
ghost use Rattle.zb_sched_line.specs.Places.{own_event_of, read_into};
ghost use Rattle.zb_sched_line.specs.Views.{event_of, sentence_of};

use crate::declarations::declaration;
use crate::event::Event;
use crate::events::{other_event, own_event};
use zb_base::{Key, Layer, Name, Peer};
use zb_install::InstallCode;
use zb_text::words::Words;

/// What a line says. Where an install code stands in it, None is bytes that are no install code.
#[derive(Drop)]
pub enum Line {
    /// An empty line, or a comment.
    Blank,
    /// `node NAME ROLE EUI SHORT OUT IN`: a node and its blocks of counters.
    Node {
        peer: Peer,
        out_block: u32,
        in_block: u32,
    },
    /// `code NAME HEX`: the install code that is printed on a node.
    Code {
        name: Name,
        code: Option<InstallCode>,
    },
    /// `netkey NAME KEY SEQ`: a network key that a node holds from the start.
    NetKey {
        name: Name,
        key: Key,
        sequence: u8,
    },
    /// `counter NAME LAYER N`: a node's stored outgoing limit at the start.
    Counter {
        name: Name,
        layer: Layer,
        limit: u32,
    },
    /// `draw KEY`: the next key of the supply.
    Draw {
        key: Key,
    },
    /// `provision NAME HEX` where the bytes are no install code.
    BadProvision {
        name: Name,
    },
    /// Any other event.
    Event(Event),
}

/// Reads a line, or returns None where it is no line of a schedule.
pub fn read_line(line: &[u8]) -> Option<Line>
    ensures value { Shows sentence_of result (meaning_of line.now) }
    ensures fits { IfSome result (λ line. FitsSentence (sentence_of line)) }
{
    if is_blank(line) {
        return Some(Line::Blank);
    }
    let mut words = Words::new(line);
    let keyword = words.word()?;
    let mut event = Event::Roll;
    if own_event(keyword, words, &mut event).is_some() {
        return Some(Line::Event(event));
    }
    if let Some(line) = declaration(keyword, words) {
        return Some(line);
    }
    let event = other_event(keyword, words)?;
    Some(Line::Event(event))
}

/// Reads an event of one node into a place, or returns None where the line is none.
///
/// After None what stands in the place means nothing.
pub fn read_own_event(line: &[u8], event: &mut Event) -> Option<()>
    ensures value { Shows event_of (read_into result event.new) (own_event_of line.now) }
    ensures fits { IfSome result (λ _. FitsEvent (event_of event.new)) }
{
    if is_blank(line) {
        return None;
    }
    let mut words = Words::new(line);
    let keyword = words.word()?;
    own_event(keyword, words, event)
}

fn is_blank(line: &[u8]) -> bool
    ensures { result ≡ is_quiet line.now }
{
    line.is_empty() || line[0] == b'#'
}
