//! The lines of a session, one by one.
ghost use Rattle.std.specs.Prelude.{◌≡◌, codes, IfSome};
ghost use Rattle.std.specs.Option.{option_map};
ghost use Rattle.zb_text.specs.Words.{left, words, Shows};
ghost use Rattle.zb_live.specs.Grammar.{header_at, log_of, meaning_of, own_line, scripted, scripted_in};
ghost use Rattle.zb_live.specs.Said.{Joins};
ghost use Rattle.zb_live.specs.Views.{sentence_of};
ghost use Rattle.zb_script.specs.Grammar.{meaning_of as script_meaning};
ghost use Rattle.zb_script.specs.SoFar.{Joins as ScriptJoins};
ghost use Rattle.zb_script.specs.Views.{sentence_of as script_sentence};
ghost use Rattle.zb_sched_line.specs.Grammar.{is_quiet};

use crate::line_event::read_event;
use crate::question::Question;
use zb_base::{Eui, Name, Peer};
use zb_script::{Line as ScriptLine, Said, read_line as read_script_line};
use zb_text::words::Words;

/// What a line says.
#[derive(Drop)]
pub enum Line {
    /// An empty line, or a comment.
    Blank,
    /// `centre NAME EUI OUT IN`: the centre and its blocks of counters.
    Centre {
        /// The centre's name.
        name: Name,
        /// Its EUI.
        eui: Eui,
        /// How many outgoing frame counters are reserved at once.
        out_block: u32,
        /// How far ahead a floor for incoming frame counters is stored.
        in_block: u32,
    },
    /// `peer NAME ROLE EUI SHORT`: a router or device.
    Peer {
        /// The router or device.
        peer: Peer,
    },
    /// `log all` or `log none`: which lines of an event are answered.
    Log {
        /// Which lines.
        log: Log,
    },
    /// `open`: the header is complete, and the centre starts from its store.
    Open,
    /// Any event of the centre.
    Event {
        /// The event.
        event: Said,
    },
    /// A question: something of the tables is shown.
    Show {
        /// What is shown.
        question: Question,
    },
}

/// Which lines of an event are answered.
#[derive(Clone, Copy, Debug, PartialEq, Eq)]
pub enum Log {
    /// All lines.
    All,
    /// Those that show no key.
    NoKeys,
}

/// Reads a line, or returns None if it isn't a line of a session.
pub fn read_line(line: &[u8]) -> Option<Line>
    ensures value { Shows sentence_of result (meaning_of line.now) }
    ensures joins { IfSome result (λ line. Joins (sentence_of line)) }
{
    if is_blank(line) {
        return Some(Line::Blank);
    }
    let mut words = Words::new(line);
    let keyword = words.word()?;
    match own_line(keyword, words) {
        Some(own) => Some(own),
        None => script_line(line),
    }
}

fn is_blank(line: &[u8]) -> bool
    ensures { result ≡ is_quiet line.now }
{
    line.is_empty() || line[0] == b'#'
}

/// Reads a line that no script has, if the keyword begins one.
fn own_line(keyword: &[u8], words: Words) -> Option<Line>
    ensures value { Shows sentence_of result (own_line keyword.now (left words.entry)) }
    ensures joins { IfSome result (λ line. Joins (sentence_of line)) }
{
    match header(keyword, words) {
        Some(line) => Some(line),
        None => {
            let event = read_event(keyword, words)?;
            Some(Line::Event { event })
        }
    }
}

/// Reads a line of the header that no script has, if the keyword begins one.
fn header(keyword: &[u8], words: Words) -> Option<Line>
    ensures value { Shows sentence_of result (header_at keyword.now (left words.entry)) }
    ensures joins { IfSome result (λ line. Joins (sentence_of line)) }
{
    if keyword == b"log".as_slice() {
        log_choice(words)
    } else if keyword == b"open".as_slice() {
        words.end()?;
        Some(Line::Open)
    } else {
        None
    }
}

fn log_choice(mut words: Words) -> Option<Line>
    ensures value { Shows sentence_of result (log_of (left words.entry)) }
    ensures joins { IfSome result (λ line. Joins (sentence_of line)) }
{
    let word = words.word()?;
    words.end()?;
    if word == b"all".as_slice() {
        Some(Line::Log { log: Log::All })
    } else if word == b"none".as_slice() {
        Some(Line::Log { log: Log::NoKeys })
    } else {
        None
    }
}

/// Reads a line that scripts have too.
fn script_line(line: &[u8]) -> Option<Line>
    ensures value { Shows sentence_of result (scripted_in (script_meaning line.now)) }
    ensures joins { IfSome result (λ line. Joins (sentence_of line)) }
{
    let line = read_script_line(line)?;
    shared_line(line)
}

/// Returns the line of a script as one of a session, if a session has it too.
fn shared_line(line: ScriptLine) -> Option<Line>
    requires { ScriptJoins (script_sentence line) }
    ensures value { Shows sentence_of result (scripted (script_sentence line.entry)) }
    ensures joins { IfSome result (λ line. Joins (sentence_of line)) }
{
    match line {
        ScriptLine::Centre {
            name,
            eui,
            out_block,
            in_block,
        } => Some(Line::Centre {
            name,
            eui,
            out_block,
            in_block,
        }),
        ScriptLine::Peer { peer } => Some(Line::Peer { peer }),
        ScriptLine::Provision { name, code } => Some(Line::Event {
            event: Said::Provision {
                device: name,
                key: code,
            },
        }),
        ScriptLine::Remove { name, parent } => Some(Line::Event {
            event: Said::Remove {
                device: name,
                via: parent,
            },
        }),
        ScriptLine::List => Some(Line::Show {
            question: Question::List,
        }),
        ScriptLine::Backup => Some(Line::Show {
            question: Question::Backup,
        }),
        ScriptLine::Blank | ScriptLine::Init { .. } | ScriptLine::Restore { .. } => None,
    }
}
