//! The lines of a script, one by one.

ghost use Rattle.std.specs.Prelude.{◌≡◌, ◌&&◌, IfSome, codes, option_map};
ghost use Rattle.zb_text.specs.Words.{field, left, words, Shows, Takes};
ghost use Rattle.zb_sched_line.specs.Grammar.{is_quiet, is_short_of, is_real_eui, meaning_of as scheduled, real_eui_of};
ghost use Rattle.zb_sched_line.specs.Views.{event_of as event_said};
ghost use Rattle.zb_script.specs.SoFar.{Joins};
ghost use Rattle.zb_script.specs.Grammar.{centre_of, event_of, init_of, is_joiner, meaning_of, own_line, peer_of, rest_of, restore_of, shared_in};
ghost use Rattle.zb_script.specs.Views.{sentence_of};

use zb_base::{Eui, Key, Name, Peer, Role, Short};
use zb_install::InstallCode;
use zb_sched_line::{Event, Line as ScheduleLine, read_line as read_schedule_line};
use zb_text::words::Words;

/// What a line says. Where an install code stands in it, None is bytes that are no install code.
#[derive(Drop)]
pub enum Line<'a> {
    /// An empty line, or a comment.
    Blank,
    /// `centre NAME EUI OUT IN`: the centre and its blocks of counters.
    Centre {
        name: Name,
        eui: Eui,
        out_block: u32,
        in_block: u32,
    },
    /// `peer NAME ROLE EUI SHORT`: a router or device.
    Peer {
        peer: Peer,
    },
    /// `init KEY`: a new store.
    Init {
        key: Key,
    },
    /// `provision NAME HEX`: a device is admitted.
    Provision {
        name: Name,
        code: Option<InstallCode>,
    },
    /// `remove NAME via PARENT`: a device is removed.
    Remove {
        name: Name,
        parent: Name,
    },
    /// `list`.
    List,
    /// `backup`.
    Backup,
    /// `restore SKIP JSON`: a new store of a backup.
    Restore {
        skip: u32,
        json: &'a [u8],
    },
}

/// Reads a line, or returns None where it is no line of a script.
pub fn read_line<'a>(line: &'a [u8]) -> Option<Line<'a>>
    ensures value { Shows sentence_of result (meaning_of line.now) }
    ensures joins { IfSome result (λ line. Joins (sentence_of line)) }
{
    if is_blank(line) {
        return Some(Line::Blank);
    }
    let mut words = Words::new(line);
    let keyword = words.word()?;
    match own_line(keyword, words) {
        Some(own) => Some(own),
        None => shared_line(line),
    }
}

fn is_blank(line: &[u8]) -> bool
    ensures { result ≡ is_quiet line.now }
{
    line.is_empty() || line[0] == b'#'
}

/// Reads a line that no schedule has, if the keyword begins one.
fn own_line<'a>(keyword: &[u8], words: Words<'a>) -> Option<Line<'a>>
    ensures value { Shows sentence_of result (own_line keyword.now (left words.entry)) }
    ensures joins { IfSome result (λ line. Joins (sentence_of line)) }
{
    if keyword == b"centre".as_slice() {
        centre(words)
    } else if keyword == b"peer".as_slice() {
        peer(words)
    } else if keyword == b"init".as_slice() {
        init(words)
    } else if keyword == b"list".as_slice() {
        words.end()?;
        Some(Line::List)
    } else if keyword == b"backup".as_slice() {
        words.end()?;
        Some(Line::Backup)
    } else if keyword == b"restore".as_slice() {
        restore(words)
    } else {
        None
    }
}

/// Takes an EUI that a node can have: not all 0, nor all F.
fn real_eui(words: &mut Words) -> Option<Eui>
    ensures { Takes (λ eui. eui.0) result (left words.new) (field real_eui_of (left words.old)) }
{
    let eui = words.eui()?;
    if is_real_eui(eui) { Some(eui) } else { None }
}

fn is_real_eui(eui: Eui) -> bool
    ensures { result ≡ is_real_eui eui.0 }
{
    eui.0 != 0 && eui.0 != u64::MAX
}

fn centre<'a>(mut words: Words<'a>) -> Option<Line<'a>>
    ensures value { Shows sentence_of result (centre_of (left words.entry)) }
    ensures joins { IfSome result (λ line. Joins (sentence_of line)) }
{
    let name = words.name()?;
    let eui = real_eui(&mut words)?;
    let out_block = words.number(u32::MAX)?;
    let in_block = words.number(u32::MAX)?;
    words.end()?;
    Some(Line::Centre {
        name,
        eui,
        out_block,
        in_block,
    })
}

fn peer<'a>(mut words: Words<'a>) -> Option<Line<'a>>
    ensures value { Shows sentence_of result (peer_of (left words.entry)) }
    ensures joins { IfSome result (λ line. Joins (sentence_of line)) }
{
    let name = words.name()?;
    let role = words.role()?;
    let eui = real_eui(&mut words)?;
    let short = words.short()?;
    words.end()?;
    if may_join(role, short) {
        Some(Line::Peer {
            peer: Peer {
                name,
                eui,
                short,
                role,
            },
        })
    } else {
        None
    }
}

/// Returns whether a node is a router or a device, with a short address that it may have.
fn may_join(role: Role, short: Short) -> bool
    ensures { result ≡ (is_joiner role && is_short_of role short.0) }
{
    match role {
        Role::Centre => false,
        Role::Router | Role::Device => 1 <= short.0 && short.0 <= 0xFFF7,
    }
}

fn init<'a>(mut words: Words<'a>) -> Option<Line<'a>>
    ensures value { Shows sentence_of result (init_of (left words.entry)) }
    ensures joins { IfSome result (λ line. Joins (sentence_of line)) }
{
    let key = words.key()?;
    words.end()?;
    Some(Line::Init { key })
}

/// Takes the rest of a line, which may be empty, but not missing.
fn rest<'a>(words: Words<'a>) -> Option<&'a [u8]>
    ensures { option_map (λ rest. rest.now) result ≡ rest_of (left words.entry) }
{
    words.rest
}

fn restore<'a>(mut words: Words<'a>) -> Option<Line<'a>>
    ensures value { Shows sentence_of result (restore_of (left words.entry)) }
    ensures joins { IfSome result (λ line. Joins (sentence_of line)) }
{
    let skip = words.number(u32::MAX)?;
    let json = rest(words)?;
    Some(Line::Restore { skip, json })
}

/// Reads a line that schedules have too.
fn shared_line<'a>(line: &'a [u8]) -> Option<Line<'a>>
    ensures value { Shows sentence_of result (shared_in (scheduled line.now)) }
    ensures joins { IfSome result (λ line. Joins (sentence_of line)) }
{
    let line = read_schedule_line(line)?;
    match line {
        ScheduleLine::BadProvision { name } => Some(Line::Provision { name, code: None }),
        ScheduleLine::Event(event) => shared_event(event),
        _ => None,
    }
}

/// Returns the line of an event that scripts have too.
fn shared_event<'a>(event: Event) -> Option<Line<'a>>
    ensures value { Shows sentence_of result (event_of (event_said event)) }
    ensures joins { IfSome result (λ line. Joins (sentence_of line)) }
{
    match event {
        Event::Provision { name, code } => Some(Line::Provision {
            name,
            code: Some(code),
        }),
        Event::Remove { name, parent } => Some(Line::Remove { name, parent }),
        _ => None,
    }
}
