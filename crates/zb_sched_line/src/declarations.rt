//! Declarations, and the event that speaks of an install code, after their first word.

ghost use Rattle.std.specs.Prelude.{◌≡◌, codes, is_some, IfSome};
ghost use Rattle.std.specs.Option.{option_map};
ghost use Rattle.zb_text.specs.Words.{field, left, Shows, Takes};
ghost use Rattle.zb_sched_line.specs.Fits.{FitsSentence};
ghost use Rattle.zb_sched_line.specs.Grammar.{code_line_of, counter_of, declaration as declared, draw_of, is_short_of, netkey_of, node_of, provision_of};
ghost use Rattle.zb_sched_line.specs.Views.{sentence_of};

use crate::codes::install_code;
use crate::event::Event;
use crate::fields::{byte, real_eui};
use crate::line::Line;
use zb_base::{Peer, Role, Short};
use zb_text::words::Words;

/// Reads a declaration or a provision, if the keyword begins one.
pub fn declaration(keyword: &[u8], words: Words) -> Option<Line>
    ensures value { Shows sentence_of result (declared keyword.now (left words.entry)) }
    ensures fits { IfSome result (λ line. FitsSentence (sentence_of line)) }
{
    if keyword == b"node".as_slice() {
        node(words)
    } else if keyword == b"code".as_slice() {
        code(words)
    } else if keyword == b"netkey".as_slice() {
        netkey(words)
    } else if keyword == b"counter".as_slice() {
        counter(words)
    } else if keyword == b"draw".as_slice() {
        draw(words)
    } else if keyword == b"provision".as_slice() {
        provision(words)
    } else {
        None
    }
}

fn node(mut words: Words) -> Option<Line>
    ensures value { Shows sentence_of result (node_of (left words.entry)) }
    ensures fits { IfSome result (λ line. FitsSentence (sentence_of line)) }
{
    let name = words.name()?;
    let role = words.role()?;
    let eui = real_eui(&mut words)?;
    let short = words.short()?;
    let out_block = words.number(u32::MAX)?;
    let in_block = words.number(u32::MAX)?;
    words.end()?;
    if may_have(role, short) {
        Some(Line::Node {
            peer: Peer {
                name,
                eui,
                short,
                role,
            },
            out_block,
            in_block,
        })
    } else {
        None
    }
}

fn may_have(role: Role, short: Short) -> bool
    ensures { result ≡ is_short_of role short.0 }
{
    match role {
        Role::Centre => short.0 == 0,
        Role::Router => 1 <= short.0 && short.0 <= 0xFFF7,
        Role::Device => 1 <= short.0 && short.0 <= 0xFFF7,
    }
}

fn code(mut words: Words) -> Option<Line>
    ensures value { Shows sentence_of result (code_line_of (left words.entry)) }
    ensures fits { IfSome result (λ line. FitsSentence (sentence_of line)) }
{
    let name = words.name()?;
    let code = install_code(&mut words)?;
    words.end()?;
    Some(Line::Code { name, code })
}

fn provision(mut words: Words) -> Option<Line>
    ensures value { Shows sentence_of result (provision_of (left words.entry)) }
    ensures fits { IfSome result (λ line. FitsSentence (sentence_of line)) }
{
    let name = words.name()?;
    let code = install_code(&mut words)?;
    words.end()?;
    match code {
        Some(code) => Some(Line::Event(Event::Provision { name, code })),
        None => Some(Line::BadProvision { name }),
    }
}

fn netkey(mut words: Words) -> Option<Line>
    ensures value { Shows sentence_of result (netkey_of (left words.entry)) }
    ensures fits { IfSome result (λ line. FitsSentence (sentence_of line)) }
{
    let name = words.name()?;
    let key = words.key()?;
    let sequence = byte(&mut words, 255)?;
    words.end()?;
    Some(Line::NetKey {
        name,
        key,
        sequence,
    })
}

fn counter(mut words: Words) -> Option<Line>
    ensures value { Shows sentence_of result (counter_of (left words.entry)) }
    ensures fits { IfSome result (λ line. FitsSentence (sentence_of line)) }
{
    let name = words.name()?;
    let layer = words.layer()?;
    let limit = words.number(u32::MAX)?;
    words.end()?;
    Some(Line::Counter { name, layer, limit })
}

fn draw(mut words: Words) -> Option<Line>
    ensures value { Shows sentence_of result (draw_of (left words.entry)) }
    ensures fits { IfSome result (λ line. FitsSentence (sentence_of line)) }
{
    let key = words.key()?;
    words.end()?;
    Some(Line::Draw { key })
}
