//! Forged frames, after their first word.

ghost use Rattle.std.specs.Prelude.{◌≡◌, codes, IfSome};
ghost use Rattle.zb_text.specs.Words.{left, Shows};
ghost use Rattle.zb_sched_line.specs.Fits.{FitsEvent, FitsSealed, IsEui, SomeUpTo};
ghost use Rattle.zb_sched_line.specs.Grammar.{forge_content, forge_net_of, forge_of, forge_open_of, last_content, sealed_of};
ghost use Rattle.zb_sched_line.specs.Views.{event_of, sealed};
ghost use Rattle.zb_base.specs.Limits.{longest_content};

use crate::event::Event;
use crate::fields::{aps_label, byte, keyword, real_eui, some_bytes};
use arrayvec::ArrayVec;
use zb_base::{Eui, Key, Label, Short};
use zb_text::hexadecimal;
use zb_text::words::Words;

/// The APS part of a forged frame.
#[derive(Drop)]
pub struct Command {
    /// Which key is derived from the base key.
    pub label: Label,
    /// The base key.
    pub base: Key,
    /// The APS frame counter.
    pub counter: u32,
    /// The command's payload.
    pub bytes: ArrayVec<u8, 64>,
}

/// The destination of a forged frame, and the source that it claims.
#[derive(Clone, Copy)]
pub struct Route {
    /// The destination.
    pub to: Short,
    /// The source's short address.
    pub from: Short,
    /// The source's EUI.
    pub source: Eui,
}

impl Route {
    ghost use Rattle.std.specs.Prelude.{◌≡◌};

    /// Names the destination and the claimed source.
    pub fn new(to: Short, from: Short, source: Eui) -> Route
        ensures { (result.to ≡ to) × (result.from ≡ from) × (result.source ≡ source) }
    {
        Route { to, from, source }
    }
}

/// Reads a forged frame.
pub fn forge(mut words: Words) -> Option<Event>
    ensures value { Shows event_of result (forge_of (left words.entry)) }
    ensures fits { IfSome result (λ event. FitsEvent (event_of event)) }
{
    let to = words.short()?;
    let from = words.short()?;
    let source = real_eui(&mut words)?;
    let route = Route { to, from, source };
    let kind = words.word()?;
    if kind == b"net".as_slice() {
        forge_net(route, words)
    } else if kind == b"open".as_slice() {
        forge_open(route, words)
    } else {
        None
    }
}

/// How a forged frame is sealed at the network layer.
#[derive(Clone, Copy)]
pub struct Net {
    /// The network key.
    pub key: Key,
    /// The key's sequence number.
    pub sequence: u8,
    /// The NWK frame counter.
    pub counter: u32,
}

impl Net {
    ghost use Rattle.std.specs.Prelude.{◌≡◌};

    /// Names the network key, its sequence number and the frame counter.
    pub fn new(key: Key, sequence: u8, counter: u32) -> Net
        ensures { (result.key ≡ key) × (result.sequence ≡ sequence) × (result.counter ≡ counter) }
    {
        Net {
            key,
            sequence,
            counter,
        }
    }
}

fn forge_net(route: Route, mut words: Words) -> Option<Event>
    requires { IsEui route.source.0 }
    ensures value { Shows event_of result (forge_net_of route.to.0 route.from.0 route.source.0 (left words.entry)) }
    ensures fits { IfSome result (λ event. FitsEvent (event_of event)) }
{
    let key = words.key()?;
    let sequence = byte(&mut words, 255)?;
    let counter = words.number(u32::MAX)?;
    let word = words.word()?;
    let Route { to, from, source } = route;
    if word == b"aps".as_slice() {
        let Command {
            label,
            base,
            counter: aps_counter,
            bytes: command,
        } = aps_command(words)?;
        Some(Event::ForgeNetAps {
            to,
            from,
            source,
            key,
            sequence,
            counter,
            label,
            base,
            aps_counter,
            command,
        })
    } else {
        let content = only_content(word, words)?;
        Some(Event::ForgeNet {
            to,
            from,
            source,
            key,
            sequence,
            counter,
            content,
        })
    }
}

fn only_content(word: &[u8], words: Words) -> Option<ArrayVec<u8, 64>>
    ensures value { Shows (λ bytes. bytes.items) result (last_content word.now (left words.entry)) }
    ensures fits { IfSome result (λ bytes. SomeUpTo longest_content bytes.items) }
{
    let content = hexadecimal::bytes::<64>(word)?;
    if content.is_empty() {
        return None;
    }
    words.end()?;
    Some(content)
}

fn forge_open(route: Route, mut words: Words) -> Option<Event>
    requires { IsEui route.source.0 }
    ensures value { Shows event_of result (forge_open_of route.to.0 route.from.0 route.source.0 (left words.entry)) }
    ensures fits { IfSome result (λ event. FitsEvent (event_of event)) }
{
    keyword(&mut words, b"aps")?;
    let Route { to, from, source } = route;
    let Command {
        label,
        base,
        counter: aps_counter,
        bytes: command,
    } = aps_command(words)?;
    Some(Event::ForgeOpen {
        to,
        from,
        source,
        label,
        base,
        aps_counter,
        command,
    })
}

fn aps_command(mut words: Words) -> Option<Command>
    ensures value { Shows sealed result (sealed_of (left words.entry)) }
    ensures fits { IfSome result (λ command. FitsSealed (sealed command)) }
{
    let label = aps_label(&mut words)?;
    let base = words.key()?;
    let counter = words.number(u32::MAX)?;
    let bytes = some_bytes::<64>(&mut words)?;
    words.end()?;
    Some(Command {
        label,
        base,
        counter,
        bytes,
    })
}
