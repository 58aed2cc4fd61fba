//! The events of a session after the first word of their line. They happen to the centre.
ghost use Rattle.std.specs.Prelude.{◌≡◌, codes};
ghost use Rattle.std.specs.Option.{option_map};
ghost use Rattle.zb_text.specs.Words.{field, left, Shows, Takes};
ghost use Rattle.zb_live.specs.Grammar.{again_of, child_of, deliver_of, draw_of, event_at, roll_of, say_of, share_of};
ghost use Rattle.zb_live.specs.Views.{draw_bytes};
ghost use Rattle.zb_script.specs.Resolving.{said_of};
ghost use Rattle.zb_sched_line.specs.Grammar.{rejoin_of};

use zb_base::Key;
use zb_script::Said;
use zb_text::fields;
use zb_text::words::Words;

/// Reads an event that scripts don't have, if the keyword begins one.
pub(crate) fn read_event(keyword: &[u8], words: Words) -> Option<Said>
    ensures { Shows said_of result (event_at keyword.now (left words.entry)) }
{
    if keyword == b"deliver".as_slice() {
        deliver(words)
    } else if keyword == b"child".as_slice() {
        child(words)
    } else if keyword == b"timer".as_slice() {
        words.end()?;
        Some(Said::Timer)
    } else if keyword == b"say".as_slice() {
        say(words)
    } else if keyword == b"roll".as_slice() {
        roll(words)
    } else if keyword == b"switch".as_slice() {
        words.end()?;
        Some(Said::Switch)
    } else if keyword == b"again".as_slice() {
        again(words)
    } else if keyword == b"share".as_slice() {
        share(words)
    } else {
        None
    }
}

fn deliver(mut words: Words) -> Option<Said>
    ensures { Shows said_of result (deliver_of (left words.entry)) }
{
    let bytes = words.bytes::<127>()?;
    let draw = draw(&mut words)?;
    words.end()?;
    Some(Said::Deliver { bytes, draw })
}

fn child(mut words: Words) -> Option<Said>
    ensures { Shows said_of result (child_of (left words.entry)) }
{
    let device = words.name()?;
    let rejoin = rejoin(&mut words)?;
    words.end()?;
    Some(Said::Child { device, rejoin })
}

fn say(mut words: Words) -> Option<Said>
    ensures { Shows said_of result (say_of (left words.entry)) }
{
    let to = words.short()?;
    let bytes = words.bytes::<64>()?;
    words.end()?;
    Some(Said::Say { to, bytes })
}

fn roll(mut words: Words) -> Option<Said>
    ensures { Shows said_of result (roll_of (left words.entry)) }
{
    let draw = draw(&mut words)?;
    words.end()?;
    Some(Said::Roll { draw })
}

fn again(mut words: Words) -> Option<Said>
    ensures { Shows said_of result (again_of (left words.entry)) }
{
    let device = words.name()?;
    words.end()?;
    Some(Said::Again { device })
}

fn share(mut words: Words) -> Option<Said>
    ensures { Shows said_of result (share_of (left words.entry)) }
{
    let device = words.name()?;
    let partner = words.name()?;
    words.end()?;
    Some(Said::Share { device, partner })
}

/// Takes `join`, which is false, or `rejoin`, which is true.
fn rejoin(words: &mut Words) -> Option<bool>
    ensures { Takes (λ rejoin. rejoin) result (left words.new) (field rejoin_of (left words.old)) }
{
    let word = words.word()?;
    if word == b"join".as_slice() {
        Some(false)
    } else if word == b"rejoin".as_slice() {
        Some(true)
    } else {
        None
    }
}

/// Takes a key of 32 digits, or `-` for none.
fn draw(words: &mut Words) -> Option<Option<Key>>
    ensures { Takes draw_bytes result (left words.new) (field draw_of (left words.old)) }
{
    let word = words.word()?;
    let draw = draw_in(word)?;
    Some(draw)
}

fn draw_in(word: &[u8]) -> Option<Option<Key>>
    ensures { option_map draw_bytes result ≡ draw_of word.now }
{
    if word == b"-".as_slice() {
        return Some(None);
    }
    let key = fields::key(word)?;
    Some(Some(key))
}
