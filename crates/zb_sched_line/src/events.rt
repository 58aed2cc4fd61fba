//! Events but forged frames, after their first word.

ghost use Rattle.std.specs.Prelude.{◌≡◌, codes, IfSome};
ghost use Rattle.std.specs.Option.{option_map};
ghost use Rattle.zb_text.specs.Words.{left, Shows};
ghost use Rattle.zb_sched_line.specs.Fits.{FitsEvent, IsName};
ghost use Rattle.zb_sched_line.specs.Grammar.{child_of, deliver_of, fail_of, inject_of, name_alone, other_event, own_event, remove_of, say_of, stop_of, tell_of, two_names};
ghost use Rattle.zb_sched_line.specs.Places.{read_into};
ghost use Rattle.zb_sched_line.specs.Said.{Boots, Dumps, Knocks, Rejoins, Resets, Ticks};
ghost use Rattle.zb_sched_line.specs.Views.{event_of};

use crate::event::Event;
use crate::fields::{byte, keyword, number_between, rejoin, some_bytes};
use crate::forge::forge;
use zb_base::Name;
use zb_text::words::Words;

/// Reads an event of one node into a place, if the keyword begins one.
pub fn own_event(keyword: &[u8], words: Words, event: &mut Event) -> Option<()>
    ensures value { Shows event_of (read_into result event.new) (own_event keyword.now (left words.entry)) }
    ensures fits { IfSome result (λ _. FitsEvent (event_of event.new)) }
{
    if keyword == b"say".as_slice() {
        return say(words, event);
    }
    if keyword == b"deliver".as_slice() {
        return deliver(words, event);
    }
    if keyword == b"timer".as_slice() {
        return timer(words, event);
    }
    if keyword == b"knock".as_slice() {
        return knock(words, event);
    }
    if keyword == b"rejoin".as_slice() {
        return start_rejoin(words, event);
    }
    if keyword == b"reset".as_slice() {
        return reset(words, event);
    }
    if keyword == b"boot".as_slice() {
        return boot(words, event);
    }
    if keyword == b"dump".as_slice() {
        return dump(words, event);
    }
    if keyword == b"stop".as_slice() {
        return stop(words, event);
    }
    if keyword == b"fail".as_slice() {
        return fail(words, event);
    }
    None
}

fn timer(words: Words, event: &mut Event) -> Option<()>
    ensures value { Shows event_of (read_into result event.new)
        (option_map Ticks (name_alone (left words.entry))) }
    ensures fits { IfSome result (λ _. FitsEvent (event_of event.new)) }
{
    let name = only_name(words)?;
    *event = Event::Timer { name };
    Some(())
}

fn knock(words: Words, event: &mut Event) -> Option<()>
    ensures value { Shows event_of (read_into result event.new)
        (option_map Knocks (name_alone (left words.entry))) }
    ensures fits { IfSome result (λ _. FitsEvent (event_of event.new)) }
{
    let name = only_name(words)?;
    *event = Event::Knock { name };
    Some(())
}

fn start_rejoin(words: Words, event: &mut Event) -> Option<()>
    ensures value { Shows event_of (read_into result event.new)
        (option_map Rejoins (name_alone (left words.entry))) }
    ensures fits { IfSome result (λ _. FitsEvent (event_of event.new)) }
{
    let name = only_name(words)?;
    *event = Event::Rejoin { name };
    Some(())
}

fn reset(words: Words, event: &mut Event) -> Option<()>
    ensures value { Shows event_of (read_into result event.new)
        (option_map Resets (name_alone (left words.entry))) }
    ensures fits { IfSome result (λ _. FitsEvent (event_of event.new)) }
{
    let name = only_name(words)?;
    *event = Event::Reset { name };
    Some(())
}

fn boot(words: Words, event: &mut Event) -> Option<()>
    ensures value { Shows event_of (read_into result event.new)
        (option_map Boots (name_alone (left words.entry))) }
    ensures fits { IfSome result (λ _. FitsEvent (event_of event.new)) }
{
    let name = only_name(words)?;
    *event = Event::Boot { name };
    Some(())
}

fn dump(words: Words, event: &mut Event) -> Option<()>
    ensures value { Shows event_of (read_into result event.new)
        (option_map Dumps (name_alone (left words.entry))) }
    ensures fits { IfSome result (λ _. FitsEvent (event_of event.new)) }
{
    let name = only_name(words)?;
    *event = Event::Dump { name };
    Some(())
}

/// Reads an event of the centre, of two nodes, or of the air, if the keyword begins one.
pub fn other_event(keyword: &[u8], words: Words) -> Option<Event>
    ensures value { Shows event_of result (other_event keyword.now (left words.entry)) }
    ensures fits { IfSome result (λ event. FitsEvent (event_of event)) }
{
    if keyword == b"inject".as_slice() {
        inject(words)
    } else if keyword == b"forge".as_slice() {
        forge(words)
    } else if keyword == b"child".as_slice() {
        child(words)
    } else if keyword == b"again".as_slice() {
        let name = only_name(words)?;
        Some(Event::Again { name })
    } else if keyword == b"roll".as_slice() {
        words.end()?;
        Some(Event::Roll)
    } else if keyword == b"switch".as_slice() {
        words.end()?;
        Some(Event::Switch)
    } else if keyword == b"remove".as_slice() {
        remove(words)
    } else if keyword == b"ask".as_slice() {
        let (name, partner) = both_names(words)?;
        Some(Event::Ask { name, partner })
    } else if keyword == b"share".as_slice() {
        let (name, partner) = both_names(words)?;
        Some(Event::Share { name, partner })
    } else if keyword == b"tell".as_slice() {
        tell(words)
    } else {
        None
    }
}

fn only_name(mut words: Words) -> Option<Name>
    ensures value { Shows (λ name. name.bytes) result (name_alone (left words.entry)) }
    ensures fits { IfSome result (λ name. IsName name.bytes) }
{
    let name = words.name()?;
    words.end()?;
    Some(name)
}

fn both_names(mut words: Words) -> Option<(Name, Name)>
    ensures value { Shows (λ names. (names.0.bytes, names.1.bytes)) result (two_names (left words.entry)) }
    ensures fits { IfSome result (λ names. IsName names.0.bytes × IsName names.1.bytes) }
{
    let first = words.name()?;
    let second = words.name()?;
    words.end()?;
    Some((first, second))
}

fn say(mut words: Words, event: &mut Event) -> Option<()>
    ensures value { Shows event_of (read_into result event.new) (say_of (left words.entry)) }
    ensures fits { IfSome result (λ _. FitsEvent (event_of event.new)) }
{
    let name = words.name()?;
    let to = words.short()?;
    let bytes = words.bytes::<64>()?;
    words.end()?;
    *event = Event::Say { name, to, bytes };
    Some(())
}

fn deliver(mut words: Words, event: &mut Event) -> Option<()>
    ensures value { Shows event_of (read_into result event.new) (deliver_of (left words.entry)) }
    ensures fits { IfSome result (λ _. FitsEvent (event_of event.new)) }
{
    let frame = number_between(&mut words, 1, u32::MAX)?;
    let name = words.name()?;
    words.end()?;
    *event = Event::Deliver { frame, name };
    Some(())
}

fn child(mut words: Words) -> Option<Event>
    ensures value { Shows event_of result (child_of (left words.entry)) }
    ensures fits { IfSome result (λ event. FitsEvent (event_of event)) }
{
    let parent = words.name()?;
    let name = words.name()?;
    let rejoin = rejoin(&mut words)?;
    words.end()?;
    Some(Event::Child {
        parent,
        name,
        rejoin,
    })
}

fn remove(mut words: Words) -> Option<Event>
    ensures value { Shows event_of result (remove_of (left words.entry)) }
    ensures fits { IfSome result (λ event. FitsEvent (event_of event)) }
{
    let name = words.name()?;
    keyword(&mut words, b"via")?;
    let parent = words.name()?;
    words.end()?;
    Some(Event::Remove { name, parent })
}

fn stop(mut words: Words, event: &mut Event) -> Option<()>
    ensures value { Shows event_of (read_into result event.new) (stop_of (left words.entry)) }
    ensures fits { IfSome result (λ _. FitsEvent (event_of event.new)) }
{
    let name = words.name()?;
    let calls = byte(&mut words, 5)?;
    let torn = words.bytes::<32>()?;
    words.end()?;
    *event = Event::Stop { name, calls, torn };
    Some(())
}

fn fail(mut words: Words, event: &mut Event) -> Option<()>
    ensures value { Shows event_of (read_into result event.new) (fail_of (left words.entry)) }
    ensures fits { IfSome result (λ _. FitsEvent (event_of event.new)) }
{
    let name = words.name()?;
    let call = number_between(&mut words, 1, 6)?;
    words.end()?;
    *event = Event::Fail {
        name,
        call: call as u8,
    };
    Some(())
}

fn inject(mut words: Words) -> Option<Event>
    ensures value { Shows event_of result (inject_of (left words.entry)) }
    ensures fits { IfSome result (λ event. FitsEvent (event_of event)) }
{
    let bytes = some_bytes::<127>(&mut words)?;
    words.end()?;
    Some(Event::Inject { bytes })
}

fn tell(mut words: Words) -> Option<Event>
    ensures value { Shows event_of result (tell_of (left words.entry)) }
    ensures fits { IfSome result (λ event. FitsEvent (event_of event)) }
{
    let name = words.name()?;
    let partner = words.name()?;
    let bytes = words.bytes::<64>()?;
    words.end()?;
    Some(Event::Tell {
        name,
        partner,
        bytes,
    })
}
