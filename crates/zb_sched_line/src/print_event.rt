//! The printed line of an event.

ghost use Rattle.std.specs.Prelude.{◌≡◌, ◌++◌, ◌||◌, OnOk, false};
ghost use Rattle.zb_sched_line.specs.Kinds.{is_of_centre, is_of_network, is_of_one, is_open};
ghost use Rattle.zb_sched_line.specs.Texts.{event_text};
ghost use Rattle.zb_sched_line.specs.Views.{event_of};

use crate::event::Event;
use crate::forge::{Net, Route};
use crate::print::{
    put_child, put_deliver, put_fail, put_inject, put_own, put_pair, put_provision, put_remove,
    put_say, put_stop, put_tell, put_word_line,
};
use crate::print_forged::{put_forge_both, put_forge_net, put_forge_open};
use std::alloc::AllocError;

/// Prints the line of an event.
///
/// # Errors
/// `AllocError`.
pub fn put_event(out: &mut Vec<u8>, event: &Event) -> Result<(), AllocError>
    ensures { OnOk result (out.new.items ≡ out.old.items ++ event_text (event_of event.now)) }
{
    match event {
        Event::Say { name, to, bytes } => put_say(out, name, *to, bytes.as_slice()),
        Event::Deliver { frame, name } => put_deliver(out, *frame, name),
        Event::Timer { name } => put_own(out, b"timer", name),
        Event::Knock { name } => put_own(out, b"knock", name),
        Event::Rejoin { name } => put_own(out, b"rejoin", name),
        Event::Reset { name } => put_own(out, b"reset", name),
        Event::Boot { name } => put_own(out, b"boot", name),
        Event::Dump { name } => put_own(out, b"dump", name),
        Event::Stop { name, calls, torn } => put_stop(out, name, *calls, torn.as_slice()),
        Event::Fail { name, call } => put_fail(out, name, *call),
        _ => put_event_of_centre(out, event),
    }
}

/// Prints the line of an event of the centre or of two nodes, or of an outsider.
fn put_event_of_centre(out: &mut Vec<u8>, event: &Event) -> Result<(), AllocError>
    requires { is_of_one event.now ≡ false }
    ensures { OnOk result (out.new.items ≡ out.old.items ++ event_text (event_of event.now)) }
{
    match event {
        Event::Child {
            parent,
            name,
            rejoin,
        } => put_child(out, parent, name, *rejoin),
        Event::Provision { name, code } => put_provision(out, name, code.bytes()),
        Event::Again { name } => put_own(out, b"again", name),
        Event::Roll => put_word_line(out, b"roll"),
        Event::Switch => put_word_line(out, b"switch"),
        Event::Remove { name, parent } => put_remove(out, name, parent),
        Event::Ask { name, partner } => put_pair(out, b"ask", name, partner),
        Event::Share { name, partner } => put_pair(out, b"share", name, partner),
        Event::Tell {
            name,
            partner,
            bytes,
        } => put_tell(out, name, partner, bytes.as_slice()),
        _ => put_event_of_outsider(out, event),
    }
}

/// Prints the line of bytes that an outsider puts on the air, or of a forged frame.
fn put_event_of_outsider(out: &mut Vec<u8>, event: &Event) -> Result<(), AllocError>
    requires { (is_of_one event.now || is_of_centre event.now) ≡ false }
    ensures { OnOk result (out.new.items ≡ out.old.items ++ event_text (event_of event.now)) }
{
    match event {
        Event::Inject { bytes } => put_inject(out, bytes.as_slice()),
        Event::ForgeOpen {
            to,
            from,
            source,
            label,
            base,
            aps_counter,
            command,
        } => {
            let route = Route::new(*to, *from, *source);
            put_forge_open(out, route, *label, base, *aps_counter, command.as_slice())
        }
        _ => put_secured_forgery(out, event),
    }
}

/// Prints the line of a forged frame that is sealed at the network layer.
fn put_secured_forgery(out: &mut Vec<u8>, event: &Event) -> Result<(), AllocError>
    requires { (is_of_one event.now || (is_of_centre event.now || is_open event.now)) ≡ false }
    ensures { OnOk result (out.new.items ≡ out.old.items ++ event_text (event_of event.now)) }
{
    match event {
        Event::ForgeNet {
            to,
            from,
            source,
            key,
            sequence,
            counter,
            content,
        } => {
            let route = Route::new(*to, *from, *source);
            let net = Net::new(*key, *sequence, *counter);
            put_forge_net(out, route, &net, content.as_slice())
        }
        _ => put_forgery_of_both(out, event),
    }
}

/// Prints the line of a forged frame that is sealed at both layers.
fn put_forgery_of_both(out: &mut Vec<u8>, event: &Event) -> Result<(), AllocError>
    requires { (is_of_one event.now || (is_of_centre event.now || (is_open event.now || is_of_network event.now)))
        ≡ false }
    ensures { OnOk result (out.new.items ≡ out.old.items ++ event_text (event_of event.now)) }
{
    match event {
        Event::ForgeNetAps {
            to,
            from,
            source,
            key,
            sequence,
            counter,
            label,
            base,
            aps_counter,
            command,
        } => {
            let route = Route::new(*to, *from, *source);
            let net = Net::new(*key, *sequence, *counter);
            put_forge_both(
                out,
                route,
                &net,
                *label,
                base,
                *aps_counter,
                command.as_slice(),
            )
        }
        _ => Ok(()),
    }
}
