//! What the layers of an accepted frame bring: a NWK command, or the command or data of an APS part.
ghost use Rattle.std.specs.Prelude.{◌≡◌, ◌<◌, ◌^◌, Err, IfOk, IfSome, List, Ok, Option, length, option_map};
ghost use Rattle.zb_aps.specs.Reading.{frame_of};
ghost use Rattle.zb_aps.specs.Shape.{Spells};
ghost use Rattle.zb_base.specs.declared.place.Place.TheVariants.{Aps, Nwk};
ghost use Rattle.zb_delivery.specs.Receiving.{IsFitting, brought, brought_plan, content_plan, no_command, no_leave, nwk_plan};
ghost use Rattle.zb_model.specs.Answer.{net_part};
ghost use Rattle.zb_model.specs.Commands.{Heard as Hearing};
ghost use Rattle.zb_model.specs.Data.{Bytes, Term as Sealed};
ghost use Rattle.zb_model.specs.Judging.{payload_of};
ghost use Rattle.zb_model.specs.Rules.{Setting};
ghost use Rattle.zb_model.specs.State.{NodeState};
ghost use Rattle.zb_model_real.specs.Readers.{aps_frame_shown, command_shown, leave_shown, nwk_frame_shown};
ghost use Rattle.zb_model_real.specs.Real.{real};
ghost use Rattle.zb_model_real.specs.Terms.{model_term};
ghost use Rattle.zb_node_types.specs.Changes.{place_of, reason};

use crate::received::Content;
use zb_aps::ApsFrame;
use zb_base::{Eui, Place};
use zb_cmd::{CmdError, read_command, read_leave};
use zb_node_types::Refusal;
use zb_nwk::NwkFrame;
use zb_seal::{Term, is_command};

/// Returns why content that is no Leave isn't taken: it is another command, or none.
fn no_leave(fault: CmdError) -> Refusal
    ensures reason { reason result ≡ no_leave (leave_shown (Err fault)) }
    ensures place { place_of result ≡ Nwk }
{
    match fault {
        CmdError::Unknown { .. } => Refusal::Policy { place: Place::Nwk },
        CmdError::KeyType { .. } => Refusal::Malformed { place: Place::Nwk },
        CmdError::Short { .. } => Refusal::Malformed { place: Place::Nwk },
        CmdError::Trailing { .. } => Refusal::Malformed { place: Place::Nwk },
    }
}

/// Reads the Leave of a NWK command, if the frame brings a NWK command: its sender and its options.
///
/// # Errors
/// Policy for another NWK command; malformed if the content is no command.
pub(crate) fn read_nwk_command(
    frame: &NwkFrame,
    nwk: &Option<Term>,
) -> Result<Option<(Eui, u8)>, Refusal>
    ensures { (c : Setting) (s : NodeState) (d : Option Bytes) → nwk_plan c s d (nwk_frame_shown frame.now)
        (option_map model_term nwk.now) result
        ≡ net_part real c s d (nwk_frame_shown frame.now) (option_map model_term nwk.now) }
{
    match nwk {
        None => Ok(None),
        Some(term) => {
            if is_command(frame.header.control) {
                match read_leave(term.content.as_slice()) {
                    Ok(leave) => Ok(Some((term.source, leave.options))),
                    Err(fault) => Err(no_leave(fault)),
                }
            } else {
                Ok(None)
            }
        }
    }
}

/// Returns the payload of a frame: what its term opens to, or what is there in clear.
pub(crate) fn payload_of<'a>(frame: &'a NwkFrame, nwk: &'a Option<Term>) -> &'a [u8]
    ensures { result.now ≡ payload_of (nwk_frame_shown frame.now) (option_map model_term nwk.now) }
{
    match nwk {
        Some(opened) => opened.content.as_slice(),
        None => frame.body.as_slice(),
    }
}

/// Reads an APS frame into the place of one, if the bytes are one.
#[tactic(auto, unfolding(zb_model_real::specs::Real::real))]
pub(crate) fn read_part(bytes: &[u8], part: &mut ApsFrame) -> Option<()>
    ensures shown { option_map (λ _. aps_frame_shown part.new) result ≡ real.read_aps bytes.now }
    ensures read { IfSome result (λ _. frame_of bytes.now ≡ Ok part.new) }
    ensures spells { IfSome result (λ _. Spells bytes.now part.new) }
{
    match zb_aps::read_into(bytes, part) {
        Ok(()) => Some(()),
        Err(_) => None,
    }
}

/// Returns whether an APS frame has a command.
fn has_command(part: &ApsFrame) -> bool
    ensures { result ≡ (aps_frame_shown part.now).is_command }
{
    is_command(u16::from(part.header.control))
}

/// Returns what an APS part brings: what its term opens to, or what is there in clear.
fn bytes_of<'a>(part: &'a ApsFrame, aps: &'a Option<Term>) -> &'a [u8]
    ensures bytes { result.now ≡ brought part.now aps.now }
    ensures short { length result.now < 2 ^ 32 }
{
    match aps {
        Some(term) => term.content.as_slice(),
        None => part.body.as_slice(),
    }
}

/// Returns why bytes that are no command aren't taken: they are another one, or none.
fn no_command(fault: CmdError) -> Refusal
    ensures reason { reason result ≡ no_command (command_shown (Err fault)) }
    ensures place { place_of result ≡ Aps }
{
    match fault {
        CmdError::Unknown { .. } => Refusal::Policy { place: Place::Aps },
        CmdError::KeyType { .. } => Refusal::Policy { place: Place::Aps },
        CmdError::Short { .. } => Refusal::Malformed { place: Place::Aps },
        CmdError::Trailing { .. } => Refusal::Malformed { place: Place::Aps },
    }
}

/// Reads what an accepted APS part brings: a command, or data.
///
/// # Errors
/// Policy for an unknown identifier or key type; malformed if the bytes are no command.
pub(crate) fn read_content(part: &ApsFrame, aps: &Option<Term>) -> Result<Content, Refusal>
    ensures plan { (c : Setting) (s : NodeState) (d : Option Bytes) (accepts : List Sealed) (m : Hearing)
        → content_plan c s d accepts m result
        ≡ brought_plan c s d accepts m (aps_frame_shown part.now).is_command (brought part.now aps.now) }
    ensures fits { IfOk result IsFitting }
{
    if has_command(part) {
        match read_command(bytes_of(part, aps)) {
            Ok(command) => Ok(Content::Command(command)),
            Err(fault) => Err(no_command(fault)),
        }
    } else {
        Ok(Content::Data)
    }
}
