//! Tunnel (05-3474-21, 4.4.10.6): a sealed APS frame on its way to a device that has no network key yet.
ghost use Rattle.std.specs.Prelude.{◌≡◌, ◌≢◌, ◌≤◌, ◌<◌, ◌^◌, ◌∷◌, ◌++◌, [], length, IfOk, OnErr, Ok, Err, IsTrue, ◌↔◌, true};
ghost use Rattle.zb_cursor.specs.Spelling.{byte, short, eui, key};
ghost use Rattle.zb_cursor.specs.Reading.{Gives};
ghost use Rattle.zb_cursor.specs.Writing.{Appends};
ghost use Rattle.zb_cmd.specs.Spelling.{command};
ghost use Rattle.zb_cmd.specs.Shape.{InRange, IsCommand, IsSmall};
ghost use Rattle.zb_cmd.specs.Shape.{is_inner};
ghost use Rattle.zb_cmd.specs.Reading.{inner_at, tunnel_at, IsRead};
ghost use Rattle.zb_base.specs.Limits.{longest_tunnelled};

use crate::command::Command;
use crate::fault::CmdError;
use zb_base::{Eui, Frame};
use zb_cursor::{Reader, TooLong, frame_from, has_bit, put, put_byte, put_eui};

/// Returns whether a frame may be in a Tunnel.
///
/// It has an APS header of 2 bytes, an auxiliary header of 13 with the extended nonce, and a MIC of 4 after the cipher
/// text. Nothing else in it is checked.
pub fn inner_ok(inner: &Frame) -> bool
    ensures { result ≡ is_inner inner.now.items }
{
    inner.len() >= 19 && has_bit(u16::from(inner[2]), 5)
}

/// Reads the frame in a Tunnel: all remaining bytes, up to the 127th byte of the command.
#[tactic(auto, unfolding(crate::specs::Reading::inner_at))]
fn read_inner(reader: &mut Reader<CmdError>) -> Result<Frame, CmdError>
    ensures exact { Gives result reader.new.rest.now (inner_at reader.old.cut reader.old.rest.now) }
    ensures spelled { IfOk result (λ x. reader.old.rest.now ≡ x.items ++ reader.new.rest.now) }
    ensures shaped { IfOk result (λ x. is_inner x.items ≡ true) }
    ensures small { IfOk result (λ x. length x.items ≤ longest_tunnelled) }
    ensures shorter { length reader.new.rest.now ≤ length reader.old.rest.now }
    ensures cut { reader.new.cut ≡ reader.old.cut }
{
    let count = reader.rest.len().min(118);
    let (front, rest) = reader.rest.split_at(count);
    let inner = frame_from(front);
    if !inner_ok(&inner) {
        return Err(reader.cut);
    }
    reader.rest = rest;
    Ok(inner)
}

#[tactic(auto, unfolding(crate::specs::Reading::tunnel_at))]
pub(crate) fn read_tunnel(reader: &mut Reader<CmdError>) -> Result<Command, CmdError>
    ensures read { IsRead tunnel_at (14 ∷ []) reader.old.cut reader.old.rest.now reader.new.rest.now result }
    ensures cut { reader.new.cut ≡ reader.old.cut }
{
    let destination = reader.eui()?;
    let inner = read_inner(reader)?;
    Ok(Command::Tunnel { destination, inner })
}

pub(crate) fn put_tunnel(out: &mut Frame, destination: Eui, inner: &Frame) -> Result<(), TooLong>
    ensures { Appends out.old.items (14 ∷ (eui destination ++ inner.now.items)) out.new.items result }
{
    put_byte(out, 14)?;
    put_eui(out, destination)?;
    put(out, inner)?;
    Ok(())
}
