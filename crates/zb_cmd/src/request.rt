//! Request-Key (05-3474-21, 4.4.10.4): an application link key with a partner, or the trust centre link key.
ghost use Rattle.std.specs.Prelude.{◌≡◌, ◌≢◌, ◌≤◌, ◌<◌, ◌^◌, ◌∷◌, ◌++◌, [], length, IfOk, OnErr, Ok, Err, IsTrue, ◌↔◌, true};
ghost use Rattle.zb_cursor.specs.Spelling.{byte, short, eui, key};
ghost use Rattle.zb_cursor.specs.Reading.{Gives};
ghost use Rattle.zb_cursor.specs.Writing.{Appends};
ghost use Rattle.zb_cmd.specs.Spelling.{command};
ghost use Rattle.zb_cmd.specs.Shape.{InRange, IsCommand, IsSmall};
ghost use Rattle.zb_cmd.specs.Reading.{partner_at, request_of, request_at, IsRead};

use crate::command::Command;
use crate::fault::CmdError;
use zb_base::{Eui, Frame};
use zb_cursor::{Reader, TooLong, put, put_eui};

#[tactic(auto, unfolding(crate::specs::Reading::partner_at))]
fn read_partner(reader: &mut Reader<CmdError>) -> Result<Command, CmdError>
    ensures read { IsRead partner_at (8 ∷ 2 ∷ []) reader.old.cut reader.old.rest.now reader.new.rest.now result }
    ensures cut { reader.new.cut ≡ reader.old.cut }
{
    let partner = reader.eui()?;
    Ok(Command::RequestApplication { partner })
}

#[tactic(auto, unfolding(crate::specs::Reading::request_of))]
fn read_of_kind(reader: &mut Reader<CmdError>, kind: u8) -> Result<Command, CmdError>
    ensures read { IsRead (request_of kind) (8 ∷ kind ∷ []) reader.old.cut reader.old.rest.now reader.new.rest.now
        result }
    ensures cut { reader.new.cut ≡ reader.old.cut }
{
    match kind {
        2 => read_partner(reader),
        4 => Ok(Command::RequestLink),
        _ => Err(CmdError::KeyType { found: kind }),
    }
}

#[tactic(auto, unfolding(crate::specs::Reading::request_at))]
pub(crate) fn read_request(reader: &mut Reader<CmdError>) -> Result<Command, CmdError>
    ensures read { IsRead request_at (8 ∷ []) reader.old.cut reader.old.rest.now reader.new.rest.now result }
    ensures cut { reader.new.cut ≡ reader.old.cut }
{
    let kind = reader.byte()?;
    let command = read_of_kind(reader, kind)?;
    Ok(command)
}

pub(crate) fn put_partner(out: &mut Frame, partner: Eui) -> Result<(), TooLong>
    ensures { Appends out.old.items (8 ∷ 2 ∷ eui partner) out.new.items result }
{
    put(out, &[8, 2])?;
    put_eui(out, partner)?;
    Ok(())
}
