//! Transport-Key (05-3474-21, 4.4.10.1): a network key, an application link key or a trust centre link key.
ghost use Rattle.std.specs.Prelude.{◌≡◌, ◌≢◌, ◌≤◌, ◌<◌, ◌^◌, ◌∷◌, ◌++◌, [], length, IfOk, OnErr, Ok, Err, IsTrue, ◌↔◌, true};
ghost use Rattle.zb_cursor.specs.Spelling.{byte, short, eui, key};
ghost use Rattle.zb_cursor.specs.Reading.{Gives};
ghost use Rattle.zb_cursor.specs.Writing.{Appends};
ghost use Rattle.zb_cmd.specs.Spelling.{command};
ghost use Rattle.zb_cmd.specs.Shape.{InRange, IsCommand, IsSmall};
ghost use Rattle.zb_cmd.specs.Reading.{network_at, application_at, link_at, transport_of, transport_at, IsRead};

use crate::command::Command;
use crate::fault::CmdError;
use zb_base::{Eui, Frame, Key};
use zb_cursor::{Reader, TooLong, put, put_byte, put_eui, put_key};

#[tactic(auto, unfolding(crate::specs::Reading::network_at))]
fn read_network(reader: &mut Reader<CmdError>) -> Result<Command, CmdError>
    ensures read { IsRead network_at (5 ∷ 1 ∷ []) reader.old.cut reader.old.rest.now reader.new.rest.now result }
    ensures cut { reader.new.cut ≡ reader.old.cut }
{
    let key = reader.key()?;
    let sequence = reader.byte()?;
    let destination = reader.eui()?;
    let source = reader.eui()?;
    Ok(Command::TransportNetwork {
        key,
        sequence,
        destination,
        source,
    })
}

#[tactic(auto, unfolding(crate::specs::Reading::application_at))]
fn read_application(reader: &mut Reader<CmdError>) -> Result<Command, CmdError>
    ensures read { IsRead application_at (5 ∷ 3 ∷ []) reader.old.cut reader.old.rest.now reader.new.rest.now result }
    ensures cut { reader.new.cut ≡ reader.old.cut }
{
    let key = reader.key()?;
    let partner = reader.eui()?;
    let initiator = reader.byte()?;
    Ok(Command::TransportApplication {
        key,
        partner,
        initiator,
    })
}

#[tactic(auto, unfolding(crate::specs::Reading::link_at))]
fn read_link(reader: &mut Reader<CmdError>) -> Result<Command, CmdError>
    ensures read { IsRead link_at (5 ∷ 4 ∷ []) reader.old.cut reader.old.rest.now reader.new.rest.now result }
    ensures cut { reader.new.cut ≡ reader.old.cut }
{
    let key = reader.key()?;
    let destination = reader.eui()?;
    let source = reader.eui()?;
    Ok(Command::TransportLink {
        key,
        destination,
        source,
    })
}

#[tactic(auto, unfolding(crate::specs::Reading::transport_of))]
fn read_of_kind(reader: &mut Reader<CmdError>, kind: u8) -> Result<Command, CmdError>
    ensures read { IsRead (transport_of kind) (5 ∷ kind ∷ []) reader.old.cut reader.old.rest.now reader.new.rest.now
        result }
    ensures cut { reader.new.cut ≡ reader.old.cut }
{
    match kind {
        1 => read_network(reader),
        3 => read_application(reader),
        4 => read_link(reader),
        _ => Err(CmdError::KeyType { found: kind }),
    }
}

#[tactic(auto, unfolding(crate::specs::Reading::transport_at))]
pub(crate) fn read_transport(reader: &mut Reader<CmdError>) -> Result<Command, CmdError>
    ensures read { IsRead transport_at (5 ∷ []) reader.old.cut reader.old.rest.now reader.new.rest.now result }
    ensures cut { reader.new.cut ≡ reader.old.cut }
{
    let kind = reader.byte()?;
    let command = read_of_kind(reader, kind)?;
    Ok(command)
}

pub(crate) fn put_network(
    out: &mut Frame,
    value: &Key,
    sequence: u8,
    destination: Eui,
    source: Eui,
) -> Result<(), TooLong>
    ensures { Appends out.old.items (5 ∷ 1 ∷ (key value.now ++ byte sequence ++ eui destination ++ eui source))
        out.new.items result }
{
    put(out, &[5, 1])?;
    put_key(out, value)?;
    put_byte(out, sequence)?;
    put_eui(out, destination)?;
    put_eui(out, source)?;
    Ok(())
}

pub(crate) fn put_application(
    out: &mut Frame,
    value: &Key,
    partner: Eui,
    initiator: u8,
) -> Result<(), TooLong>
    ensures { Appends out.old.items (5 ∷ 3 ∷ (key value.now ++ eui partner ++ byte initiator))
        out.new.items result }
{
    put(out, &[5, 3])?;
    put_key(out, value)?;
    put_eui(out, partner)?;
    put_byte(out, initiator)?;
    Ok(())
}

pub(crate) fn put_link(
    out: &mut Frame,
    value: &Key,
    destination: Eui,
    source: Eui,
) -> Result<(), TooLong>
    ensures { Appends out.old.items (5 ∷ 4 ∷ (key value.now ++ eui destination ++ eui source))
        out.new.items result }
{
    put(out, &[5, 4])?;
    put_key(out, value)?;
    put_eui(out, destination)?;
    put_eui(out, source)?;
    Ok(())
}
