//! The commands of the APS security services: the value, the reader of bytes and the writer.
ghost use Rattle.std.specs.Prelude.{◌≡◌, ◌≢◌, ◌≤◌, ◌<◌, ◌^◌, ◌∷◌, ◌++◌, [], length, IfOk, OnErr, Ok, Err, IsTrue, ◌↔◌, true, false};
ghost use Rattle.zb_cursor.specs.Spelling.{byte, short, eui, key};
ghost use Rattle.zb_cursor.specs.Reading.{Gives};
ghost use Rattle.zb_cursor.specs.Writing.{Appends};
ghost use Rattle.zb_cmd.specs.Spelling.{command};
ghost use Rattle.zb_cmd.specs.Shape.{InRange, IsCommand, IsSmall, is_tunnel, most_bytes};
ghost use Rattle.zb_cmd.specs.declared.fault.CmdError.{CmdError};
ghost use Rattle.zb_cmd.specs.declared.command.Command.{Command};
ghost use Rattle.zb_cmd.specs.Shape.{Spells};
ghost use Rattle.zb_cmd.specs.Reading.{update_at, remove_at, switch_at, verify_at, confirm_at, body_of, command_at, command_of, IsRead};
ghost use Rattle.zb_cmd.specs.Faults.{HasFault};
ghost use Rattle.zb_base.specs.Limits.{longest_frame};

use crate::fault::CmdError;
use crate::request::{put_partner, read_request};
use crate::transport::{put_application, put_link, put_network, read_transport};
use crate::tunnel::{put_tunnel, read_tunnel};
use arrayvec::ArrayVec;
use zb_base::{Eui, Frame, Key, Short};
use zb_cursor::{Reader, TooLong, put, put_byte, put_eui, put_short, read_whole};

/// A command of the APS security services (05-3474-21, 4.4.10), without the APS header that carries it.
#[derive(Debug, Drop, PartialEq, Eq)]
pub enum Command {
    /// Transport-Key (05) of a network key (01).
    TransportNetwork {
        /// The network key.
        key: Key,
        /// The sequence number of the key.
        sequence: u8,
        /// The device that gets the key.
        destination: Eui,
        /// The trust centre that sends it.
        source: Eui,
    },
    /// Transport-Key (05) of an application link key (03).
    TransportApplication {
        /// The application link key.
        key: Key,
        /// The device with which the receiver shares it.
        partner: Eui,
        /// 1 if the receiver asked for the key, else 0.
        initiator: u8,
    },
    /// Transport-Key (05) of a trust centre link key (04).
    TransportLink {
        /// The trust centre link key.
        key: Key,
        /// The device that gets the key.
        destination: Eui,
        /// The trust centre that sends it.
        source: Eui,
    },
    /// Update-Device (06).
    Update {
        /// The device whose state changed.
        device: Eui,
        /// The short address of the device.
        short: Short,
        /// What it did: a secured rejoin (00), an unsecured join (01), a leave (02), a trust centre rejoin (03).
        status: u8,
    },
    /// Remove-Device (07).
    Remove {
        /// The device that is to leave.
        target: Eui,
    },
    /// Request-Key (08) of an application link key (02) with a partner.
    RequestApplication {
        /// The device with which the key will be shared.
        partner: Eui,
    },
    /// Request-Key (08) of the trust centre link key (04).
    RequestLink,
    /// Switch-Key (09).
    Switch {
        /// The sequence number of the network key that is used from now on.
        sequence: u8,
    },
    /// Tunnel (0E).
    Tunnel {
        /// The device that gets the frame.
        destination: Eui,
        /// The sealed frame, which `inner_ok` accepts.
        inner: Frame,
    },
    /// Verify-Key (0F).
    Verify {
        /// The key type of the key that the device proves it knows, as in Transport-Key.
        kind: u8,
        /// The device that proves it.
        source: Eui,
        /// The keyed hash of 03 under the key.
        hash: [u8; 16],
    },
    /// Confirm-Key (10).
    Confirm {
        /// 00 if the key is verified, else the reason why it isn't.
        status: u8,
        /// The key type of the key, as in Verify-Key.
        kind: u8,
        /// The device that gets the answer.
        destination: Eui,
    },
}

#[tactic(auto, unfolding(crate::specs::Reading::update_at))]
fn read_update(reader: &mut Reader<CmdError>) -> Result<Command, CmdError>
    ensures read { IsRead update_at (6 ∷ []) reader.old.cut reader.old.rest.now reader.new.rest.now result }
    ensures cut { reader.new.cut ≡ reader.old.cut }
{
    let device = reader.eui()?;
    let short = reader.short()?;
    let status = reader.byte()?;
    Ok(Command::Update {
        device,
        short,
        status,
    })
}

#[tactic(auto, unfolding(crate::specs::Reading::remove_at))]
fn read_remove(reader: &mut Reader<CmdError>) -> Result<Command, CmdError>
    ensures read { IsRead remove_at (7 ∷ []) reader.old.cut reader.old.rest.now reader.new.rest.now result }
    ensures cut { reader.new.cut ≡ reader.old.cut }
{
    let target = reader.eui()?;
    Ok(Command::Remove { target })
}

#[tactic(auto, unfolding(crate::specs::Reading::switch_at))]
fn read_switch(reader: &mut Reader<CmdError>) -> Result<Command, CmdError>
    ensures read { IsRead switch_at (9 ∷ []) reader.old.cut reader.old.rest.now reader.new.rest.now result }
    ensures cut { reader.new.cut ≡ reader.old.cut }
{
    let sequence = reader.byte()?;
    Ok(Command::Switch { sequence })
}

#[tactic(auto, unfolding(crate::specs::Reading::verify_at))]
fn read_verify(reader: &mut Reader<CmdError>) -> Result<Command, CmdError>
    ensures read { IsRead verify_at (15 ∷ []) reader.old.cut reader.old.rest.now reader.new.rest.now result }
    ensures cut { reader.new.cut ≡ reader.old.cut }
{
    let kind = reader.byte()?;
    let source = reader.eui()?;
    let front = reader.bytes(16)?;
    let mut hash = [0; 16];
    hash.copy_from_slice(front);
    Ok(Command::Verify { kind, source, hash })
}

#[tactic(auto, unfolding(crate::specs::Reading::confirm_at))]
fn read_confirm(reader: &mut Reader<CmdError>) -> Result<Command, CmdError>
    ensures read { IsRead confirm_at (16 ∷ []) reader.old.cut reader.old.rest.now reader.new.rest.now result }
    ensures cut { reader.new.cut ≡ reader.old.cut }
{
    let status = reader.byte()?;
    let kind = reader.byte()?;
    let destination = reader.eui()?;
    Ok(Command::Confirm {
        status,
        kind,
        destination,
    })
}

/// Reads the bytes after the identifier.
#[tactic(auto, unfolding(crate::specs::Reading::body_of))]
fn read_body(reader: &mut Reader<CmdError>, id: u8) -> Result<Command, CmdError>
    ensures read { IsRead (body_of id) (id ∷ []) reader.old.cut reader.old.rest.now reader.new.rest.now result }
    ensures cut { reader.new.cut ≡ reader.old.cut }
{
    match id {
        5 => read_transport(reader),
        6 => read_update(reader),
        7 => read_remove(reader),
        8 => read_request(reader),
        9 => read_switch(reader),
        14 => read_tunnel(reader),
        15 => read_verify(reader),
        16 => read_confirm(reader),
        _ => Err(CmdError::Unknown { id }),
    }
}

#[tactic(auto, unfolding(crate::specs::Reading::command_at))]
fn read_front(reader: &mut Reader<CmdError>) -> Result<Command, CmdError>
    ensures read { IsRead command_at [] reader.old.cut reader.old.rest.now reader.new.rest.now result }
    ensures cut { reader.new.cut ≡ reader.old.cut }
{
    let id = reader.byte()?;
    let command = read_body(reader, id)?;
    Ok(command)
}

/// Reads a command that must take all of the bytes. Requires fewer than 2^32 bytes.
///
/// # Errors
///
/// The first fault of the bytes, if they aren't a command.
pub fn read_command(bytes: &[u8]) -> Result<Command, CmdError>
    requires { length bytes.now < 2 ^ 32 }
    // A command that is read has these bytes as its spelling, and a spelled command is read.
    ensures found { IfOk result (λ c. Spells bytes.now c) }
    ensures only { (c : Command) → Spells bytes.now c → result ≡ Ok c }
    // The fault, defined by a walk over the fields, and also by the bytes and all possible commands.
    ensures exact { result ≡ command_of bytes.now }
    ensures fault { (e : CmdError) → (result ≡ Err e) ↔ HasFault bytes.now e }
{
    let cut = CmdError::Short {
        at: bytes.len() as u32,
    };
    read_whole(bytes, cut, read_front, |count| CmdError::Trailing { count })
}

fn put_update(out: &mut Frame, device: Eui, address: Short, status: u8) -> Result<(), TooLong>
    ensures { Appends out.old.items (6 ∷ (eui device ++ short address ++ byte status)) out.new.items result }
{
    put_byte(out, 6)?;
    put_eui(out, device)?;
    put_short(out, address)?;
    put_byte(out, status)?;
    Ok(())
}

fn put_verify(out: &mut Frame, kind: u8, source: Eui, hash: &[u8; 16]) -> Result<(), TooLong>
    ensures { Appends out.old.items (15 ∷ (byte kind ++ eui source ++ hash.now)) out.new.items result }
{
    put(out, &[15, kind])?;
    put_eui(out, source)?;
    put(out, hash)?;
    Ok(())
}

fn put_confirm(out: &mut Frame, status: u8, kind: u8, destination: Eui) -> Result<(), TooLong>
    ensures { Appends out.old.items (16 ∷ (byte status ++ byte kind ++ eui destination)) out.new.items result }
{
    put(out, &[16, status, kind])?;
    put_eui(out, destination)?;
    Ok(())
}

fn put_target(out: &mut Frame, target: Eui) -> Result<(), TooLong>
    ensures { Appends out.old.items (7 ∷ eui target) out.new.items result }
{
    put_byte(out, 7)?;
    put_eui(out, target)?;
    Ok(())
}

fn put_command(out: &mut Frame, value: &Command) -> Result<(), TooLong>
    ensures { Appends out.old.items (command value.now) out.new.items result }
{
    match value {
        Command::TransportNetwork {
            key,
            sequence,
            destination,
            source,
        } => put_network(out, key, *sequence, *destination, *source)?,
        Command::TransportApplication {
            key,
            partner,
            initiator,
        } => put_application(out, key, *partner, *initiator)?,
        Command::TransportLink {
            key,
            destination,
            source,
        } => put_link(out, key, *destination, *source)?,
        Command::Update {
            device,
            short,
            status,
        } => put_update(out, *device, *short, *status)?,
        Command::Remove { target } => put_target(out, *target)?,
        Command::RequestApplication { partner } => put_partner(out, *partner)?,
        Command::RequestLink => put(out, &[8, 4])?,
        Command::Switch { sequence } => put(out, &[9, *sequence])?,
        Command::Tunnel { destination, inner } => put_tunnel(out, *destination, inner)?,
        Command::Verify { kind, source, hash } => put_verify(out, *kind, *source, hash)?,
        Command::Confirm {
            status,
            kind,
            destination,
        } => put_confirm(out, *status, *kind, *destination)?,
    }
    Ok(())
}

// States for the proofs that a command other than a Tunnel has at most 35 bytes.
fn known_length(value: &Command)
    ensures { is_tunnel value.now ≡ false → length (command value.now) ≤ most_bytes }
{
    match value {
        Command::TransportNetwork { key, .. } => known_key(key),
        Command::TransportApplication { key, .. } => known_key(key),
        Command::TransportLink { key, .. } => known_key(key),
        Command::Update { .. } => {}
        Command::Remove { .. } => {}
        Command::RequestApplication { .. } => {}
        Command::RequestLink => {}
        Command::Switch { .. } => {}
        Command::Tunnel { .. } => {}
        Command::Verify { hash, .. } => known_hash(hash),
        Command::Confirm { .. } => {}
    }
}

// States for the proofs that a key has 16 bytes.
fn known_key(key: &Key)
    ensures { length key.now.0 ≡ 16 }
{
    let _bytes = key.0;
}

// States for the proofs that a hash has 16 bytes.
fn known_hash(hash: &[u8; 16])
    ensures { length hash.now ≡ 16 }
{
    let _bytes = *hash;
}

/// Writes the one spelling of a command. Requires that `inner_ok` accepts the frame in a Tunnel.
///
/// # Errors
///
/// `TooLong` if the spelling has more than 127 bytes, which only that of a Tunnel can have.
pub fn write_command(value: &Command) -> Result<Frame, TooLong>
    requires { IsCommand value.now }
    ensures text { IfOk result (λ bytes. bytes.items ≡ command value.now) }
    ensures fits { IfOk result (λ bytes. length (command value.now) ≤ longest_frame) }
    ensures long { OnErr result (longest_frame < length (command value.now)) }
    ensures short { is_tunnel value.now ≡ false → length (command value.now) ≤ most_bytes }
{
    known_length(value);
    let mut out = ArrayVec::new();
    put_command(&mut out, value)?;
    Ok(out)
}
