//! The records of a capture file.
ghost use Rattle.std.specs.Prelude.{◌≡◌, ◌≤◌, ◌<◌, ◌^◌, length, map, IfOk, IfSome, vec_len};
ghost use Rattle.zb_pcap.specs.Files.{record_of, records};
ghost use Rattle.zb_pcap.specs.Extracts.{record_in, Answers, Takes};
ghost use Rattle.zb_base.specs.Limits.{most_frames};

use crate::fault::{PcapCause, PcapError};
use crate::header::{Order, number32};
use std::alloc::Global;
use zb_base::{MOST_FRAMES, OrMemory};

/// The packet of a record.
#[derive(Clone, Copy, Debug, PartialEq, Eq)]
pub(crate) struct Packet<'a> {
    /// Its kept bytes.
    pub bytes: &'a [u8],
    /// Whether more bytes were caught than are kept.
    pub cut: bool,
}

/// Reads records, at most 100,000.
///
/// # Errors
/// The place, from 1, of the first record that isn't whole (`Cut`) or is one too many (`TooMany`); or `NoMemory`.
pub(crate) fn read_packets<'a>(
    alloc: Global,
    order: Order,
    bytes: &'a [u8],
) -> Result<Vec<Packet<'a>>, OrMemory<PcapError>>
    ensures exact { Answers (λ v. map record_in v.items) result (records most_frames 1 order bytes.now) }
    ensures few { IfOk result (λ v. vec_len v ≤ most_frames) }
{
    let mut packets = Vec::new(alloc);
    let mut place: u32 = 1;
    let mut rest = bytes;
    while !rest.is_empty() {
        let (packet, after) = match take_record(order, rest) {
            None => return Err(fault(place, PcapCause::Cut)),
            Some(taken) => taken,
        };
        if packets.len() >= MOST_FRAMES {
            return Err(fault(place, PcapCause::TooMany));
        }
        packets.push(packet)?;
        place += 1;
        rest = after;
    }
    Ok(packets)
}

fn fault(place: u32, cause: PcapCause) -> OrMemory<PcapError>
    ensures { result ≡ OrMemory.Fault (record { place = place; cause = cause }) }
{
    OrMemory::Fault(PcapError { place, cause })
}

/// Returns the packet of the first record and the bytes after it, if the record is whole.
#[tactic(auto, unfolding(crate::specs::Files::record_of))]
fn take_record<'a>(order: Order, bytes: &'a [u8]) -> Option<(Packet<'a>, &'a [u8])>
    ensures value { Takes result (record_of order bytes.now) }
    ensures shorter { IfSome result (λ taken. length taken.1.now < length bytes.now) }
{
    if bytes.len() < 16 {
        return None;
    }
    let kept = number32(order, bytes, 8);
    let (_, rest) = bytes.split_at(16);
    if kept as usize > rest.len() {
        return None;
    }
    let (packet, after) = rest.split_at(kept as usize);
    let cut = number32(order, bytes, 12) != kept;
    Some((Packet { bytes: packet, cut }, after))
}
