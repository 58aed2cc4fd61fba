//! A capture file as it is: its packets, whatever they hold.
ghost use Rattle.std.specs.Prelude.{◌≡◌, map, IfOk};
ghost use Rattle.zb_pcap.specs.Extracts.{record_in, Answers};
ghost use Rattle.zb_pcap.specs.Packets.{cut_of, held, kept_of, pcap_in};

use crate::fault::PcapError;
use crate::header::read_header;
use crate::packets::{Packet, read_packets};
use std::alloc::Global;
use zb_base::{List, NoMemory, OrMemory};

/// What a capture file holds: one packet for each record, in the order of the file.
#[derive(Debug, Drop)]
pub struct Pcap {
    /// Whether packets end with their check sequence.
    pub check: bool,
    /// The kept bytes of each packet.
    pub packets: List<List<u8>>,
    /// For each packet, whether it had more bytes than are kept.
    pub cut: List<bool>,
}

/// Reads a capture file.
///
/// # Errors
///
/// The first fault of the file, or `NoMemory`.
#[tactic(auto, unfolding(crate::specs::Packets::pcap_in))]
pub fn read_pcap(alloc: Global, bytes: &[u8]) -> Result<Pcap, OrMemory<PcapError>>
    ensures { Answers (λ p. p) result (pcap_in bytes.now) }
{
    let form = match read_header(bytes) {
        Ok(form) => form,
        Err(cause) => return Err(OrMemory::Fault(PcapError { place: 0, cause })),
    };
    let (_, rest) = bytes.split_at(24);
    let packets = read_packets(alloc, form.order, rest)?;
    let found = hold(alloc, form.check, packets.as_slice())?;
    Ok(found)
}

/// Keeps packets, and which of them were cut.
fn hold(alloc: Global, check: bool, packets: &[Packet<'_>]) -> Result<Pcap, NoMemory>
    ensures { IfOk result (λ p. p ≡ held check (map record_in packets.now)) }
{
    Ok(Pcap {
        check,
        packets: copies(alloc, packets)?,
        cut: cuts(alloc, packets)?,
    })
}

/// Copies the bytes of packets.
fn copies(alloc: Global, packets: &[Packet<'_>]) -> Result<List<List<u8>>, NoMemory>
    ensures { IfOk result (λ l. l ≡ kept_of (map record_in packets.now)) }
{
    let mut copies = Vec::with_capacity(alloc, packets.len())?;
    for packet in packets {
        copies.push(copy(alloc, packet.bytes)?)?;
    }
    Ok(List::from_vec(copies))
}

/// Copies bytes.
fn copy(alloc: Global, bytes: &[u8]) -> Result<List<u8>, NoMemory>
    ensures { IfOk result (λ l. l ≡ bytes.now) }
{
    Ok(List::from_vec(Vec::from_slice(alloc, bytes)?))
}

/// Returns which packets were cut.
fn cuts(alloc: Global, packets: &[Packet<'_>]) -> Result<List<bool>, NoMemory>
    ensures { IfOk result (λ l. l ≡ cut_of (map record_in packets.now)) }
{
    let mut cuts = Vec::with_capacity(alloc, packets.len())?;
    for packet in packets {
        cuts.push(packet.cut)?;
    }
    Ok(List::from_vec(cuts))
}
