//! The frames of a capture file, as a capture.
ghost use Rattle.std.specs.Prelude.{◌≡◌, ◌+◌, ◌≤◌, length, take, drop, map, IfOk};
ghost use Rattle.zb_capture.specs.Grammar.{IsCapture};
ghost use Rattle.zb_pcap.specs.Mac.{IsWithin};
ghost use Rattle.zb_pcap.specs.Extracts.{record_in, verdict, extract_of, extracted, Answers};
ghost use Rattle.zb_base.specs.Limits.{longest_frame, most_frames, most_keys};

use crate::fault::PcapError;
use crate::header::read_header;
use crate::mac::{Mac, classify};
use crate::packets::{Packet, read_packets};
use std::alloc::Global;
use zb_base::{Frame, Key, NoMemory, OrMemory};
use zb_capture::{Capture, Frames};
use zb_cursor::frame_from;

/// The numbers of packets of a file, of all and of some kinds.
#[derive(Clone, Copy, Debug, PartialEq, Eq)]
pub struct Counts {
    /// How many packets there are.
    pub packets: u32,
    /// How many of them have a wrong check sequence.
    pub bad_check: u32,
    /// How many are neither these nor plain data frames.
    pub other: u32,
}

/// What a file gives.
#[derive(Debug, Drop)]
pub struct Extraction {
    /// The capture of its frames.
    pub capture: Capture,
    /// The counts of its packets.
    pub counts: Counts,
}

/// Extracts the frames of a capture file, under some keys.
///
/// There must be at most 256 keys.
///
/// # Errors
///
/// The first fault of the file, or `NoMemory`.
#[tactic(auto, unfolding(crate::specs::Extracts::extracted))]
pub fn extract(alloc: Global, bytes: &[u8], keys: &[Key]) -> Result<Extraction, OrMemory<PcapError>>
    requires { length keys.now ≤ most_keys }
    ensures exact { Answers (λ e. e) result (extracted keys.now bytes.now) }
    ensures valid { IfOk result (λ e. IsCapture e.capture) }
{
    let form = match read_header(bytes) {
        Ok(form) => form,
        Err(cause) => return Err(OrMemory::Fault(PcapError { place: 0, cause })),
    };
    let (_, rest) = bytes.split_at(24);
    let packets = read_packets(alloc, form.order, rest)?;
    let found = sort(alloc, form.check, packets.as_slice(), keys)?;
    Ok(found)
}

/// Keeps the payloads of data frames, and counts the other packets.
fn sort(
    alloc: Global,
    check: bool,
    packets: &[Packet<'_>],
    keys: &[Key],
) -> Result<Extraction, NoMemory>
    requires keys { length keys.now ≤ most_keys }
    requires packets { length packets.now ≤ most_frames }
    ensures value { IfOk result (λ e. e ≡ extract_of keys.now check (map record_in packets.now)) }
    ensures valid { IfOk result (λ e. IsCapture e.capture) }
{
    let mut sorted = Sorted {
        frames: Frames::new(alloc),
        bad_check: 0,
        other: 0,
    };
    for packet in packets {
        sorted.take(check, packet)?;
    }
    let counts = Counts {
        packets: packets.len() as u32,
        bad_check: sorted.bad_check,
        other: sorted.other,
    };
    let capture = Capture::of(alloc, keys, sorted.frames)?;
    Ok(Extraction { capture, counts })
}

/// The frames so far, and the counts of the other packets.
#[derive(Drop)]
struct Sorted {
    frames: Frames,
    bad_check: u32,
    other: u32,
}

impl Sorted {
    ghost use Rattle.std.specs.Prelude.{◌≡◌, ◌+◌, ◌≤◌, ◌++◌, ◌<◌, length, OnOk};
    ghost use Rattle.zb_pcap.specs.Extracts.{record_in, verdict, frames_of, bad_of, other_of};

    /// Adds a packet.
    fn take(&mut self, check: bool, packet: &Packet<'_>) -> Result<(), NoMemory>
        requires room { self.old.bad_check + self.old.other + length self.old.frames < most_frames }
        ensures frames { OnOk result (self.new.frames ≡ self.old.frames ++ frames_of packet.now.bytes.now
            (verdict check (record_in packet.now))) }
        ensures bad_check { OnOk result (self.new.bad_check ≡ self.old.bad_check + bad_of
            (verdict check (record_in packet.now))) }
        ensures other { OnOk result (self.new.other ≡ self.old.other + other_of
            (verdict check (record_in packet.now))) }
        ensures one { OnOk result (self.new.bad_check + self.new.other + length self.new.frames
            ≡ self.old.bad_check + self.old.other + length self.old.frames + 1) }
    {
        match judge(check, packet) {
            Mac::Payload { at, len } => {
                self.frames.push(&frame_at(packet.bytes, at, len))?;
            }
            Mac::BadCheck => self.bad_check += 1,
            Mac::Other => self.other += 1,
        }
        Ok(())
    }
}

/// Finds what a packet is. A packet that was cut isn't checked further.
#[tactic(auto, unfolding(crate::specs::Extracts::verdict))]
fn judge(check: bool, packet: &Packet<'_>) -> Mac
    ensures value { result ≡ verdict check (record_in packet.now) }
    ensures within { IsWithin result (length packet.now.bytes.now) }
{
    if packet.cut {
        Mac::Other
    } else {
        classify(packet.bytes, check)
    }
}

/// Returns the frame of `len` bytes from `at` on.
fn frame_at(bytes: &[u8], at: u32, len: u32) -> Frame
    requires within { at + len ≤ length bytes.now }
    requires fits { len ≤ longest_frame }
    ensures { result.items ≡ take len (drop at bytes.now) }
{
    let (_, rest) = bytes.split_at(at as usize);
    let (payload, _) = rest.split_at(len as usize);
    frame_from(payload)
}
