//! The rounds in which the frames of a capture are opened.
ghost use Rattle.std.specs.Prelude.{◌≡◌, ◌+◌, ◌≤◌, ◌<◌, ◌^◌, length, take, IfOk};
ghost use Rattle.std.specs.Int.{div_ceil};
ghost use Rattle.std.specs.List.{AllByRecursion, AllZip};
ghost use Rattle.zb_inspect.specs.Pieces.{AreSized, all_blocks, all_leads, AllSee, AreShown, IsCut, IsNextPiece, IsWithin};
ghost use Rattle.zb_inspect.specs.Rings.{keys_of, learnt, ring_of, IsRing, most_ring_keys};
ghost use Rattle.zb_capture.specs.Grammar.{IsCapture};
ghost use Rattle.zb_base.specs.Limits.{most_frames};

use crate::cut::cut;
use crate::key_ring::{KeyRing, Ring, given_ring, learn};
use crate::piece::{Piece, look};
use std::alloc::Global;
use std::thread::{Threads, map_vec};
use zb_base::NoMemory;
use zb_capture::{Capture, Frames};
use zb_inspect_frame::Addresses;
use zb_parallel::{Gate, IdleThread, gather};
use zb_seal::SealingKeys;

/// The ring of a capture, and what the frames of the capture show under it.
#[derive(Drop)]
pub struct Opened {
    /// The ring.
    pub ring: Ring,
    /// All frames, in consecutive pieces.
    pub pieces: Vec<Piece>,
}

/// Finds the ring of a capture, and what its frames show under it, with `jobs` jobs.
///
/// In each round only the layers that are still closed are tried, and only under the new keys. Frames with no closed
/// layer are kept as their lines in the report. There must be at least one job.
///
/// # Errors
/// `NoMemory`, if memory runs out.
pub fn open_all<T: Threads + Sync, G: Gate>(
    rt: &T,
    alloc: Global,
    capture: &Capture,
    jobs: u32,
    gate: &G,
) -> Result<Opened, NoMemory>
    requires capture { IsCapture capture.now }
    requires jobs { 1 ≤ jobs }
    ensures ring { IfOk result (λ o. o.ring ≡ ring_of capture.now) }
    ensures rounds { IfOk result (λ o. IsRing capture.now o.ring) }
    ensures few { IfOk result (λ o. length o.ring.keys ≤ most_ring_keys) }
    ensures pieces { IfOk result (λ o. IsCut capture.now o.pieces.items) }
    ensures sized { IfOk result (λ o. AreSized (div_ceil (length capture.now.frames) jobs) 0
        (length capture.now.frames) o.pieces.items) }
    ensures few_pieces { IfOk result (λ o. length o.pieces.items ≤ jobs) }
    ensures shown { IfOk result (λ o. AreShown capture.now.frames capture.now.addrs (keys_of o.ring.keys)
        (all_blocks o.pieces.items)) }
{
    let frames = &capture.frames;
    let addrs = Addresses::new(alloc, capture.addrs.as_slice())?;
    let mut ring = given_ring(alloc, capture.keys.as_slice())?;
    let mut pieces = cut(alloc, frames.len() as u32, jobs)?;
    let mut known: u32 = 0;
    let mut rounds: u32 = 0;
    'rounds: loop {
        let count = ring.len() as u32;
        rounds += 1;
        pieces = look_at_all(
            rt,
            alloc,
            gate,
            frames,
            &addrs,
            ring.sealing_keys(),
            known,
            pieces,
        )?;
        ring = learn_from(ring, rounds, pieces.as_slice())?;
        if ring.len() == count as usize {
            return Ok(Opened {
                ring: Ring {
                    keys: ring.into_keys(),
                    rounds,
                },
                pieces,
            });
        }
        known = count;
    }
}

/// Opens the frames of all pieces under all keys, each piece in its own thread.
fn look_at_all<T: Threads + Sync, G: Gate>(
    rt: &T,
    alloc: Global,
    gate: &G,
    frames: &Frames,
    addrs: &Addresses<'_>,
    keys: &[SealingKeys],
    known: u32,
    pieces: Vec<Piece>,
) -> Result<Vec<Piece>, NoMemory>
    requires known { known ≤ length keys.now }
    requires keys { length keys.now < 2 ^ 32 }
    requires frames { length frames.now ≤ most_frames }
    requires within { AllByRecursion (λ p. AllByRecursion (IsWithin (length frames.now)) p.blocks.items) pieces.items }
    requires before { AllByRecursion (λ p. AllSee frames.now addrs.now (take known keys.now) p.blocks.items)
        pieces.items }
    ensures { IfOk result (λ v. AllZip (IsNextPiece frames.now addrs.now keys.now) pieces.items v.items) }
{
    let idle = IdleThread::start(rt, pieces.len());
    let looked = map_vec(
        rt,
        pieces,
        &|piece: Piece| -> Result<Piece, NoMemory>
            requires { (known ≤ length keys.now) × (length keys.now < 2 ^ 32) × (length frames.now ≤ most_frames)
                × AllByRecursion (IsWithin (length frames.now)) piece.blocks.items × AllSee frames.now addrs.now
                (take known keys.now) piece.blocks.items }
            ensures { IfOk result (λ p. IsNextPiece frames.entry.now addrs.entry.now keys.entry.now piece p) }
        {
            gate.pass(piece.number);
            look(alloc, frames, addrs, keys, known, piece)
        },
    )?;
    idle.end(rt);
    gather(alloc, looked)
}

/// Adds the keys that a round found in the pieces.
fn learn_from(ring: KeyRing, round: u32, pieces: &[Piece]) -> Result<KeyRing, NoMemory>
    ensures { IfOk result (λ r. r ≡ learnt round ring (all_leads pieces.now)) }
{
    let mut ring = ring;
    for piece in pieces {
        ring = learn(ring, round, piece.leads.as_slice())?;
    }
    Ok(ring)
}
