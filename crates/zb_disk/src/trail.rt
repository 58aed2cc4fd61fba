//! A disk in memory that keeps each write and sync, and so describes its past moments.
ghost use Rattle.std.specs.Prelude.{◌≡◌, ◌+◌, ◌≤◌, ◌<◌, ◌^◌, ◌&&◌, ◌++◌, length, IfOk, OnOk, is_err, false, not, nat_lt, nat_le, vec_capacity};
ghost use Rattle.zb_disk.specs.View.{window};
ghost use Rattle.zb_disk.specs.Calls.{IsRead, IsWrite, IsSync};
ghost use Rattle.zb_disk.specs.Trail.{replayed, has_room, refused, kept_write, kept_sync, fresh_trail, after_write, after_sync, trail_tells, trail_view};
ghost use Rattle.zb_disk.specs.TrailLaws.{left_now, trail_counts_now, trail_only_now};
ghost use Rattle.zb_base.specs.Sizes.{disk_size};

use crate::Disk;
use crate::flags::put;
use crate::memory::copy_window;
use std::alloc::Global;
use std::marker::Model;
use zb_base::{Failed, NoMemory};

/// A call that succeeded.
#[derive(Clone, Copy, Debug, PartialEq, Eq)]
pub(crate) enum Logged {
    /// A write at a place, of `len` bytes.
    Wrote { at: usize, len: usize },
    /// A sync.
    Synced,
}

/// Stores its bytes in memory, and keeps each write and sync, so that it describes its past moments.
///
/// Its memory is allocated when it is made. A call for which there is no room is refused and changes nothing.
#[derive(Drop)]
pub struct TrailDisk {
    bytes: Vec<u8>,
    // The bytes at first, each call since, and the bytes of all writes one after the other.
    start: Vec<u8>,
    log: Vec<Logged>,
    pool: Vec<u8>,
    calls_room: u32,
    bytes_room: u32,
    calls: u64,
    faults: u64,
}

impl Model for TrailDisk {
    ghost use Rattle.zb_disk.specs.Trail.{Trail};

    ghost Value = { Trail };

    ghost use Rattle.zb_disk.specs.TrailInside.{trail_of, IsTrail};

    ghost view = { trail_of };

    ghost invariant = { IsTrail };
}

impl TrailDisk {
    /// Makes a disk of these bytes, with room for `calls` calls and `room` written bytes. There must be at most
    /// 131,072 bytes.
    ///
    /// # Errors
    /// `NoMemory`, if memory runs out.
    pub fn new(alloc: Global, bytes: &[u8], calls: u32, room: u32) -> Result<TrailDisk, NoMemory>
        requires { length bytes.now ≤ disk_size }
        ensures { IfOk result (λ d. d ≡ fresh_trail bytes.now calls room) }
    {
        let mut content = Vec::with_capacity(alloc, 131_072)?;
        content.extend_from_slice(bytes)?;
        Ok(TrailDisk {
            bytes: content,
            start: Vec::from_slice(alloc, bytes)?,
            log: Vec::with_capacity(alloc, calls as usize)?,
            pool: Vec::with_capacity(alloc, room as usize)?,
            calls_room: calls,
            bytes_room: room,
            calls: 0,
            faults: 0,
        })
    }

    /// Returns the bytes that are read.
    pub fn bytes(&self) -> &[u8]
        ensures { result.now ≡ replayed self.now.start self.now.steps }
    {
        self.bytes.as_slice()
    }

    // Counts a call that is refused.
    #[tactic(auto, unfolding(crate::specs::Trail::refused))]
    fn refuse(&mut self)
        ensures after { self.new ≡ refused self.old }
        ensures later { self.old.faults ≤ self.new.faults }
    {
        self.calls = self.calls.saturating_add(1);
        self.faults = self.faults.saturating_add(1);
    }

    // Returns whether there is room for one more call, which writes `len` bytes.
    fn has_room(&self, len: usize) -> bool
        requires { len ≤ disk_size }
        ensures { result ≡ has_room self.now len }
    {
        fits(
            self.log.len(),
            self.calls_room,
            self.pool.len(),
            len,
            self.bytes_room,
        )
    }

    // Writes a piece. There must be room for it.
    #[tactic(auto, unfolding(crate::specs::Trail::kept_write))]
    fn keep_write(&mut self, start: usize, piece: &[u8])
        requires fits { start + length piece.now ≤ disk_size }
        requires calls { length self.old.steps < self.old.calls_room }
        requires bytes { self.old.taken + length piece.now ≤ self.old.bytes_room }
        ensures { self.new ≡ kept_write self.old start piece.now }
    {
        self.calls = self.calls.saturating_add(1);
        append(&mut self.pool, piece);
        self.log.push_reserved(Logged::Wrote {
            at: start,
            len: piece.len(),
        });
        put(&mut self.bytes, start, piece);
    }

    // Keeps a sync. There must be room for it.
    #[tactic(auto, unfolding(crate::specs::Trail::kept_sync))]
    fn keep_sync(&mut self)
        requires calls { length self.old.steps < self.old.calls_room }
        ensures { self.new ≡ kept_sync self.old }
    {
        self.calls = self.calls.saturating_add(1);
        self.log.push_reserved(Logged::Synced);
    }
}

impl Disk for TrailDisk {
    ghost tells = { trail_tells };

    ghost state = { trail_view };

    ghost reads_image = { λ t told. left_now t.start t.steps };

    ghost counts_now = { trail_counts_now };

    ghost only_now = { trail_only_now };

    // It never fails, and changes nothing.
    fn size(&mut self) -> Result<u64, Failed>
        ensures size { IfOk result (λ n. n ≡ length (replayed self.old.start self.old.steps)) }
        ensures read { IsRead trail_tells (trail_view self.old) (trail_view self.new) result }
        ensures went { is_err result ≡ false }
        ensures after { self.new ≡ self.old }
    {
        Ok(self.bytes.len() as u64)
    }

    // It never fails, and changes nothing.
    fn read(&mut self, at: u64, buf: &mut [u8]) -> Result<(), Failed>
        ensures bytes { OnOk result
            (buf.new ≡ window (replayed self.old.start self.old.steps) at (length buf.old)) }
        ensures read { IsRead trail_tells (trail_view self.old) (trail_view self.new) result }
        ensures went { is_err result ≡ false }
        ensures after { self.new ≡ self.old }
    {
        copy_window(&self.bytes, at, buf);
        Ok(())
    }

    // It is refused exactly if there is no room.
    fn write(&mut self, at: u64, bytes: &[u8]) -> Result<(), Failed>
        requires { at + length bytes.now ≤ disk_size }
        ensures write { IsWrite trail_tells at bytes.now (trail_view self.old) (trail_view self.new) result }
        ensures room { is_err result ≡ not (has_room self.old (length bytes.now)) }
        ensures after { self.new ≡ after_write self.old at bytes.now }
    {
        if !self.has_room(bytes.len()) {
            self.refuse();
            return Err(Failed);
        }
        self.keep_write(at as usize, bytes);
        Ok(())
    }

    fn sync(&mut self) -> Result<(), Failed>
        ensures sync { IsSync trail_tells (trail_view self.old) (trail_view self.new) result }
        ensures room { is_err result ≡ not (has_room self.old 0) }
        ensures after { self.new ≡ after_sync self.old }
    {
        if !self.has_room(0) {
            self.refuse();
            return Err(Failed);
        }
        self.keep_sync();
        Ok(())
    }
}

// Returns whether one more call and its bytes fit.
fn fits(calls: usize, calls_room: u32, taken: usize, len: usize, bytes_room: u32) -> bool
    requires some { taken < 2 ^ 63 }
    requires small { len ≤ disk_size }
    ensures { result ≡ (nat_lt calls calls_room && nat_le (taken + len) bytes_room) }
{
    calls < calls_room as usize && taken + len <= bytes_room as usize
}

// Appends bytes. There must be room for them.
fn append(pool: &mut Vec<u8>, piece: &[u8])
    requires { length pool.old.items + length piece.now ≤ vec_capacity pool.old }
    ensures after { pool.new.items ≡ pool.old.items ++ piece.now }
    ensures room { vec_capacity pool.old ≤ vec_capacity pool.new }
{
    pool.extend_from_slice(piece).unwrap();
}
