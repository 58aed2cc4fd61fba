//! A disk in memory, whose calls can be made to fail and whose writes can be torn.
ghost use Rattle.std.specs.Prelude.{OnOk, get_or, if◌then◌else◌, ◌-◌, replicate, ◌≡◌, ◌+◌, ◌≤◌, ◌<◌, ◌++◌, [], ◌∷◌, ℕ, length, take, IfOk, IsTrue, slice_index, vec_len, vec_capacity};
ghost use Rattle.zb_disk.specs.View.{overwrite, window, Only, IsUnsynced};
ghost use Rattle.zb_base.specs.Outside.{risen};
ghost use Rattle.zb_disk.specs.Calls.{IsRead, IsWrite, IsSync};
ghost use Rattle.zb_disk.specs.Memory.{Medium, patch, refuses, after_call, is_stopped, armed, tear, torn_by, counted, stored, synced, will_refuse, after_read, after_write, after_sync, powered, fresh, memory_tells, memory_view};
ghost use Rattle.zb_disk.specs.MemoryInside.{flags_around, IsBeyond, IsOutside};
ghost use Rattle.zb_disk.specs.MemoryLaws.{image_seen};
ghost use Rattle.zb_base.specs.Sizes.{disk_size};

use crate::Disk;
use crate::flags::{add, overlay, put};
use arrayvec::ArrayVec;
use std::alloc::Global;
use std::marker::Model;
use zb_base::{Failed, NoMemory};

/// The bytes of a disk.
const SIZE: usize = 131_072;

/// Where the second half of a disk begins. A store writes at the start of each half.
const MIDDLE: usize = 65_536;

/// Which calls a disk in memory will refuse.
#[derive(Clone, Copy, Debug, PartialEq, Eq)]
pub enum Arming {
    /// Refuses none.
    Unarmed,
    /// Refuses one write or sync after some that succeed, and every call after it.
    Stop {
        /// How many writes and syncs succeed first.
        calls: u8,
    },
    /// Refuses only one write or sync.
    Fail {
        /// Its number, counted from 1; no call has the number 0.
        call: u8,
    },
    /// Refuses every call until the power comes back.
    Stopped,
}

// Counts one write or sync, and returns whether it is refused.
fn is_refused(arming: &mut Arming) -> bool
    ensures refused { result ≡ refuses arming.old 0 }
    ensures after { arming.new ≡ after_call arming.old }
{
    match *arming {
        Arming::Unarmed => false,
        Arming::Stop { calls: 0 } => {
            *arming = Arming::Stopped;
            true
        }
        Arming::Stop { calls } => {
            *arming = Arming::Stop { calls: calls - 1 };
            false
        }
        Arming::Fail { call } => {
            *arming = Arming::Fail {
                call: call.saturating_sub(1),
            };
            call == 1
        }
        Arming::Stopped => true,
    }
}

// Arms a disk that isn't stopped.
fn arm(arming: &mut Arming, next: Arming)
    ensures { arming.new ≡ armed arming.old next }
{
    if *arming != Arming::Stopped {
        *arming = next;
    }
}

// How much of a disk was written since it was renewed. Each byte before `low`, and each from the middle up to `high`,
// may be any. All others are 00.
#[derive(Clone, Copy)]
struct Extent {
    low: usize,
    high: usize,
}

impl Extent {
    // Includes a written range, from `start` up to `end`, which is excluded.
    fn include(&mut self, start: usize, end: usize)
        ensures { (k : ℕ) → IsBeyond self.new k → IsBeyond self.old k × IsOutside start end k }
    {
        if start < MIDDLE {
            self.low = self.low.max(end);
        } else {
            self.high = self.high.max(end);
        }
    }
}

/// Stores its bytes in memory, refuses the calls that it is armed for, and tears unsynced writes at a stop.
///
/// Its memory is allocated when it is made, and its other calls allocate none. It describes what is read and its
/// images, that a refused call changes nothing, and which calls it will refuse. It describes no past moments.
#[derive(Drop)]
pub struct MemDisk {
    // The bytes that are read, `len` of them, and 00 after them.
    bytes: Vec<u8>,
    len: usize,
    // How much of the bytes was written. When the disk is renewed, only that much is cleared.
    extent: Extent,
    // Where the newest unsynced write begins and ends.
    from: usize,
    to: usize,
    // For each byte from `base` on, whether an older unsynced write reached it. None reached any other byte.
    base: usize,
    written: Vec<bool>,
    // How many bytes lie past the end that the last sync left.
    grown: usize,
    arming: Arming,
    torn: ArrayVec<u8, 32>,
    calls: u64,
    faults: u64,
}

impl Model for MemDisk {
    ghost use Rattle.zb_disk.specs.Memory.{Medium};

    ghost Value = { Medium };

    ghost use Rattle.zb_disk.specs.MemoryInside.{medium_of, IsMemDisk};

    ghost view = { medium_of };

    ghost invariant = { IsMemDisk };
}

impl MemDisk {
    /// Makes a disk of these bytes, which are its only image. Nothing is armed. There must be at most 131,072 bytes.
    ///
    /// # Errors
    /// `NoMemory`, if memory runs out.
    pub fn new(alloc: Global, bytes: &[u8]) -> Result<MemDisk, NoMemory>
        requires { length bytes.now ≤ disk_size }
        ensures { IfOk result (λ d. d ≡ fresh bytes.now) }
    {
        let mut content = Vec::with_capacity(alloc, SIZE)?;
        content.extend_from_slice(bytes)?;
        Ok(MemDisk {
            bytes: content,
            len: bytes.len(),
            extent: Extent {
                low: bytes.len(),
                high: 0,
            },
            from: 0,
            to: 0,
            base: 0,
            written: Vec::with_capacity(alloc, SIZE)?,
            grown: 0,
            arming: Arming::Unarmed,
            torn: ArrayVec::new(),
            calls: 0,
            faults: 0,
        })
    }

    /// Makes a used disk a new one of no bytes, with the memory that it has. It allocates nothing, and clears only
    /// what was written.
    pub fn renew(&mut self)
        ensures { self.new ≡ fresh [] }
    {
        wipe(&mut self.bytes, self.extent);
        self.len = 0;
        self.extent = Extent { low: 0, high: 0 };
        self.from = 0;
        self.to = 0;
        self.base = 0;
        self.written.clear();
        self.grown = 0;
        self.arming = Arming::Unarmed;
        self.torn = ArrayVec::new();
        self.calls = 0;
        self.faults = 0;
    }

    /// Returns the bytes that are read.
    pub fn bytes(&self) -> &[u8]
        ensures { result.now ≡ self.now.bytes }
    {
        &self.bytes[..self.len]
    }

    /// Returns whether a stop has happened and the power isn't back.
    pub fn is_off(&self) -> bool
        ensures { result ≡ is_stopped self.now.arming }
    {
        match self.arming {
            Arming::Unarmed | Arming::Stop { .. } | Arming::Fail { .. } => false,
            Arming::Stopped => true,
        }
    }

    /// Returns whether the disk will refuse a write or a sync.
    ///
    /// It will if it is off, or if what was armed hasn't happened yet.
    pub fn will_refuse(&self) -> bool
        ensures { result ≡ will_refuse self.now.arming }
    {
        match self.arming {
            Arming::Unarmed => false,
            Arming::Fail { call } => 0 < call,
            Arming::Stop { .. } | Arming::Stopped => true,
        }
    }

    /// Arms a stop at the write or sync after `calls` others.
    ///
    /// That call is refused, and so is every call until `power_on`. The runs of bytes that were written and not
    /// synced then become `torn`, repeated. The stop replaces an earlier arming. A stopped disk is unchanged.
    pub fn arm_stop(&mut self, calls: u8, torn: ArrayVec<u8, 32>)
        ensures { self.new ≡ record self.old {
          arming = armed self.old.arming (Arming.Stop calls);
          torn = (if is_stopped self.old.arming then self.old.torn else torn.items);
        } }
    {
        if self.arming != Arming::Stopped {
            self.arming = Arming::Stop { calls };
            self.torn = torn;
        }
    }

    /// Arms a failure of one write or sync, by its number, counted from now and from 1.
    ///
    /// It replaces an earlier arming. A stopped disk is unchanged.
    pub fn arm_fail(&mut self, call: u8)
        ensures { self.new ≡ record self.old { arming = armed self.old.arming (Arming.Fail call) } }
    {
        arm(&mut self.arming, Arming::Fail { call });
    }

    /// Cancels an arming. A stopped disk is unchanged.
    pub fn disarm(&mut self)
        ensures { self.new ≡ record self.old { arming = armed self.old.arming Arming.Unarmed } }
    {
        arm(&mut self.arming, Arming::Unarmed);
    }

    /// Ends a stop or the state after a failed call.
    ///
    /// After a stop with `torn`, each longest run of bytes that were written and not synced becomes `torn`, repeated
    /// from the first byte of the run. The bytes that are then read are the only image.
    pub fn power_on(&mut self)
        ensures after { self.new ≡ powered self.old }
        ensures one_of_the_images { (memory_view self.old).images self.new.bytes }
        ensures only { Only self.new.bytes (memory_view self.new).images }

        // If exactly one byte is unsynced, it becomes the first of `torn`.
        ensures one_byte { (at : ℕ) → IsUnsynced at 1 (memory_view self.old) → at < length self.old.bytes
            → IsTrue (is_stopped self.old.arming) → 0 < length self.old.torn
            → self.new.bytes ≡ overwrite self.old.bytes at (slice_index self.old.torn 0 ∷ []) }
    {
        if !self.is_off() {
            self.settle();
            return;
        }
        self.base = add(&mut self.written, self.base, self.from, self.to);
        self.extent
            .include(self.base, self.base + self.written.len());
        tear_all(
            &mut self.bytes,
            self.base,
            &self.written,
            self.torn.as_slice(),
        );
        self.arming = Arming::Unarmed;
        self.settle();
    }

    // Counts a write or a sync, and returns whether it is refused.
    #[tactic(auto, unfolding(crate::specs::Memory::counted))]
    fn refuses_call(&mut self) -> bool
        ensures refused { result ≡ refuses self.old.arming 0 }
        ensures after { self.new ≡ counted self.old }
        ensures later { self.old.faults ≤ self.new.faults }
    {
        self.calls = self.calls.saturating_add(1);
        let refused = is_refused(&mut self.arming);
        if refused {
            self.faults = self.faults.saturating_add(1);
        }
        refused
    }

    // Counts a read, and returns whether it is refused.
    fn refuses_read(&mut self) -> bool
        ensures refused { result ≡ is_stopped self.old.arming }
        ensures after { self.new ≡ after_read self.old }
        ensures later { self.old.faults ≤ self.new.faults }
    {
        let refused = self.is_off();
        if refused {
            self.faults = self.faults.saturating_add(1);
        }
        refused
    }

    // Writes a piece.
    #[tactic(auto, unfolding(crate::specs::Memory::stored))]
    fn store(&mut self, start: usize, piece: &[u8])
        requires { start + length piece.now ≤ disk_size }
        ensures { self.new ≡ stored self.old start piece.now }
    {
        let end = start + piece.len();
        self.grown += end.saturating_sub(self.len);
        put(&mut self.bytes, start, piece);
        self.len = self.len.max(end);
        self.extent.include(start, end);
        self.base = add(&mut self.written, self.base, self.from, self.to);
        self.from = start;
        self.to = end;
    }

    // Makes the bytes that are read the only image.
    #[tactic(auto, unfolding(crate::specs::Memory::synced))]
    fn settle(&mut self)
        ensures { self.new ≡ synced self.old }
    {
        self.from = 0;
        self.to = 0;
        self.written.clear();
        self.grown = 0;
    }
}

impl Disk for MemDisk {
    ghost tells = { memory_tells };

    ghost state = { memory_view };

    ghost reads_image = { λ m told. image_seen m.bytes m.written m.grown };

    ghost counts_now = { λ m t c before now. now };

    ghost only_now = { λ m c left. left };

    fn size(&mut self) -> Result<u64, Failed>
        ensures size { IfOk result (λ n. n ≡ length self.old.bytes) }
        ensures read { IsRead memory_tells (memory_view self.old) (memory_view self.new) result }
        ensures after { self.new ≡ after_read self.old }
    {
        if self.refuses_read() {
            return Err(Failed);
        }
        Ok(self.len as u64)
    }

    fn read(&mut self, at: u64, buf: &mut [u8]) -> Result<(), Failed>
        ensures bytes { OnOk result (buf.new ≡ window self.old.bytes at (length buf.old)) }
        ensures read { IsRead memory_tells (memory_view self.old) (memory_view self.new) result }
        ensures after { self.new ≡ after_read self.old }
    {
        if self.refuses_read() {
            return Err(Failed);
        }
        copy_window(&self.bytes[..self.len], at, buf);
        Ok(())
    }

    fn write(&mut self, at: u64, bytes: &[u8]) -> Result<(), Failed>
        requires { at + length bytes.now ≤ disk_size }
        ensures write { IsWrite memory_tells at bytes.now (memory_view self.old) (memory_view self.new) result }
        ensures after { self.new ≡ after_write self.old at bytes.now }
    {
        if self.refuses_call() {
            return Err(Failed);
        }
        self.store(at as usize, bytes);
        Ok(())
    }

    fn sync(&mut self) -> Result<(), Failed>
        ensures sync { IsSync memory_tells (memory_view self.old) (memory_view self.new) result }
        ensures after { self.new ≡ after_sync self.old }
    {
        if self.refuses_call() {
            return Err(Failed);
        }
        self.settle();
        Ok(())
    }
}

/// Copies the bytes from a place on into the buffer, with 00 past the end.
pub(crate) fn copy_window(bytes: &[u8], at: u64, buf: &mut [u8])
    ensures { buf.new ≡ window bytes.now at (length buf.old) }
{
    let start = at.min(bytes.len() as u64) as usize;
    let count = buf.len().min(bytes.len() - start);
    overlay(buf, 0, &bytes[start..start + count]);
    blank(buf, count);
}

// Fills the buffer with 00 from a place on.
fn blank(buf: &mut [u8], from: usize)
    requires { from ≤ length buf.old }
    ensures { buf.new ≡ take from buf.old ++ replicate (length buf.old - from) 0 }
{
    buf[from..].fill(0);
}

// Fills the bytes from one place to another, which is excluded, with 00.
fn blank_range(bytes: &mut [u8], start: usize, end: usize)
    requires order { start ≤ end }
    requires within { end ≤ length bytes.old }
    ensures { bytes.new ≡ patch bytes.old start (replicate (end - start) 0) }
{
    bytes[start..end].fill(0);
}

// Fills the bytes from one place to another, which is excluded, with 00, as far as there are bytes.
fn clear(bytes: &mut [u8], from: usize, to: usize)
    ensures inside { (k : ℕ) → from ≤ k → k < to → get_or bytes.new k 0 ≡ 0 }
    ensures others { (k : ℕ) → get_or bytes.old k 0 ≡ 0 → get_or bytes.new k 0 ≡ 0 }
{
    let end = to.min(bytes.len());
    blank_range(bytes, from.min(end), end);
}

// Fills all bytes that were written with 00.
fn wipe(bytes: &mut Vec<u8>, extent: Extent)
    requires { (k : ℕ) → IsBeyond extent k → get_or bytes.old.items k 0 ≡ 0 }
    ensures after { (k : ℕ) → get_or bytes.new.items k 0 ≡ 0 }
    ensures size { vec_len bytes.new ≡ vec_len bytes.old }
    ensures room { vec_capacity bytes.new ≡ vec_capacity bytes.old }
{
    clear(bytes, 0, extent.low);
    clear(bytes, MIDDLE, extent.high);
}

// Makes each longest run of written bytes the pattern, repeated, if there is one. The flags begin at `base`.
fn tear_all(bytes: &mut Vec<u8>, base: usize, written: &[bool], pattern: &[u8])
    requires { base + length written.now ≤ length bytes.old.items }
    ensures after { bytes.new.items
        ≡ torn_by pattern.now bytes.old.items (flags_around base written.now (length bytes.old.items)) }
    ensures size { vec_len bytes.new ≡ vec_len bytes.old }
    ensures room { vec_capacity bytes.new ≡ vec_capacity bytes.old }
{
    if !pattern.is_empty() {
        tear_window(bytes, base, written, pattern);
    }
}

// Makes each longest run of written bytes the pattern, repeated. The flags begin at `base`.
fn tear_window(bytes: &mut [u8], base: usize, written: &[bool], pattern: &[u8])
    requires some { 0 < length pattern.now }
    requires within { base + length written.now ≤ length bytes.old }
    ensures { bytes.new ≡ tear pattern.now 0 bytes.old (flags_around base written.now (length bytes.old)) }
{
    tear_runs(&mut bytes[base..base + written.len()], written, pattern);
}

// Makes each longest run of written bytes the pattern, repeated. Each byte has a flag.
fn tear_runs(bytes: &mut [u8], written: &[bool], pattern: &[u8])
    requires flags { length written.now ≡ length bytes.old }
    requires some { 0 < length pattern.now }
    ensures { bytes.new ≡ tear pattern.now 0 bytes.old written.now }
{
    let mut phase = 0;
    for i in 0..written.len() {
        if written[i] {
            bytes[i] = pattern[phase % pattern.len()];
            phase += 1;
        } else {
            phase = 0;
        }
    }
}
