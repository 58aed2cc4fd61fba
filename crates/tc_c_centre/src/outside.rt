//! What a call serves over: the bytes of a store as a disk, and the answer as it grows.
ghost use Rattle.std.specs.Prelude.{◌≡◌, ◌≤◌, ◌+◌, [], Some, length, IfOk, OnOk, OnErr};
ghost use Rattle.std.specs.Io.KnownBytes.{Appends};
ghost use Rattle.zb_base.specs.Outside.{AppendsFront, HasCause};
ghost use Rattle.zb_disk.specs.Calls.{IsRead, IsWrite, IsSync};
ghost use Rattle.zb_disk.specs.Memory.{fresh, memory_tells, memory_view};
ghost use Rattle.zb_disk.specs.MemoryLaws.{image_seen};
ghost use Rattle.zb_disk.specs.View.{window};
ghost use Rattle.zb_base.specs.Sizes.{disk_size};

use std::alloc::Global;
use std::marker::Model;
use zb_base::{Failed, NoMemory, Sink};
use zb_disk::{Disk, MemDisk};

/// Keeps the bytes of a store in memory. None of its calls fails.
#[derive(Drop)]
pub(crate) struct StoreBytes {
    disk: MemDisk,
}

impl Model for StoreBytes {
    ghost use Rattle.zb_disk.specs.Memory.{Medium};

    ghost Value = { Medium };

    ghost use Rattle.tc_c_centre.specs.Outside.{HasRoom};

    ghost view = { λ s. s.disk };

    ghost invariant = { λ s. HasRoom s.disk.bytes };
}

impl StoreBytes {
    /// Makes the disk of these bytes. Requires at most 131,072.
    ///
    /// # Errors
    /// `NoMemory`.
    pub fn new(alloc: Global, bytes: &[u8]) -> Result<StoreBytes, NoMemory>
        requires { length bytes.now ≤ disk_size }
        ensures { IfOk result (λ s. s ≡ fresh bytes.now) }
    {
        Ok(StoreBytes {
            disk: MemDisk::new(alloc, bytes)?,
        })
    }

    /// Returns the bytes, at most 131,072.
    pub fn bytes(&self) -> &[u8]
        ensures bytes { result.now ≡ self.now.bytes }
        ensures few { length self.now.bytes ≤ disk_size }
    {
        self.disk.bytes()
    }
}

impl Disk for StoreBytes {
    ghost tells = { memory_tells };

    ghost state = { memory_view };

    ghost reads_image = { λ m told. image_seen m.bytes m.written m.grown };

    ghost counts_now = { λ m t c before now. now };

    ghost only_now = { λ m c left. left };

    fn size(&mut self) -> Result<u64, Failed>
        ensures size { IfOk result (λ n. n ≡ length self.old.bytes) }
        ensures read { IsRead memory_tells (memory_view self.old) (memory_view self.new) result }
    {
        self.disk.size()
    }

    fn read(&mut self, at: u64, buf: &mut [u8]) -> Result<(), Failed>
        ensures bytes { OnOk result (buf.new ≡ window self.old.bytes at (length buf.old)) }
        ensures read { IsRead memory_tells (memory_view self.old) (memory_view self.new) result }
    {
        self.disk.read(at, buf)
    }

    fn write(&mut self, at: u64, bytes: &[u8]) -> Result<(), Failed>
        requires { at + length bytes.now ≤ disk_size }
        ensures { IsWrite memory_tells at bytes.now (memory_view self.old) (memory_view self.new) result }
    {
        self.disk.write(at, bytes)
    }

    fn sync(&mut self) -> Result<(), Failed>
        ensures { IsSync memory_tells (memory_view self.old) (memory_view self.new) result }
    {
        self.disk.sync()
    }
}

/// The answer so far. A write fails where memory is short.
#[derive(Drop)]
pub(crate) struct Answer {
    text: Vec<u8>,
    faults: u64,
}

impl Model for Answer {
    ghost use Rattle.tc_c_centre.specs.Outside.{Written};

    ghost Value = { Written };

    ghost view = { λ a. record { text = a.text.items; faults = a.faults } };
}

impl Answer {
    /// Makes an answer of no bytes.
    pub fn new(alloc: Global) -> Answer
        ensures { result ≡ record { text = []; faults = 0 } }
    {
        Answer {
            text: Vec::new(alloc),
            faults: 0,
        }
    }

    /// Returns its bytes.
    pub fn bytes(&self) -> &[u8]
        ensures { result.now ≡ self.now.text }
    {
        self.text.as_slice()
    }
}

impl Sink for Answer {
    ghost taken = { λ a. Some a.text };

    ghost faults = { λ a. a.faults };

    fn write(&mut self, piece: &[u8]) -> Result<(), Failed>
        ensures whole { OnOk result (Appends (Some self.old.text) (Some self.new.text) piece.now) }
        ensures front { OnErr result (AppendsFront (Some self.old.text) (Some self.new.text) piece.now) }
        ensures cause { HasCause self.old.faults self.new.faults result }
    {
        match self.text.extend_from_slice(piece) {
            Ok(()) => Ok(()),
            Err(_) => {
                self.faults = self.faults.saturating_add(1);
                Err(Failed)
            }
        }
    }
}
