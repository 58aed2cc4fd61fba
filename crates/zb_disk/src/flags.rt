//! What a write does to the bytes of a disk, and to the flags of those that were written since the last sync.
//!
//! Flags are kept only for a window, and never for the last write. So a call costs what was written, or the gap
//! between two writes before the last one, and not the size of the disk.
ghost use Rattle.std.specs.Prelude.{◌≡◌, ◌+◌, ◌-◌, ◌≤◌, ◌++◌, ℕ, true, false, length, replicate, max, vec_capacity};
ghost use Rattle.zb_disk.specs.Memory.{spread, patch};
ghost use Rattle.zb_disk.specs.MemoryInside.{flags_around};

/// Puts a piece over the bytes from a place on.
pub(crate) fn overlay(bytes: &mut [u8], start: usize, piece: &[u8])
    requires { start + length piece.now ≤ length bytes.old }
    ensures { bytes.new ≡ patch bytes.old start piece.now }
{
    bytes[start..start + piece.len()].copy_from_slice(piece);
}

// Extends the bytes to a length with zeros.
fn lengthen(bytes: &mut Vec<u8>, end: usize)
    requires { end ≤ vec_capacity bytes.old }
    ensures after { bytes.new.items ≡ spread bytes.old.items end 0 }
    ensures room { vec_capacity bytes.old ≤ vec_capacity bytes.new }
{
    if bytes.len() < end {
        bytes.resize(end, 0).unwrap();
    }
}

/// Writes a piece over the bytes from a place on, and fills a gap before it with zeros.
pub(crate) fn put(bytes: &mut Vec<u8>, start: usize, piece: &[u8])
    requires { start + length piece.now ≤ vec_capacity bytes.old }
    ensures after { bytes.new.items ≡ patch (spread bytes.old.items (start + length piece.now) 0) start piece.now }
    ensures room { vec_capacity bytes.old ≤ vec_capacity bytes.new }
{
    lengthen(bytes, start + piece.len());
    overlay(bytes, start, piece);
}

// Sets the flags from `start` up to `end`, which is excluded.
fn raise(written: &mut [bool], start: usize, end: usize)
    requires order { start ≤ end }
    requires within { end ≤ length written.old }
    ensures { written.new ≡ patch written.old start (replicate (end - start) true) }
{
    written[start..end].fill(true);
}

// Extends the flags to a length with clear ones.
fn lengthen_flags(written: &mut Vec<bool>, end: usize)
    requires { end ≤ vec_capacity written.old }
    ensures after { written.new.items ≡ spread written.old.items end false }
    ensures room { vec_capacity written.old ≤ vec_capacity written.new }
{
    if written.len() < end {
        written.resize(end, false).unwrap();
    }
}

// Sets the flags of the window from `start` up to `end`, which is excluded, and fills a gap before them with clear
// ones.
fn mark(written: &mut Vec<bool>, start: usize, end: usize)
    requires order { start ≤ end }
    requires room { end ≤ vec_capacity written.old }
    ensures after { written.new.items
        ≡ patch (spread written.old.items end false) start (replicate (end - start) true) }
    ensures room { vec_capacity written.old ≤ vec_capacity written.new }
{
    lengthen_flags(written, end);
    raise(written, start, end);
}

// Puts clear flags before those of the window.
fn widen(written: &mut Vec<bool>, more: usize)
    requires { length written.old.items + more ≤ vec_capacity written.old }
    ensures after { written.new.items ≡ replicate more false ++ written.old.items }
    ensures room { vec_capacity written.old ≤ vec_capacity written.new }
{
    written.resize(written.len() + more, false).unwrap();
    written.rotate_right(more);
}

// Moves the window of flags so that it doesn't begin after a place, and returns where it begins.
fn open(written: &mut Vec<bool>, base: usize, start: usize) -> usize
    requires { base + length written.old.items ≤ vec_capacity written.old }
    ensures begins { result ≤ start }
    ensures ends { (n : ℕ) → start ≤ n → base + length written.old.items ≤ n
        → result + length written.new.items ≤ n }
    ensures after { (n : ℕ) → start ≤ n → base + length written.old.items ≤ n
        → flags_around result written.new.items n ≡ flags_around base written.old.items n }
    ensures room { vec_capacity written.old ≤ vec_capacity written.new }
{
    if written.is_empty() {
        return start;
    }
    if start < base {
        widen(written, base - start);
        return start;
    }
    base
}

/// Puts the flags of a run into the window, and returns where the window begins.
pub(crate) fn add(written: &mut Vec<bool>, base: usize, start: usize, end: usize) -> usize
    requires order { start ≤ end }
    requires room { end ≤ vec_capacity written.old }
    requires within { base + length written.old.items ≤ vec_capacity written.old }
    ensures ends { result + length written.new.items ≤ max (base + length written.old.items) end }
    ensures after { (n : ℕ) → end ≤ n → base + length written.old.items ≤ n
        → flags_around result written.new.items n
        ≡ patch (flags_around base written.old.items n) start (replicate (end - start) true) }
    ensures room { vec_capacity written.old ≤ vec_capacity written.new }
{
    if start < end {
        let begin = open(written, base, start);
        mark(written, start - begin, end - begin);
        return begin;
    }
    base
}
