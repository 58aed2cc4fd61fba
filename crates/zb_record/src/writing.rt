//! Writing fields into a buffer, one after the other.
ghost use Rattle.std.specs.Prelude.{◌≡◌, ◌+◌, ◌≤◌, ◌++◌, length, take};
ghost use Rattle.zb_model.specs.Record.{worth};

/// Writes a piece at a place, and returns the place after it.
pub(crate) fn put(into: &mut [u8], at: usize, piece: &[u8]) -> usize
    requires { at + length piece.now ≤ length into.old }
    ensures front { take result into.new ≡ take at into.old ++ piece.now }
    ensures end { result ≡ at + length piece.now }
{
    let end = at + piece.len();
    into[at..end].copy_from_slice(piece);
    end
}

/// Returns the value of a bit of a flags byte.
pub(crate) fn worth(bit: u8, set: bool) -> u8
    ensures value { result ≡ worth bit set }
    ensures small { result ≤ bit }
{
    if set { bit } else { 0 }
}
