//! Where a field begins.
ghost use Rattle.std.specs.Prelude.{◌≡◌, length};

use zb_cursor::Reader;

/// Starts a field, and returns the number of bytes from here on, by which its faults are reported.
pub(crate) fn begin(reader: &mut Reader<usize>) -> usize
    ensures left { result ≡ length reader.old.rest.now }
    ensures cut { reader.new.cut ≡ result }
    ensures stays { reader.new.rest.now ≡ reader.old.rest.now }
{
    reader.cut = reader.rest.len();
    reader.cut
}
