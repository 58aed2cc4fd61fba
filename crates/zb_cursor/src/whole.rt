//! Reading a value that must take all of the bytes.
ghost use Rattle.std.specs.Prelude.{◌<◌, ◌≤◌, ◌^◌, length};
ghost use Rattle.std.specs.Fn.{FnOnceReturnsAtMut};
ghost use Rattle.zb_cursor.specs.Whole.{IsWhole};
ghost use Rattle.zb_cursor.specs.declared.reader.Reader.{Reader};

use crate::reader::Reader;

/// Reads a value that must take all of the bytes.
///
/// `read` reads it from their start, and then no byte may be left. Requires fewer than 2^32
/// bytes. `read` must leave no more bytes than there were.
///
/// # Errors
/// The fault of `read`. If `read` succeeds and bytes are left, the fault that `left` returns for their number.
pub fn read_whole<'a, T, E, R, L>(bytes: &'a [u8], cut: E, read: R, left: L) -> Result<T, E>
where
    T: Drop,
    E: Copy + Drop,
    R: FnOnce(&mut Reader<'a, E>) -> Result<T, E>,
    L: FnOnce(u32) -> E + Drop,
    requires few { length bytes.now < 2 ^ 32 }
    requires read { R.IsAlwaysCallable read }
    requires left { L.IsAlwaysCallable left }
    requires shorter { (r : _) (end : Reader E)
        → FnOnceReturnsAtMut R.FnOnce read (record { rest = bytes; cut = cut }) r end
        → length end.rest.now ≤ length bytes.now }
    ensures { IsWhole (FnOnceReturnsAtMut R.FnOnce read (record { rest = bytes.entry; cut = cut }))
        (λ n e. L.post left n e) result }
{
    let mut reader = Reader { rest: bytes, cut };
    let value = read(&mut reader)?;
    if !reader.rest.is_empty() {
        return Err(left(reader.rest.len() as u32));
    }
    Ok(value)
}
