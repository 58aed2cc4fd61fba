//! What the objects in memory share: a look-up among the numbers of the calls that are to fail, and a copy of what
//! fits.
ghost use Rattle.std.specs.Prelude.{◌≡◌, ◌+◌, length, min, take};
ghost use Rattle.zb_base.specs.Outside.{has_number as has};

/// Returns whether a number is one of these.
pub(crate) fn has_number(numbers: &[u32], number: u64) -> bool
    ensures { result ≡ has numbers.now number }
{
    numbers.iter().any(|&listed| u64::from(listed) == number)
}

/// Copies as much of `rest` to the beginning of `buf` as there is room for, and returns how many bytes.
pub(crate) fn fill(buf: &mut [u8], rest: &[u8]) -> usize
    ensures count { result ≡ min (length buf.old) (length rest.now) }
    ensures front { take result buf.new ≡ take result rest.now }
{
    let count = buf.len().min(rest.len());
    buf[..count].copy_from_slice(&rest[..count]);
    count
}
