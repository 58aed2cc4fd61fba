//! The bits of a control field.
ghost use Rattle.std.specs.Prelude.{◌≡◌, ◌<◌};
ghost use Rattle.zb_cursor.specs.Spelling.{bit};

/// Returns whether the bit at `place` is 1, counted from the lowest, which is 0.
pub fn has_bit(number: u16, place: u32) -> bool
    requires { place < 16 }
    ensures { result ≡ bit number place }
{
    (number >> place) & 1 == 1
}
