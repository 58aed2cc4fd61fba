//! Guesses at the places of nodes by their names. A guess may be wrong: who asks compares the name that stands there.

ghost use Rattle.std.specs.Prelude.{◌<◌};

use zb_base::Name;

const NUMBERS: usize = 1024;

/// A place for each number that a name may have.
#[derive(Drop)]
pub struct Hints {
    places: [u8; NUMBERS],
}

impl Hints {
    /// Makes guesses of which none is of use.
    pub fn new() -> Hints {
        Hints {
            places: [0; NUMBERS],
        }
    }

    /// Notes the place of the node of a name.
    pub fn note(&mut self, name: &Name, place: usize)
        requires { place < 256 }
    {
        self.places[number(name)] = place as u8;
    }

    /// Returns the place that was noted last for a name with the same number.
    pub fn place(&self, name: &Name) -> usize {
        self.places[number(name)] as usize
    }
}

/// Makes a number of the bytes of a name, which few others have.
fn number(name: &Name) -> usize
    ensures { result < 1024 }
{
    let mixed = name.as_bytes().iter().fold(
        0u32,
        |number, byte| number.wrapping_mul(33).wrapping_add(*byte as u32),
    );
    mixed as usize % NUMBERS
}
