//! The words of the generator.

ghost use Rattle.std.specs.Prelude.{◌≡◌, ◌+◌, ◌<◌, ◌≤◌, ◌^◌, ◌++◌, replicate};
ghost use Rattle.std.specs.Int.{w32, to_le_bytes};
ghost use Rattle.zb_gen.specs.Words.{key_at, word};

use rand_chacha::ChaCha8Rng;
use rand_core::SeedableRng;
use rand_core::utils::NextWord;
use std::marker::Model;
use zb_base::Key;

/// Generates the words of a start value.
#[derive(Drop)]
pub struct Words {
    rng: ChaCha8Rng,
    start: u32,
    place: u32,
}

impl Model for Words {
    ghost use Rattle.std.specs.Prelude.{◌≡◌};
    ghost use Rattle.zb_gen.specs.Words.{Place, state_at};

    ghost Value = { Place };

    ghost view = { λ g. record { start = g.start; place = g.place } };

    ghost invariant = { λ g. g.rng ≡ state_at g.start g.place };
}

impl Words {
    /// Makes a generator that stands at the first word.
    #[tactic(auto, using(crate::proofs::Seeds::seed_words))]
    pub fn new(start: u32) -> Words
        ensures { result ≡ record { start = start; place = 0 } }
    {
        Words {
            rng: ChaCha8Rng::from_seed(seed(start)),
            start,
            place: 0,
        }
    }

    /// Returns the start value.
    pub fn start(&self) -> u32
        ensures { result ≡ self.now.start }
    {
        self.start
    }

    /// Takes the next word.
    #[tactic(auto, unfolding(crate::specs::Words::word))]
    pub fn word(&mut self) -> u32
        requires { self.old.place + 1 < 2 ^ 32 }
        ensures value { result ≡ word self.old.start self.old.place }
        ensures next { self.new ≡ record { start = self.old.start; place = self.old.place + 1 } }
    {
        self.place += 1;
        self.rng.next_word()
    }

    /// Takes four words as the bytes of a key.
    pub fn key(&mut self) -> Key
        requires { self.old.place + 4 < 2 ^ 32 }
        ensures value { result.0 ≡ key_at self.old.start self.old.place }
        ensures next { self.new ≡ record { start = self.old.start; place = self.old.place + 4 } }
    {
        let first = self.word();
        let second = self.word();
        let third = self.word();
        let fourth = self.word();
        Key(bytes_of(first, second, third, fourth))
    }
}

/// Puts four words into bytes, the low byte of each first.
fn bytes_of(first: u32, second: u32, third: u32, fourth: u32) -> [u8; 16]
    ensures { result ≡ to_le_bytes w32 first
        ++ (to_le_bytes w32 second ++ (to_le_bytes w32 third ++ to_le_bytes w32 fourth)) }
{
    let [a, b, c, d] = first.to_le_bytes();
    let [e, f, g, h] = second.to_le_bytes();
    let [i, j, k, l] = third.to_le_bytes();
    let [m, n, o, p] = fourth.to_le_bytes();
    [a, b, c, d, e, f, g, h, i, j, k, l, m, n, o, p]
}

fn seed(start: u32) -> [u8; 32]
    ensures { result ≡ to_le_bytes w32 start ++ replicate 28 0 }
{
    let [a, b, c, d] = start.to_le_bytes();
    [
        a, b, c, d, 0, 0, 0, 0, 0, 0, 0, 0, 0, 0, 0, 0, 0, 0, 0, 0, 0, 0, 0, 0, 0, 0, 0, 0, 0, 0,
        0, 0,
    ]
}
