//! Blocks of 16 bytes, as bytes and as the columns that the cipher takes.

ghost use Rattle.std.specs.Prelude.{◌≡◌, ◌+◌, ◌≤◌, ◌++◌, ◌∷◌, length, take, replicate};
ghost use Rattle.std.specs.Int.{w16, to_be_bytes};
ghost use Rattle.zb_aes.specs.Bytes.{xored};
ghost use Rattle.zb_aes.specs.Columns.{state_bytes};

use zb_aes::State;

/// Returns the first 16 bytes of a text, filled up with zeros, as a block.
pub fn block_of(bytes: &[u8]) -> State
    ensures { state_bytes result ≡ take 16 (bytes.now ++ replicate 16 0) }
{
    match bytes.first_chunk::<16>() {
        Some(block) => State::read(block),
        None => State::read(&filled(bytes)),
    }
}

/// Returns the first 16 bytes of a text, filled up with zeros.
pub fn filled(bytes: &[u8]) -> [u8; 16]
    ensures { result ≡ take 16 (bytes.now ++ replicate 16 0) }
{
    let count = bytes.len().min(16);
    let mut block = [0; 16];
    block[..count].copy_from_slice(&bytes[..count]);
    block
}

/// Adds a block to a piece of text that is no longer than it.
#[tactic(auto, using(crate::proofs::Arrays::whole_block, crate::proofs::Arrays::length_state))]
pub fn add(piece: &mut [u8], block: State)
    requires { length piece.old ≤ 16 }
    ensures { piece.new ≡ xored piece.old (state_bytes block) }
{
    if piece.len() == 16 {
        let sum = block_of(piece).plus(block).bytes();
        piece.copy_from_slice(&sum);
    } else {
        add_part(piece, &block.bytes());
    }
}

fn add_part(piece: &mut [u8], block: &[u8; 16])
    requires { length piece.old ≤ 16 }
    ensures { piece.new ≡ xored piece.old block.now }
{
    for i in 0..piece.len() {
        piece[i] ^= block[i];
    }
}

/// Makes a block of flags, nonce and a number, its high byte first.
pub fn numbered(flags: u8, nonce: &[u8; 13], number: u16) -> State
    ensures { state_bytes result ≡ flags ∷ nonce.now ++ to_be_bytes w16 number }
{
    let [a, b, c, d, e, f, g, h, i, j, k, l, m] = *nonce;
    let [high, low] = number.to_be_bytes();
    State::read(&[flags, a, b, c, d, e, f, g, h, i, j, k, l, m, high, low])
}
