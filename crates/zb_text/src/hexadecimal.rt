//! Strings of bytes in hexadecimal digits, read in either case and written in upper case.

ghost use Rattle.std.specs.Prelude.{◌≡◌, ◌+◌, ◌≤◌, ◌<◌, ◌/◌, [], ◌∷◌, ◌++◌, length, slice_index, OnOk, IfOk, IfSome, vec_len, vec_capacity};
ghost use Rattle.std.specs.List.{flat_map};
ghost use Rattle.std.specs.Option.{option_map};
ghost use Rattle.std.specs.Result.{result_ok};
ghost use Rattle.hex.specs.Hex.{decode_of, encode_upper, hex_digit_value, IsBytes};
ghost use Rattle.zb_text.specs.Hexadecimal.{fixed_of, bytes_of, bytes_text, byte_of_pair};

use arrayvec::ArrayVec;
use std::alloc::AllocError;

/// Reads exactly `N` bytes of two hexadecimal digits each.
pub fn fixed<const N: usize>(word: &[u8]) -> Option<[u8; N]>
    ensures value { result ≡ fixed_of N word.now }
    ensures fits { IfSome result (λ bytes. (length bytes ≡ N) × IsBytes bytes) }
{
    let mut bytes = [0; N];
    hex::decode_to_slice(word, &mut bytes).ok()?;
    known_bytes(&bytes);
    Some(bytes)
}

// States that bytes are below 256, because of their type.
fn known_bytes(bytes: &[u8])
    ensures { IsBytes bytes.now }
{}

/// Reads at most `N` bytes: `-` for none, or two hexadecimal digits each.
pub fn bytes<const N: usize>(word: &[u8]) -> Option<ArrayVec<u8, N>>
    ensures value { option_map (λ found. found.items) result ≡ bytes_of N word.now }
    ensures fits { IfSome result (λ found. (length found.items ≤ N) × IsBytes found.items) }
{
    if word == b"-".as_slice() {
        return Some(ArrayVec::new());
    }
    let count = word.len() / 2;
    if word.is_empty() || count > N {
        return None;
    }
    let found = pairs_of::<N>(word)?;
    known_bytes(found.as_slice());
    Some(found)
}

/// Returns the bytes that pairs of digits spell.
fn pairs_of<const N: usize>(word: &[u8]) -> Option<ArrayVec<u8, N>>
    requires { length word.now / 2 ≤ N }
    ensures { option_map (λ found. found.items) result ≡ result_ok (decode_of word.now) }
{
    let mut found = ArrayVec::new();
    let mut rest = word;
    while let [high, low, more @ ..] = rest {
        let Some(byte) = pair_value(*high, *low) else {
            return None;
        };
        found.push(byte);
        rest = more;
    }
    if rest.is_empty() { Some(found) } else { None }
}

/// The value of each digit, in either case, and 255 for each byte that isn't a digit.
static VALUES: [u8; 256] = [
    255, 255, 255, 255, 255, 255, 255, 255, 255, 255, 255, 255, 255, 255, 255, 255, 255, 255, 255,
    255, 255, 255, 255, 255, 255, 255, 255, 255, 255, 255, 255, 255, 255, 255, 255, 255, 255, 255,
    255, 255, 255, 255, 255, 255, 255, 255, 255, 255, 0, 1, 2, 3, 4, 5, 6, 7, 8, 9, 255, 255, 255,
    255, 255, 255, 255, 10, 11, 12, 13, 14, 15, 255, 255, 255, 255, 255, 255, 255, 255, 255, 255,
    255, 255, 255, 255, 255, 255, 255, 255, 255, 255, 255, 255, 255, 255, 255, 255, 10, 11, 12, 13,
    14, 15, 255, 255, 255, 255, 255, 255, 255, 255, 255, 255, 255, 255, 255, 255, 255, 255, 255,
    255, 255, 255, 255, 255, 255, 255, 255, 255, 255, 255, 255, 255, 255, 255, 255, 255, 255, 255,
    255, 255, 255, 255, 255, 255, 255, 255, 255, 255, 255, 255, 255, 255, 255, 255, 255, 255, 255,
    255, 255, 255, 255, 255, 255, 255, 255, 255, 255, 255, 255, 255, 255, 255, 255, 255, 255, 255,
    255, 255, 255, 255, 255, 255, 255, 255, 255, 255, 255, 255, 255, 255, 255, 255, 255, 255, 255,
    255, 255, 255, 255, 255, 255, 255, 255, 255, 255, 255, 255, 255, 255, 255, 255, 255, 255, 255,
    255, 255, 255, 255, 255, 255, 255, 255, 255, 255, 255, 255, 255, 255, 255, 255, 255, 255, 255,
    255, 255, 255, 255, 255, 255, 255, 255, 255, 255, 255, 255, 255, 255, 255, 255, 255, 255, 255,
    255, 255, 255,
];

/// Returns the value of a digit, in either case.
#[tactic(auto, using(crate::proofs::Pairs::digit_some, crate::proofs::Pairs::digit_none))]
fn digit(byte: u8) -> Option<u8>
    ensures value { result ≡ hex_digit_value byte }
    ensures small { IfSome result (λ value. value < 16) }
{
    let value = VALUES[byte as usize];
    if value < 16 { Some(value) } else { None }
}

/// Returns the byte of two digits, the first for its high four bits.
fn pair_value(high: u8, low: u8) -> Option<u8>
    ensures { result ≡ byte_of_pair high low }
{
    let high = digit(high)?;
    let low = digit(low)?;
    Some(high * 16 + low)
}

/// Prints bytes in two digits each: by blocks of 16, then of four, and then one by one.
///
/// # Errors
/// `AllocError`.
pub fn put_digits(out: &mut Vec<u8>, bytes: &[u8]) -> Result<(), AllocError>
    ensures { OnOk result (out.new.items ≡ out.old.items ++ encode_upper bytes.now) }
{
    let rest = put_blocks::<16>(out, bytes)?;
    let rest = put_blocks::<4>(out, rest)?;
    put_each(out, rest)?;
    Ok(())
}

/// Prints the blocks of `N` bytes at the start of a string of bytes, and returns the bytes after them.
fn put_blocks<'a, const N: usize>(
    out: &mut Vec<u8>,
    bytes: &'a [u8],
) -> Result<&'a [u8], AllocError>
    requires some { 0 < N }
    requires few { N ≤ 16 }
    ensures { IfOk result (λ rest. out.new.items ++ encode_upper rest.now ≡ out.old.items ++ encode_upper bytes.now) }
{
    let mut rest = bytes;
    while let Some((block, more)) = rest.split_first_chunk::<N>() {
        put_block(out, block)?;
        rest = more;
    }
    Ok(rest)
}

/// Prints a block of bytes in two digits each.
///
/// # Errors
/// `AllocError`.
pub(crate) fn put_block<const N: usize>(
    out: &mut Vec<u8>,
    block: &[u8; N],
) -> Result<(), AllocError>
    requires { N ≤ 16 }
    ensures { OnOk result (out.new.items ≡ out.old.items ++ encode_upper block.now) }
{
    let pairs = pairs_of_block(block);
    out.extend_from_slice(pairs.as_flattened())?;
    Ok(())
}

/// Returns the two digits of each byte of a block.
fn pairs_of_block<const N: usize>(block: &[u8; N]) -> [[u8; 2]; N]
    ensures { flat_map (λ pair. pair) result ≡ encode_upper block.now }
{
    let mut pairs = [[0; 2]; N];
    for i in 0..N {
        pairs[i] = pair_of(block[i]);
    }
    pairs
}

/// The two digits of each byte, the first in the low eight bits.
static PAIRS: [u16; 256] = [
    0x3030, 0x3130, 0x3230, 0x3330, 0x3430, 0x3530, 0x3630, 0x3730, 0x3830, 0x3930, 0x4130, 0x4230,
    0x4330, 0x4430, 0x4530, 0x4630, 0x3031, 0x3131, 0x3231, 0x3331, 0x3431, 0x3531, 0x3631, 0x3731,
    0x3831, 0x3931, 0x4131, 0x4231, 0x4331, 0x4431, 0x4531, 0x4631, 0x3032, 0x3132, 0x3232, 0x3332,
    0x3432, 0x3532, 0x3632, 0x3732, 0x3832, 0x3932, 0x4132, 0x4232, 0x4332, 0x4432, 0x4532, 0x4632,
    0x3033, 0x3133, 0x3233, 0x3333, 0x3433, 0x3533, 0x3633, 0x3733, 0x3833, 0x3933, 0x4133, 0x4233,
    0x4333, 0x4433, 0x4533, 0x4633, 0x3034, 0x3134, 0x3234, 0x3334, 0x3434, 0x3534, 0x3634, 0x3734,
    0x3834, 0x3934, 0x4134, 0x4234, 0x4334, 0x4434, 0x4534, 0x4634, 0x3035, 0x3135, 0x3235, 0x3335,
    0x3435, 0x3535, 0x3635, 0x3735, 0x3835, 0x3935, 0x4135, 0x4235, 0x4335, 0x4435, 0x4535, 0x4635,
    0x3036, 0x3136, 0x3236, 0x3336, 0x3436, 0x3536, 0x3636, 0x3736, 0x3836, 0x3936, 0x4136, 0x4236,
    0x4336, 0x4436, 0x4536, 0x4636, 0x3037, 0x3137, 0x3237, 0x3337, 0x3437, 0x3537, 0x3637, 0x3737,
    0x3837, 0x3937, 0x4137, 0x4237, 0x4337, 0x4437, 0x4537, 0x4637, 0x3038, 0x3138, 0x3238, 0x3338,
    0x3438, 0x3538, 0x3638, 0x3738, 0x3838, 0x3938, 0x4138, 0x4238, 0x4338, 0x4438, 0x4538, 0x4638,
    0x3039, 0x3139, 0x3239, 0x3339, 0x3439, 0x3539, 0x3639, 0x3739, 0x3839, 0x3939, 0x4139, 0x4239,
    0x4339, 0x4439, 0x4539, 0x4639, 0x3041, 0x3141, 0x3241, 0x3341, 0x3441, 0x3541, 0x3641, 0x3741,
    0x3841, 0x3941, 0x4141, 0x4241, 0x4341, 0x4441, 0x4541, 0x4641, 0x3042, 0x3142, 0x3242, 0x3342,
    0x3442, 0x3542, 0x3642, 0x3742, 0x3842, 0x3942, 0x4142, 0x4242, 0x4342, 0x4442, 0x4542, 0x4642,
    0x3043, 0x3143, 0x3243, 0x3343, 0x3443, 0x3543, 0x3643, 0x3743, 0x3843, 0x3943, 0x4143, 0x4243,
    0x4343, 0x4443, 0x4543, 0x4643, 0x3044, 0x3144, 0x3244, 0x3344, 0x3444, 0x3544, 0x3644, 0x3744,
    0x3844, 0x3944, 0x4144, 0x4244, 0x4344, 0x4444, 0x4544, 0x4644, 0x3045, 0x3145, 0x3245, 0x3345,
    0x3445, 0x3545, 0x3645, 0x3745, 0x3845, 0x3945, 0x4145, 0x4245, 0x4345, 0x4445, 0x4545, 0x4645,
    0x3046, 0x3146, 0x3246, 0x3346, 0x3446, 0x3546, 0x3646, 0x3746, 0x3846, 0x3946, 0x4146, 0x4246,
    0x4346, 0x4446, 0x4546, 0x4646,
];

/// Returns the two digits of a byte.
#[tactic(auto, using(crate::proofs::Digits::pair_at))]
fn pair_of(byte: u8) -> [u8; 2]
    ensures { result ≡ encode_upper (byte ∷ []) }
{
    PAIRS[byte as usize].to_le_bytes()
}

/// Prints bytes in two digits each, byte by byte. It takes the room for all of them first.
#[tactic(auto, using(crate::proofs::Digits::one_more_byte), unfolding(hex::specs::Hex::encode_with))]
fn put_each(out: &mut Vec<u8>, bytes: &[u8]) -> Result<(), AllocError>
    ensures { OnOk result (out.new.items ≡ out.old.items ++ encode_upper bytes.now) }
{
    out.reserve(2 * bytes.len())?;
    for byte in bytes {
        put_pair(out, *byte);
    }
    Ok(())
}

const DIGITS: [u8; 16] = *b"0123456789ABCDEF";

/// Returns the two digits of a byte, which are ASCII.
#[tactic(auto, unfolding(hex::specs::Hex::encode_with))]
pub fn digits_of(byte: u8) -> [u8; 2]
    ensures digits { result ≡ encode_upper (byte ∷ []) }
    ensures first { slice_index result 0 < 128 }
    ensures second { slice_index result 1 < 128 }
{
    [DIGITS[(byte >> 4) as usize], DIGITS[(byte & 15) as usize]]
}

/// Prints a byte in two digits. Requires room for them.
fn put_pair(out: &mut Vec<u8>, byte: u8)
    requires { vec_len out.old + 2 ≤ vec_capacity out.old }
    ensures items { out.new.items ≡ out.old.items ++ encode_upper (byte ∷ []) }
    ensures len { vec_len out.new ≡ vec_len out.old + 2 }
    ensures room { vec_capacity out.new ≡ vec_capacity out.old }
{
    let [first, second] = digits_of(byte);
    out.push_reserved(first);
    out.push_reserved(second);
}

/// Prints bytes in two digits each, or `-` for no bytes.
///
/// # Errors
/// `AllocError`.
pub fn put_bytes(out: &mut Vec<u8>, bytes: &[u8]) -> Result<(), AllocError>
    ensures { OnOk result (out.new.items ≡ out.old.items ++ bytes_text bytes.now) }
{
    if bytes.is_empty() {
        out.push(b'-')?;
    } else {
        put_digits(out, bytes)?;
    }
    Ok(())
}
