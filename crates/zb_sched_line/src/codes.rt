//! The word of an install code.

ghost use Rattle.std.specs.Prelude.{◌≡◌, ◌==◌, ◌&&◌, ◌%◌, length, is_some, IfSome};
ghost use Rattle.std.specs.Char.{is_ascii_hexdigit};
ghost use Rattle.std.specs.List.{list_all};
ghost use Rattle.zb_text.specs.Hexadecimal.{bytes_of};
ghost use Rattle.zb_text.specs.Words.{field, left, Takes};
ghost use Rattle.zb_sched_line.specs.Fits.{FitsCode};
ghost use Rattle.zb_sched_line.specs.Grammar.{code_of};

use zb_install::InstallCode;
use zb_text::hexadecimal;
use zb_text::words::Words;

/// Takes bytes of any number: an install code, or None where they are none.
pub fn install_code(words: &mut Words) -> Option<Option<InstallCode>>
    ensures value { Takes (λ code. code) result (left words.new) (field code_of (left words.old)) }
    ensures fits { IfSome result FitsCode }
{
    let word = words.word()?;
    let code = code(word)?;
    Some(code)
}

fn code(word: &[u8]) -> Option<Option<InstallCode>>
    ensures value { result ≡ code_of word.now }
    ensures fits { IfSome result FitsCode }
{
    match hexadecimal::bytes::<18>(word) {
        Some(bytes) => match InstallCode::from_bytes(bytes.as_slice()) {
            Ok(code) => Some(Some(code)),
            Err(_) => Some(None),
        },
        None if is_hexadecimal(word) => Some(None),
        None => None,
    }
}

#[tactic(auto, using(crate::proofs::CodeLemmas::pairs_of_digits))]
fn is_hexadecimal(word: &[u8]) -> bool
    ensures { result ≡ is_some (bytes_of (length word.now) word.now) }
{
    if word == b"-".as_slice() {
        return true;
    }
    if word.is_empty() {
        return false;
    }
    has_pairs_of_digits(word)
}

fn has_pairs_of_digits(word: &[u8]) -> bool
    ensures { result ≡ (length word.now % 2 == 0 && list_all is_ascii_hexdigit word.now) }
{
    word.len() % 2 == 0 && has_digits_alone(word)
}

fn has_digits_alone(word: &[u8]) -> bool
    ensures { result ≡ list_all is_ascii_hexdigit word.now }
{
    word.iter().all(|byte| byte.is_ascii_hexdigit())
}
