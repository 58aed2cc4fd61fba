//! The words of the command line that represent keys.
ghost use Rattle.std.specs.Prelude.{◌≡◌, ◌≤◌, length, map, string_bytes, vec_len, IfOk};
ghost use Rattle.zb_input.specs.KeyWords.{all_keys, key_word as key_of_word, keys_in};

use std::alloc::{AllocError, Global};
use zb_base::Key;
use zb_install::InstallCode;
use zb_text::fields;

/// Reads the key that a word represents: its 32 digits, or an install code, which represents its link key.
#[tactic(auto, unfolding(crate::specs::KeyWords::key_word))]
fn key_word(word: &str) -> Option<Key>
    ensures { result ≡ key_of_word word.now }
{
    if word.len() > 36 {
        return None;
    }
    match fields::key(word.as_bytes()) {
        Some(key) => Some(key),
        None => match InstallCode::from_hex(word) {
            Ok(code) => Some(code.link_key()),
            Err(_) => None,
        },
    }
}

/// Returns whether each word represents a key.
pub fn are_keys(words: &[String]) -> bool
    ensures { result ≡ all_keys (map string_bytes words.now) }
{
    for word in words {
        if key_word(word.as_str()).is_none() {
            return false;
        }
    }
    true
}

/// Reads the keys that words represent, in order. Other words are skipped.
///
/// # Errors
/// `AllocError`, if memory runs out.
pub fn read_keys(alloc: Global, words: &[String]) -> Result<Vec<Key>, AllocError>
    ensures value { IfOk result (λ v. v.items ≡ keys_in (map string_bytes words.now)) }
    ensures few { IfOk result (λ v. vec_len v ≤ length words.now) }
{
    let mut keys = Vec::new(alloc);
    for word in words {
        if let Some(key) = key_word(word.as_str()) {
            keys.push(key)?;
        }
    }
    Ok(keys)
}
