//! The words of a line.

ghost use Rattle.std.specs.Prelude.{◌≡◌, ◌==◌, ◌+◌, ◌<◌, ◌≤◌, [], ◌∷◌, length, not, position, Some, IfSome, MatchOption};
ghost use Rattle.std.specs.List.{prefix_len};
ghost use Rattle.std.specs.Simd.Lanes.{chunk};
ghost use Rattle.zb_text.specs.Words.{parts};

use crate::{choices, fields, hexadecimal, numbers};
use arrayvec::ArrayVec;
use std::simd::prelude::*;
use zb_base::{Attribute, Eui, Key, Label, Layer, Name, Place, Role, Rollover, Short, State};

/// A reader of the words of one line, from the first to the last.
#[derive(Clone, Copy, Debug)]
pub struct Words<'a> {
    /// What is left of the line, or None after its last word.
    pub rest: Option<&'a [u8]>,
}

impl<'a> Words<'a> {
    ghost use Rattle.std.specs.Prelude.{◌≡◌, ◌<◌, ◌≤◌, ◌^◌, length, Some, IfSome, IsTrue};
    ghost use Rattle.hex.specs.Hex.{IsBytes};
    ghost use Rattle.zb_text.specs.Choices.{role_of, layer_of, label_of, attribute_of, state_of, rollover_of, place_of, answer_of};
    ghost use Rattle.zb_text.specs.Fields.{is_name, name_of, eui_of, short_of, key_of};
    ghost use Rattle.zb_text.specs.Hexadecimal.{bytes_of};
    ghost use Rattle.zb_text.specs.Numbers.{number_of};
    ghost use Rattle.zb_text.specs.Words.{words, left, first_of, field, nothing, Takes};

    /// Makes a reader of all words of a line.
    pub fn new(line: &'a [u8]) -> Words<'a>
        ensures { left result ≡ words (Some line.now) }
    {
        Words { rest: Some(line) }
    }

    /// Takes the next word, or returns None if none is left.
    pub fn word(&mut self) -> Option<&'a [u8]>
        ensures { Takes (λ word. word.now) result (left self.new) (first_of (left self.old)) }
    {
        let line = self.rest?;
        match cut(line, b' ') {
            Some((word, rest)) => {
                self.rest = Some(rest);
                Some(word)
            }
            None => {
                self.rest = None;
                Some(line)
            }
        }
    }

    /// Takes a name of 1 to 16 characters of a to z and 0 to 9.
    pub fn name(&mut self) -> Option<Name>
        ensures value { Takes (λ name. name.bytes) result (left self.new) (field name_of (left self.old)) }
        ensures fits { IfSome result (λ name. IsTrue (is_name name.bytes)) }
    {
        let word = self.word()?;
        let name = fields::name(word)?;
        Some(name)
    }

    /// Takes a decimal number of at most `limit`, without leading zeros.
    pub fn number(&mut self, limit: u32) -> Option<u32>
        ensures value { Takes (λ number. number) result (left self.new) (field (number_of limit) (left self.old)) }
        ensures fits { IfSome result (λ number. number ≤ limit) }
    {
        let word = self.word()?;
        let number = numbers::number(limit, word)?;
        Some(number)
    }

    /// Takes an EUI of 16 hexadecimal digits.
    pub fn eui(&mut self) -> Option<Eui>
        ensures value { Takes (λ eui. eui.0) result (left self.new) (field eui_of (left self.old)) }
        ensures fits { IfSome result (λ eui. eui.0 < 2 ^ 64) }
    {
        let word = self.word()?;
        let eui = fields::eui(word)?;
        Some(eui)
    }

    /// Takes a short address of 4 hexadecimal digits.
    pub fn short(&mut self) -> Option<Short>
        ensures value { Takes (λ short. short.0) result (left self.new) (field short_of (left self.old)) }
        ensures fits { IfSome result (λ short. short.0 < 2 ^ 16) }
    {
        let word = self.word()?;
        let short = fields::short(word)?;
        Some(short)
    }

    /// Takes a key of 32 hexadecimal digits.
    pub fn key(&mut self) -> Option<Key>
        ensures value { Takes (λ key. key.0) result (left self.new) (field key_of (left self.old)) }
        ensures fits { IfSome result (λ key. (length key.0 ≡ 16) × IsBytes key.0) }
    {
        let word = self.word()?;
        let key = fields::key(word)?;
        Some(key)
    }

    /// Takes at most `N` bytes: `-` for none, or two hexadecimal digits each.
    pub fn bytes<const N: usize>(&mut self) -> Option<ArrayVec<u8, N>>
        ensures value { Takes (λ bytes. bytes.items) result (left self.new) (field (bytes_of N) (left self.old)) }
        ensures fits { IfSome result (λ bytes. (length bytes.items ≤ N) × IsBytes bytes.items) }
    {
        let word = self.word()?;
        let bytes = hexadecimal::bytes::<N>(word)?;
        Some(bytes)
    }

    /// Takes a role: `centre`, `router` or `device`.
    pub fn role(&mut self) -> Option<Role>
        ensures { Takes (λ role. role) result (left self.new) (field role_of (left self.old)) }
    {
        let word = self.word()?;
        let role = choices::role(word)?;
        Some(role)
    }

    /// Takes a layer: `nwk` or `aps`.
    pub fn layer(&mut self) -> Option<Layer>
        ensures { Takes (λ layer. layer) result (left self.new) (field layer_of (left self.old)) }
    {
        let word = self.word()?;
        let layer = choices::layer(word)?;
        Some(layer)
    }

    /// Takes a key identifier: `data`, `network`, `transport` or `load`.
    pub fn label(&mut self) -> Option<Label>
        ensures { Takes (λ label. label) result (left self.new) (field label_of (left self.old)) }
    {
        let word = self.word()?;
        let label = choices::label(word)?;
        Some(label)
    }

    /// Takes a link key's attribute: `provisional`, `unverified` or `verified`.
    pub fn attribute(&mut self) -> Option<Attribute>
        ensures { Takes (λ attribute. attribute) result (left self.new) (field attribute_of (left self.old)) }
    {
        let word = self.word()?;
        let attribute = choices::attribute(word)?;
        Some(attribute)
    }

    /// Takes a node's state, one of seven words from `fresh` to `gone`.
    pub fn state(&mut self) -> Option<State>
        ensures { Takes (λ state. state) result (left self.new) (field state_of (left self.old)) }
    {
        let word = self.word()?;
        let state = choices::state(word)?;
        Some(state)
    }

    /// Takes a rollover: `sending` or `idle`.
    pub fn rollover(&mut self) -> Option<Rollover>
        ensures { Takes (λ rollover. rollover) result (left self.new) (field rollover_of (left self.old)) }
    {
        let word = self.word()?;
        let rollover = choices::rollover(word)?;
        Some(rollover)
    }

    /// Takes the place of a refusal: `nwk`, `aps` or `event`.
    pub fn place(&mut self) -> Option<Place>
        ensures { Takes (λ place. place) result (left self.new) (field place_of (left self.old)) }
    {
        let word = self.word()?;
        let place = choices::place(word)?;
        Some(place)
    }

    /// Takes an answer: `yes` or `no`.
    pub fn answer(&mut self) -> Option<bool>
        ensures { Takes (λ answer. answer) result (left self.new) (field answer_of (left self.old)) }
    {
        let word = self.word()?;
        let answer = choices::answer(word)?;
        Some(answer)
    }

    /// Returns Some if no word is left.
    #[tactic(auto, using(crate::proofs::Cuts::parts_are_some))]
    pub fn end(&self) -> Option<()>
        ensures { result ≡ nothing (left self.now) }
    {
        match self.rest {
            None => Some(()),
            Some(_) => None,
        }
    }
}

/// Returns what is before the first separator, and what is after it, or None if there is no separator.
#[inline(always)]
#[tactic(auto, using(crate::proofs::Cuts::cut_none, crate::proofs::Cuts::cut_some))]
pub(crate) fn cut(text: &[u8], separator: u8) -> Option<(&[u8], &[u8])>
    ensures parts { MatchOption result (parts separator text.now ≡ text.now ∷ [])
        (λ found. parts separator text.now ≡ found.0.now ∷ parts separator found.1.now) }
    ensures shorter { IfSome result (λ found. length found.1.now < length text.now) }
{
    let at = place(text, separator)?;
    let (front, rest) = text.split_at(at);
    Some((front, &rest[1..]))
}

/// Returns the first place of a byte.
#[inline(never)]
#[tactic(auto, using(crate::proofs::Places::first_place))]
fn place(text: &[u8], byte: u8) -> Option<usize>
    ensures { result ≡ position (λ other. other == byte) text.now }
{
    match near_place(text, byte) {
        Some(at) => Some(at),
        None => memchr::memchr(byte, text),
    }
}

/// Returns the first place of a byte if it is among the first 16, where most words end.
#[tactic(auto, using(crate::proofs::Places::near_place))]
fn near_place(text: &[u8], byte: u8) -> Option<usize>
    ensures { IfSome result (λ at. Some at ≡ position (λ other. other == byte) text.now) }
{
    if text.len() < 16 {
        return None;
    }
    let before = others_before(text, 0, byte);
    if before < 16 { Some(before) } else { None }
}

/// Returns how many of the 16 bytes at a place come before the first one that equals some byte; 16 if none does.
fn others_before(text: &[u8], at: usize, byte: u8) -> usize
    requires { at + 16 ≤ length text.now }
    ensures { result ≡ prefix_len (λ other. not (other == byte)) (chunk at 16 text.now) }
{
    let hits = u8x16::from_slice(&text[at..])
        .simd_eq(u8x16::splat(byte))
        .to_bitmask();
    if hits == 0 {
        16
    } else {
        hits.trailing_zeros() as usize
    }
}
