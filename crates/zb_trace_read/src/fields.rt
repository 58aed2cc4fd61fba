//! The words of a line. Each is read as what its place may have.
ghost use Rattle.std.specs.Prelude.{◌^◌, ◌≡◌, ◌∷◌, ◌≤◌, ◌<◌, ◌⊎◌, List, [], length, codes, IfSome, OnOk, IfOk, Option, Some, None, true};
ghost use Rattle.hex.specs.Hex.{IsBytes};
ghost use Rattle.zb_text.specs.Fields.{is_name};
ghost use Rattle.zb_text.specs.Words.{left, field, Takes, Shows};
ghost use Rattle.zb_trace.specs.Text as spec;
ghost use Rattle.zb_trace.specs.Text.{Chosen, CalledOrNobody, Address, ShortAddress, Secret, Octet, Octets, AllOctets, counted, sequenced};
ghost use Rattle.zb_trace_read.specs.Grammar.{OneOf, ANameOrDash, AnAddress, AShort, AKey, AByte, SomeBytes, AllBytes, a_count, a_sequence, value_of, in_capitals, lacks_small};
ghost use Rattle.zb_base.specs.Limits.{longest_frame, greatest_count};

use zb_base::{
    Attribute, Eui, Frame, Key, Label, Layer, Name, Place, Role, Rollover, Short, State,
};
use zb_text::hexadecimal;
use zb_text::words::Words;

/// Reads a word as a role.
#[tactic(auto, using(crate::proofs::Choosing::role_field))]
pub(crate) fn role(reader: &mut Words<'_>) -> Option<Role>
    ensures { Takes (λ r. Chosen spec.roles (spec.role_text r)) result (left reader.new)
        (field (value_of (OneOf spec.roles)) (left reader.old)) }
{
    let role = reader.role()?;
    Some(role)
}

/// Reads a word as a layer.
#[tactic(auto, using(crate::proofs::Choosing::layer_field))]
pub(crate) fn layer(reader: &mut Words<'_>) -> Option<Layer>
    ensures { Takes (λ l. Chosen spec.layers (spec.layer_text l)) result (left reader.new)
        (field (value_of (OneOf spec.layers)) (left reader.old)) }
{
    let layer = reader.layer()?;
    Some(layer)
}

/// Reads a word as a label.
#[tactic(auto, using(crate::proofs::Choosing::label_field))]
pub(crate) fn label(reader: &mut Words<'_>) -> Option<Label>
    ensures { Takes (λ l. Chosen spec.labels (spec.label_text l)) result (left reader.new)
        (field (value_of (OneOf spec.labels)) (left reader.old)) }
{
    let label = reader.label()?;
    Some(label)
}

/// Reads a word as an attribute.
#[tactic(auto, using(crate::proofs::Choosing::attribute_field))]
pub(crate) fn attribute(reader: &mut Words<'_>) -> Option<Attribute>
    ensures { Takes (λ a. Chosen spec.attributes (spec.attribute_text a)) result (left reader.new)
        (field (value_of (OneOf spec.attributes)) (left reader.old)) }
{
    let attribute = reader.attribute()?;
    Some(attribute)
}

/// Reads a word as a state.
#[tactic(auto, using(crate::proofs::Choosing::state_field))]
pub(crate) fn state(reader: &mut Words<'_>) -> Option<State>
    ensures { Takes (λ s. Chosen spec.states (spec.state_text s)) result (left reader.new)
        (field (value_of (OneOf spec.states)) (left reader.old)) }
{
    let state = reader.state()?;
    Some(state)
}

/// Reads a word as a rollover.
#[tactic(auto, using(crate::proofs::Choosing::rollover_field))]
pub(crate) fn rollover(reader: &mut Words<'_>) -> Option<Rollover>
    ensures { Takes (λ r. Chosen spec.rollovers (spec.rollover_text r)) result (left reader.new)
        (field (value_of (OneOf spec.rollovers)) (left reader.old)) }
{
    let rollover = reader.rollover()?;
    Some(rollover)
}

/// Reads a word as a place.
#[tactic(auto, using(crate::proofs::Choosing::place_field))]
pub(crate) fn place(reader: &mut Words<'_>) -> Option<Place>
    ensures { Takes (λ p. Chosen spec.places (spec.place_text p)) result (left reader.new)
        (field (value_of (OneOf spec.places)) (left reader.old)) }
{
    let place = reader.place()?;
    Some(place)
}

/// Reads a word as an answer.
#[tactic(auto, using(crate::proofs::Choosing::answer_field))]
pub(crate) fn answer(reader: &mut Words<'_>) -> Option<bool>
    ensures { Takes (λ a. Chosen spec.answers (spec.answer_text a)) result (left reader.new)
        (field (value_of (OneOf spec.answers)) (left reader.old)) }
{
    let answer = reader.answer()?;
    Some(answer)
}

/// Reads a counter, a limit, or the number of a frame.
pub(crate) fn count(reader: &mut Words<'_>) -> Option<u32>
    ensures value { Takes (λ n. counted n) result (left reader.new) (field (value_of a_count) (left reader.old)) }
    ensures fits { IfSome result (λ n. n ≤ greatest_count) }
{
    reader.number(u32::MAX)
}

/// Reads the sequence number of a network key.
pub(crate) fn sequence(reader: &mut Words<'_>) -> Option<u8>
    ensures value { Takes (λ n. sequenced n) result (left reader.new) (field (value_of a_sequence) (left reader.old)) }
    ensures fits { IfSome result (λ n. n ≤ 255) }
{
    let number = reader.number(255)?;
    Some(number as u8)
}

/// Reads a word of hexadecimal digits, which must be in capital letters.
fn digits<'a>(reader: &mut Words<'a>) -> Option<&'a [u8]>
    ensures { Takes (λ word. word.now) result (left reader.new) (field (in_capitals Some) (left reader.old)) }
{
    let word = reader.word()?;
    if has_no_small_letter(word) {
        Some(word)
    } else {
        None
    }
}

/// Returns whether a word has no small letter. It checks all bytes without a branch, so many of them at once.
pub(crate) fn has_no_small_letter(word: &[u8]) -> bool
    ensures { result ≡ lacks_small word.now }
{
    let mut none = true;
    for byte in word {
        none = none & (*byte < b'a');
    }
    none
}

/// Reads an EUI.
pub(crate) fn eui(reader: &mut Words<'_>) -> Option<Eui>
    ensures value { Takes (λ e. Address e.0) result (left reader.new) (field (value_of AnAddress) (left reader.old)) }
    ensures fits { IfSome result (λ e. e.0 < 2 ^ 64) }
{
    let word = digits(reader)?;
    zb_text::fields::eui(word)
}

/// Reads a short address.
pub(crate) fn short(reader: &mut Words<'_>) -> Option<Short>
    ensures value { Takes (λ s. ShortAddress s.0) result (left reader.new)
        (field (value_of AShort) (left reader.old)) }
    ensures fits { IfSome result (λ s. s.0 < 2 ^ 16) }
{
    let word = digits(reader)?;
    zb_text::fields::short(word)
}

/// Reads a key.
pub(crate) fn key(reader: &mut Words<'_>) -> Option<Key>
    ensures value { Takes (λ k. Secret k.0) result (left reader.new) (field (value_of AKey) (left reader.old)) }
    ensures fits { IfSome result (λ k. IsBytes k.0 × (length k.0 ≡ 16)) }
{
    let word = digits(reader)?;
    zb_text::fields::key(word)
}

/// Reads the bytes of a frame, of a header or of a content.
pub(crate) fn some_bytes(reader: &mut Words<'_>) -> Option<Frame>
    ensures value { Takes
        (λ f. Octets longest_frame f.items) result (left reader.new)
        (field (value_of (SomeBytes longest_frame)) (left reader.old)) }
    ensures fits { IfSome result (λ f. IsBytes f.items × (length f.items ≤ longest_frame)) }
{
    let word = digits(reader)?;
    hexadecimal::bytes::<127>(word)
}

/// Reads a byte in two digits.
pub(crate) fn octet(reader: &mut Words<'_>) -> Option<u8>
    ensures value { Takes (λ b. Octet b) result (left reader.new) (field (value_of AByte) (left reader.old)) }
    ensures fits { IfSome result (λ b. b < 256) }
{
    let word = digits(reader)?;
    let [byte] = hexadecimal::fixed::<1>(word)?;
    Some(byte)
}

/// Reads the name of a frame's sender, or `-` for an outsider.
pub(crate) fn sender(reader: &mut Words<'_>) -> Option<Name>
    ensures value { Takes
        (λ n. CalledOrNobody n.bytes) result (left reader.new) (field (value_of ANameOrDash) (left reader.old)) }
    ensures fits { IfSome result (λ n. (is_name n.bytes ≡ true) ⊎ (n.bytes ≡ codes "-")) }
{
    let word = reader.word()?;
    if word == b"-".as_slice() {
        Name::from("-").ok()
    } else {
        zb_text::fields::name(word)
    }
}
