//! What is printed reads back as itself: laws of the definitions, each on a function with an empty body.

ghost use Rattle.std.specs.Prelude.{◌≡◌, ◌^◌, ◌<◌, ◌≤◌, ℕ, List, ◌∷◌, length, decimal, Some, true};
ghost use Rattle.std.specs.List.{AllByRecursion};
ghost use Rattle.std.specs.Str.Lines.{lines};
ghost use Rattle.hex.specs.Hex.{encode_upper, IsBytes};
ghost use Rattle.zb_text.specs.Choices.{role_of, role_text, layer_of, layer_text, label_of, label_text, attribute_of, attribute_text, state_of, state_text, rollover_of, rollover_text, place_of, place_text, answer_of, answer_text, IsBothWays};
ghost use Rattle.zb_text.specs.Fields.{is_name, name_of, eui_of, eui_text, short_of, short_text};
ghost use Rattle.zb_text.specs.Hexadecimal.{fixed_of, bytes_of, bytes_text};
ghost use Rattle.zb_text.specs.Numbers.{number_of};
ghost use Rattle.zb_text.specs.Pages.{IsWord, IsLine, line_of_words, page};
ghost use Rattle.zb_text.specs.Words.{words};

/// States that the lines of a page of lines are those lines.
#[tactic(auto, using(crate::proofs::ReadAgain::lines_again))]
pub fn printed_lines_read()
    ensures { (texts : List (List ℕ)) → AllByRecursion IsLine texts → lines (page texts) ≡ texts }
{}

/// States that the words of a line of words are those words, and that the line is a line.
#[tactic(auto, using(crate::proofs::ReadAgain::words_again, crate::proofs::ReadAgain::lines_of_words))]
pub fn printed_words_read()
    ensures reads { (word : List ℕ) (more : List (List ℕ)) → IsWord word → AllByRecursion IsWord more
        → words (Some (line_of_words (word ∷ more))) ≡ word ∷ more }
    ensures line { (texts : List (List ℕ)) → AllByRecursion IsWord texts → IsLine (line_of_words texts) }
{}

/// States that a number reads back as itself and is a word.
#[tactic(auto, using(crate::proofs::ReadAgain::number_again, crate::proofs::ReadAgain::decimal_words))]
pub fn printed_number_reads()
    ensures reads { (limit number : ℕ) → number ≤ limit → number < 2 ^ 64
        → number_of limit (decimal number) ≡ Some number }
    ensures word { (number : ℕ) → number < 2 ^ 64 → IsWord (decimal number) }
{}

/// States that a name reads back as itself and is a word.
#[tactic(auto, using(crate::proofs::ReadAgain::name_again, crate::proofs::ReadAgain::name_words))]
pub fn printed_name_reads()
    ensures reads { (name : List ℕ) → is_name name ≡ true → name_of name ≡ Some name }
    ensures word { (name : List ℕ) → is_name name ≡ true → IsWord name }
{}

/// States that an EUI reads back as itself and is a word.
#[tactic(auto, using(crate::proofs::ReadAgain::eui_again, crate::proofs::ReadAgain::eui_words))]
pub fn printed_eui_reads()
    ensures reads { (eui : ℕ) → eui < 2 ^ 64 → eui_of (eui_text eui) ≡ Some eui }
    ensures word { (eui : ℕ) → IsWord (eui_text eui) }
{}

/// States that a short address reads back as itself and is a word.
#[tactic(auto, using(crate::proofs::ReadAgain::short_again, crate::proofs::ReadAgain::short_words))]
pub fn printed_short_reads()
    ensures reads { (short : ℕ) → short < 2 ^ 16 → short_of (short_text short) ≡ Some short }
    ensures word { (short : ℕ) → IsWord (short_text short) }
{}

/// States that a fixed number of bytes, such as a key, read back as themselves and are a word.
#[tactic(auto, using(crate::proofs::ReadAgain::fixed_again, crate::proofs::ReadAgain::digit_words))]
pub fn printed_digits_read()
    ensures reads { (bytes : List ℕ) (count : ℕ) → length bytes ≡ count → IsBytes bytes
        → fixed_of count (encode_upper bytes) ≡ Some bytes }
    ensures word { (bytes : List ℕ) → IsBytes bytes → IsWord (encode_upper bytes) }
{}

/// States that any bytes, also none, read back as themselves and are a word.
#[tactic(auto, using(crate::proofs::ReadAgain::bytes_again, crate::proofs::ReadAgain::byte_words))]
pub fn printed_bytes_read()
    ensures reads { (limit : ℕ) (bytes : List ℕ) → length bytes ≤ limit → IsBytes bytes
        → bytes_of limit (bytes_text bytes) ≡ Some bytes }
    ensures word { (bytes : List ℕ) → IsBytes bytes → IsWord (bytes_text bytes) }
{}

/// States that the word for each of a few things, and no other word, reads back as that thing.
pub fn printed_choices_read()
    ensures role { IsBothWays role_text role_of }
    ensures layer { IsBothWays layer_text layer_of }
    ensures label { IsBothWays label_text label_of }
    ensures attribute { IsBothWays attribute_text attribute_of }
    ensures state { IsBothWays state_text state_of }
    ensures rollover { IsBothWays rollover_text rollover_of }
    ensures place { IsBothWays place_text place_of }
    ensures answer { IsBothWays answer_text answer_of }
{}
