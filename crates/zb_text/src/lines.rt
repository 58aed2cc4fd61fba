//! The lines of a text.

ghost use Rattle.std.specs.Prelude.{◌≡◌, ◌<◌, length, IfSome};
ghost use Rattle.std.specs.Str.Lines.{lines, strip_carriage_return};
ghost use Rattle.zb_text.specs.Words.{first_of, Shows};

use crate::words::cut;

/// Takes the first line off a text. Returns the line without its end, and the text after it, or None if nothing is
/// left.
#[tactic(auto, using(crate::proofs::LineCuts::lines_front, crate::proofs::LineCuts::lines_last))]
pub fn next_line(text: &[u8]) -> Option<(&[u8], &[u8])>
    ensures value { Shows (λ taken. (taken.0.now, lines taken.1.now)) result (first_of (lines text.now)) }
    ensures shorter { IfSome result (λ taken. length taken.1.now < length text.now) }
{
    match cut(text, b'\n') {
        Some((line, rest)) => Some((without_carriage_return(line), rest)),
        None if text.is_empty() => None,
        None => Some((text, &text[text.len()..])),
    }
}

fn without_carriage_return(line: &[u8]) -> &[u8]
    ensures { result.now ≡ strip_carriage_return line.now }
{
    match line.split_last() {
        Some((b'\r', front)) => front,
        _ => line,
    }
}
