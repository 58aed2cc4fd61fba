//! What `play` writes is never called broken, and never refused, by `audit`; and of any text `audit` says one thing
//! alone. Each law is the contract of a function that does nothing; docs/THEOREMS.md says them in words.
#![tactic(auto)]

ghost use Rattle.zb_model.specs.Data.{Bytes};
ghost use Rattle.law_play_sound.specs.Played.{IsPlayedSound, IsPlayedText};
ghost use Rattle.law_play_sound.specs.Single.{HasOneAnswer};

use law_audit_sound::runs_are_sound;
use law_audit_text::lines_are_judged_by_their_words;
use law_run_text::the_text_of_a_run_reads_back;
use law_schedules::texts_read_as_schedules;

/// States that the text that `play` is to write for an input is sound, as `audit` judges it.
///
/// So `audit` of it writes the verdict that the end line of the transcript says. It doesn't where the text is longer
/// than the longest input, the source or the sink fails, or it runs out of memory.
pub fn what_is_played_is_sound(input: &[u8])
    ensures { (output : Bytes) → IsPlayedText input.now output → IsPlayedSound input.now output }
{
    texts_read_as_schedules(input);
    runs_are_sound();
    the_text_of_a_run_reads_back();
    lines_are_judged_by_their_words();
}

/// States that `audit` can say one thing alone of a text.
///
/// That is one of these three:
/// - The text is sound, with a verdict.
/// - It is broken at a line, by a claim.
/// - It has a first bad line.
///
/// No two of them hold of one text, and none holds in two ways.
pub fn a_text_has_one_answer()
    ensures { (text : Bytes) → HasOneAnswer text }
{
    lines_are_judged_by_their_words();
}
