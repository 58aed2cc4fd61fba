//! The counters of whole runs: the transcript of a schedule is counted, and it is the only list of lines that is
//! lawful and counted. Each law is the contract of a function with an empty body; docs/THEOREMS.md says it in words.
#![tactic(auto)]

ghost use Rattle.std.specs.Prelude.{◌≡◌, ℕ, List};
ghost use Rattle.std.specs.List.{AllByRecursion};
ghost use Rattle.law_run_counters.specs.Counted.{Counted};
ghost use Rattle.law_run_counters.specs.Floors.{FloorOf, FloorsAreFor};
ghost use Rattle.law_run.specs.Opening.{Opens};
ghost use Rattle.zb_model.specs.Answer.{answer};
ghost use Rattle.zb_model.specs.Claims.{Lawful};
ghost use Rattle.zb_model.specs.Data.{Task};
ghost use Rattle.zb_model.specs.Lines.{Line};
ghost use Rattle.zb_model.specs.Play.{Schedule};
ghost use Rattle.zb_model.specs.Readings.{state_of};
ghost use Rattle.zb_model.specs.Rules.{Setting};
ghost use Rattle.zb_model.specs.Tools.{Tools};
ghost use Rattle.zb_model.specs.Transcript.{transcript};

/// States that in the transcript of each schedule every counter is the next.
///
/// Reserves, floors and starts are exactly where they must be, with the values that they must have. If a stop or
/// failure cuts a group short, this is true of the whole group.
pub fn transcripts_are_counted()
    ensures { (tools : Tools) → Opens tools → (w : Schedule) → Counted tools w (transcript tools w) }
{}

/// States that lines that are lawful and counted for a schedule are its transcript.
///
/// The policy and the counters together determine every byte.
pub fn lawful_and_counted_lines_are_the_transcript()
    ensures { (tools : Tools) → Opens tools → (w : Schedule) (lines : List Line) → Lawful tools w lines
        → Counted tools w lines
        → lines ≡ transcript tools w }
{}

/// States that no floor is more than one incoming block above the counter for which it was stored.
///
/// The block is that of the node. Each floor line is followed, in its event, by the accept line of that counter, or
/// by the stop or failure that cut the event short.
pub fn a_floor_is_at_most_one_block_above_its_counter()
    ensures { (tools : Tools) → Opens tools → (w : Schedule) → FloorsAreFor w (transcript tools w) }
{}

/// States that each floor that an answer stores is for a term that the answer accepts.
///
/// The term has the floor's layer, base key and source. The floor is at most the node's incoming block above its
/// counter. If a stop or failure cuts the event, the floor lines that are left are those of the whole answer.
pub fn floors_of_an_answer_are_for_what_it_accepts()
    ensures { (tools : Tools) → Opens tools → (c : Setting) (h : List Line) (n : ℕ) (task : Task)
        → AllByRecursion (FloorOf c.me.in_block (answer tools c (state_of h n) task).accepts)
        (answer tools c (state_of h n) task).edits }
{}
