//! Runs whose nodes are given other disks. Each law is the contract of a function with an empty body.
ghost use Rattle.std.specs.Prelude.{◌≡◌, ℕ, true, false, List, [], ◌∷◌, Option, Some};
ghost use Rattle.law_run_steps.specs.Conditions.{Condition, condition_of};
ghost use Rattle.law_run_steps.specs.Steps.{ComesTo, falls_at_boot, is_of};
ghost use Rattle.law_run_steps.specs.Swaps.{GivesNone, Stood, after_swap, swapped_lines, swapped_transcript};
ghost use Rattle.law_run_steps.specs.Turns.{event_turn, turn};
ghost use Rattle.zb_model.specs.Lines.{Boot, Line};
ghost use Rattle.zb_model.specs.Play.{Disk, Event, PowerOn, Schedule, step};
ghost use Rattle.zb_model.specs.State.{after_boot};
ghost use Rattle.zb_model.specs.Tools.{Tools};
ghost use Rattle.zb_model.specs.Transcript.{run_lines, transcript};

/// States that the turn of an event's node is the model's step, in the condition that lines give.
///
/// In any condition it keeps the node's setting.
pub fn a_turn_is_the_step()
    ensures same { (tools : Tools) (w : Schedule) (h : List Line) (ds : List Disk) (number n : ℕ) (event : Event)
        → is_of n event ≡ true → let t = event_turn tools w h (condition_of w h ds n) number event in
        ComesTo w h n (step tools w h ds number event) t.lines t.left }
    ensures keeps { (tools : Tools) (w : Schedule) (h : List Line) (x : Condition) (number : ℕ) (event : Event)
        → (event_turn tools w h x number event).left.setting ≡ x.setting }
{}

/// States that a run in which no disk is given is the model's.
pub fn without_swaps_a_run_is_the_models()
    ensures lines { (tools : Tools) (w : Schedule) (gifts : ℕ → Option Stood) → GivesNone gifts
        → swapped_lines tools w gifts ≡ run_lines tools w }
    ensures whole { (tools : Tools) (w : Schedule) (gifts : ℕ → Option Stood) → GivesNone gifts
        → swapped_transcript tools w gifts ≡ transcript tools w }
{}

/// States that a node without power boots with the state on the disk that it was given.
///
/// What was armed on its disk stays armed, and the next commit is counted from the entries on the new disk.
pub fn a_boot_reads_the_new_disk()
    ensures { (tools : Tools) (w : Schedule) (h : List Line) (x : Condition) (number n : ℕ) (s : Stood)
        → x.up ≡ false → falls_at_boot (after_swap (Some s) x) ≡ false
        → event_turn tools w h (after_swap (Some s) x) number (PowerOn n)
        ≡ turn (Boot number n ∷ []) (record x {
          up = true;
          state = after_boot s.state;
          commits = s.commits;
          disk = record { armed = x.disk.armed; both_open = false };
        }) }
{}
