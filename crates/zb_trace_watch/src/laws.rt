//! Laws of the definitions, on functions that do nothing.
ghost use Rattle.std.specs.Prelude.{◌≡◌, List, Bool, true};
ghost use Rattle.zb_model.specs.Data.{Bytes};
ghost use Rattle.zb_model.specs.Lines.{Line};
ghost use Rattle.zb_model.specs.Secrets.{exposed, holds, terms_of};
ghost use Rattle.zb_model.specs.Tools.{Tools};
ghost use Rattle.zb_model_real.specs.Real.{real};
ghost use Rattle.zb_trace_watch.specs.Closure.{IsClosed};
ghost use Rattle.zb_trace_watch.specs.Standing.{FindKeys};

/// States that the exposed keys are the least set that is closed over a start.
///
/// They have the keys of the start. If they have the base key of a term, they have the key that it carries. They are
/// no more than any such set of keys has.
pub fn exposed_keys_are_the_least_closed_set()
    ensures covers { (tools : Tools) (h : List Line) (from : List Bytes) (k : Bytes) → holds from k ≡ true
        → holds (exposed tools h from) k ≡ true }
    ensures closed { (tools : Tools) (h : List Line) (from : List Bytes)
        → IsClosed tools (holds (exposed tools h from)) (terms_of h) }
    ensures least { (tools : Tools) (h : List Line) (from : List Bytes) (S : Bytes → Bool)
        → ((k : Bytes) → holds from k ≡ true → S k ≡ true) → IsClosed tools S (terms_of h)
        → (k : Bytes) → holds (exposed tools h from) k ≡ true → S k ≡ true }
{}

/// States that the watch over a transcript finds the keys that real commands and frames carry.
///
/// It finds no other keys in them.
pub fn the_watch_finds_the_keys_of_frames()
    ensures { FindKeys real }
{}
