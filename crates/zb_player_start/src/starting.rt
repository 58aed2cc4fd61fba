//! What the start lines of a schedule say. The function here says laws and does nothing.
ghost use Rattle.std.specs.Prelude.{◌≡◌, ℕ, Some, slice_get, true};
ghost use Rattle.zb_player_start.specs.Firsts.{begins_with};
ghost use Rattle.zb_model.specs.Play as model;
ghost use Rattle.zb_model.specs.Play.{start, stations};
ghost use Rattle.zb_model.specs.Readings.{commits_of, is_up, state_of};
ghost use Rattle.zb_model.specs.Rules.{centre_of};
ghost use Rattle.law_schedules.specs.Schedules.{schedule_of};
ghost use Rattle.zb_sched.specs.Schedules.{Schedule};
ghost use Rattle.zb_sched.specs.Valid.{IsSchedule};

use zb_keys::start_lines_give_the_first_state;

/// States that the start lines give each node the state in which it begins.
///
/// They say that all nodes have power, and that none committed.
pub fn start_lines_say_what_is_declared()
    ensures states { (p : Schedule) (me : ℕ) (m : model.Node) → IsSchedule p
        → slice_get (schedule_of p).nodes me ≡ Some m
        → state_of (start (schedule_of p)) m.station.eui ≡ begins_with (centre_of (stations (schedule_of p))) m }
    ensures powered { (w : model.Schedule) (n : ℕ) → is_up (start w) n ≡ true }
    ensures uncommitted { (w : model.Schedule) (n : ℕ) → commits_of (start w) n ≡ 0 }
{
    start_lines_give_the_first_state();
}
