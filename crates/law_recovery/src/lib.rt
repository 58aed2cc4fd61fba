//! Nothing wedges: what leads a node and its centre back from any state of a run. Each law is the contract of a
//! function with an empty body; docs/THEOREMS.md says it in words.
#![tactic(auto)]

mod key_exchange;
mod lost_frames;
mod readmission;
mod router_joins;
mod runs;

ghost use Rattle.std.specs.Prelude.{◌≡◌, ℕ, ◌<◌, ◌≤◌, ◌+◌, true, false, if◌then◌else◌, length, nat_lt};
ghost use Rattle.std.specs.Prelude.{Bool, Option, Some, None, is_none, is_some};
ghost use Rattle.law_answer_storable.specs.Storing.{OpensAsJudged};
ghost use Rattle.law_recovery.specs.Answering.{after_task, frame_of};
ghost use Rattle.law_recovery.specs.Joining.{AreIntroduced, Joins};
ghost use Rattle.law_recovery.specs.KeyFrames.{DeliversKeys, KeyFrameInRange, key_bytes};
ghost use Rattle.law_recovery.specs.Rejoining.{AreLinked, AreOfOneNetwork, HasRejoined, Rejoins, answer_frame};
ghost use Rattle.law_recovery.specs.Rejoining.{may_rejoin, rejoining, why_not_sent, why_not_taken};
ghost use Rattle.law_recovery.specs.Rejoining.{why_no_room, why_old};
ghost use Rattle.law_recovery.specs.Repeating.{AreTaken, repeated};
ghost use Rattle.law_recovery.specs.Rollovers.{EndsAfter, HasCounters, IsRolling, LacksCounters, SpentWithin, untold};
ghost use Rattle.zb_model.specs.Answer.{answer};
ghost use Rattle.zb_model.specs.Commands.{dropped_at};
ghost use Rattle.zb_model.specs.Data.{Aps, Bytes, DoKnock, DoRejoin, HasChild, Knocked, NoKey, Received, WrongState};
ghost use Rattle.zb_model.specs.Fits.{keeps_rules, live_net};
ghost use Rattle.zb_model.specs.Rules.{Setting, centre_of, has_joined};
ghost use Rattle.zb_model.specs.State.{LinkKey, NodeState, code_row, greatest_counter, is_centre, next_counter};
ghost use Rattle.zb_model.specs.Tools.{Tools};

pub use key_exchange::{
    a_device_is_confirmed, a_device_joins_for_the_exchange, a_device_proves_its_key,
    a_joined_device_asks_for_a_link_key, a_joined_device_keeps_an_offered_key,
    an_answer_leaves_a_node_steady, the_centre_confirms_a_proved_key,
    the_centre_confirms_its_key_again, the_centre_offers_a_link_key,
    the_centre_offers_its_key_again,
};
pub use lost_frames::{
    a_frame_that_comes_twice_is_stale, a_lost_frame_costs_a_repeat,
    a_lost_network_key_is_sent_again, a_stop_costs_a_repeat, a_stop_leaves_an_exchange,
    floors_are_less_than_a_block_above, frames_of_the_exchange_are_on_the_air,
    obstacles_are_seen_at_the_first_front, stale_answers_are_fewer_than_a_block,
    stale_rounds_are_fewer_than_a_block, stale_turns_are_fewer_than_a_block,
};
pub use readmission::{
    a_device_is_readmitted_in_a_run, a_device_joins_with_a_key_that_it_meets,
    a_device_knocks_for_its_code, the_centre_enters_a_code, the_centre_removes_a_device,
    what_is_refused_leaves_an_exchange,
};
pub use router_joins::{
    a_device_joins_through_a_router_in_a_run, a_device_takes_a_relayed_key,
    a_router_relays_a_network_key, a_router_reports_its_child, the_centre_answers_a_report,
};
pub use runs::{
    a_boot_makes_a_node_ready, a_device_is_confirmed_in_a_run,
    a_device_joins_and_is_confirmed_in_a_run, a_device_joins_in_a_run, a_member_rejoins_in_a_run,
    a_rollover_ends_in_a_run,
};

/// States that a rollover ends after one timer for each untold device, and one switch.
///
/// None of these events is refused, whatever the state. The only obstacle is a counter at its end.
pub fn a_rollover_ends()
    ensures { (tools : Tools) (c : Setting) (s : NodeState) → is_centre c.me.role ≡ true → IsRolling s
        → HasCounters s (length (untold s)) → EndsAfter tools c (length (untold s)) s }
{}

/// States that a rollover stops at an event that is refused as counter-spent, if too few counters are left.
///
/// So a counter at its end is the only obstacle, and it always is one.
pub fn a_rollover_stops_at_a_spent_counter()
    ensures { (tools : Tools) (c : Setting) (s : NodeState) → is_centre c.me.role ≡ true → IsRolling s
        → LacksCounters s (length (untold s)) → SpentWithin tools c (length (untold s)) s }
{}

/// States that a member that rejoins waits for a network key afterwards, and nothing else changes.
///
/// A node that hasn't joined is refused as wrong-state. So is one that already waits, and it still waits.
pub fn a_member_asks_to_rejoin()
    ensures waits { (tools : Tools) (m : Setting) (t : NodeState) → is_centre m.me.role ≡ false
        → may_rejoin t ≡ true → after_task tools m t DoRejoin ≡ rejoining t }
    ensures refused { (tools : Tools) (m : Setting) (t : NodeState) → is_centre m.me.role ≡ false
        → (answer tools m t DoRejoin).refusal ≡ (if has_joined t.state then None else Some WrongState) }
{}

/// States that the centre sends its active network key to a child, and when it doesn't.
pub fn the_centre_answers_a_child()
    ensures refused { (tools : Tools) (c : Setting) (s : NodeState) (device : ℕ) (rejoin : Bool)
        → is_centre c.me.role ≡ true
        → (answer tools c s (HasChild device rejoin)).refusal ≡ why_not_sent s device }
    ensures sent { (tools : Tools) (c m : Setting) (s t : NodeState) → AreOfOneNetwork c m
        → (l : AreLinked c m s t) → why_not_sent s m.me.eui ≡ None → (rejoin : Bool)
        → frame_of tools c s (HasChild m.me.eui rejoin) ≡ Some (key_bytes tools (answer_frame c m s l.net l.row)) }
{}

/// States that a waiting member installs the network key that the centre sent, and when it doesn't.
///
/// If it installs the key, it is confirmed, and that key is active.
pub fn a_waiting_member_takes_the_network_key()
    ensures refused { (tools : Tools) → DeliversKeys tools → (c m : Setting) (s t : NodeState)
        → AreOfOneNetwork c m → (l : AreLinked c m s t) → KeyFrameInRange (answer_frame c m s l.net l.row)
        → keeps_rules t ≡ true → (draw : Option Bytes)
        → (answer tools m (rejoining t) (Received (key_bytes tools (answer_frame c m s l.net l.row)) draw)).refusal
        ≡ why_not_taken t l.own (next_counter Aps s) l.net.key }
    ensures taken { (tools : Tools) → DeliversKeys tools → OpensAsJudged tools → (c m : Setting) (s t : NodeState)
        → AreOfOneNetwork c m → (l : AreLinked c m s t) → KeyFrameInRange (answer_frame c m s l.net l.row)
        → keeps_rules t ≡ true → t.role ≡ m.me.role → may_rejoin t ≡ true → (draw : Option Bytes)
        → why_not_taken t l.own (next_counter Aps s) l.net.key ≡ None
        → HasRejoined (after_task tools m (rejoining t)
        (Received (key_bytes tools (answer_frame c m s l.net l.row)) draw)) l.net.key }
{}

/// States that a network key of which a member has a live row is refused only as stale.
///
/// So after the centre switched, a member that was told of the new key is refused neither as key-old nor as
/// keys-full.
pub fn a_live_key_is_taken()
    ensures { (t : NodeState) (row : LinkKey) (counter : ℕ) (key : Bytes) → keeps_rules t ≡ true
        → live_net key t ≡ true → row.kept ≤ counter → why_not_taken t row counter key ≡ None }
{}

/// States that a member rejoins by three events, unless one of the named obstacles holds.
///
/// It asks, its centre answers, and the frame that the centre sent is delivered to it.
pub fn a_member_rejoins()
    ensures { (tools : Tools) → DeliversKeys tools → OpensAsJudged tools → (c m : Setting) (s t : NodeState)
        → AreOfOneNetwork c m → (l : AreLinked c m s t) → KeyFrameInRange (answer_frame c m s l.net l.row)
        → keeps_rules t ≡ true → t.role ≡ m.me.role → may_rejoin t ≡ true → (draw : Option Bytes)
        → why_not_sent s m.me.eui ≡ None → why_not_taken t l.own (next_counter Aps s) l.net.key ≡ None
        → Rejoins tools c m s t draw }
{}

/// States that a stale answer costs a repeat, until the centre's counter has reached the member's floor.
///
/// A frame below the member's floor leaves the member as it was. Each answer raises the centre's counter by one.
pub fn a_stale_answer_is_repeated()
    ensures kept { (tools : Tools) → DeliversKeys tools → (c m : Setting) (s t : NodeState)
        → AreOfOneNetwork c m → (l : AreLinked c m s t) → KeyFrameInRange (answer_frame c m s l.net l.row)
        → keeps_rules t ≡ true → (draw : Option Bytes) → nat_lt (next_counter Aps s) l.own.kept ≡ true
        → after_task tools m (rejoining t)
        (Received (key_bytes tools (answer_frame c m s l.net l.row)) draw) ≡ rejoining t }
    ensures rejoined { (tools : Tools) → DeliversKeys tools → OpensAsJudged tools → (c m : Setting) (s t : NodeState)
        → AreOfOneNetwork c m → (l : AreLinked c m s t) → KeyFrameInRange (answer_frame c m s l.net l.row)
        → keeps_rules t ≡ true → t.role ≡ m.me.role → may_rejoin t ≡ true → (draw : Option Bytes)
        → why_not_sent s m.me.eui ≡ None
        → why_old (dropped_at 0 l.net.key t.nets) (why_no_room t l.net.key) ≡ None
        → (n : ℕ) → l.own.kept ≤ next_counter Aps s + n → next_counter Aps s + n < greatest_counter
        → AreTaken tools c m.me.eui n s × Rejoins tools c m (repeated tools c m.me.eui n s) t draw }
{}

/// States that a router or device with an install code's key knocks, and is knocked afterwards.
pub fn a_device_knocks()
    ensures refused { (tools : Tools) (m : Setting) (t : NodeState) → is_centre m.me.role ≡ false
        → (answer tools m t DoKnock).refusal
        ≡ (if is_none (code_row t (centre_of m.stations)) then Some NoKey else None) }
    ensures knocked { (tools : Tools) (m : Setting) (t : NodeState) → is_centre m.me.role ≡ false
        → is_some (code_row t (centre_of m.stations)) ≡ true → (after_task tools m t DoKnock).state ≡ Knocked }
{}

/// States that a device that knocked joins by two events, unless one of the named obstacles holds.
///
/// Its centre answers, and the frame that the centre sent is delivered to it. The exchange of link keys comes later.
pub fn a_device_joins()
    ensures refused { (tools : Tools) → DeliversKeys tools → (c m : Setting) (s t : NodeState)
        → AreOfOneNetwork c m → (l : AreIntroduced c m s t) → KeyFrameInRange (answer_frame c m s l.net l.row)
        → keeps_rules t ≡ true → (draw : Option Bytes)
        → (answer tools m t (Received (key_bytes tools (answer_frame c m s l.net l.row)) draw)).refusal
        ≡ why_not_taken t l.own (next_counter Aps s) l.net.key }
    ensures joined { (tools : Tools) → DeliversKeys tools → OpensAsJudged tools → (c m : Setting) (s t : NodeState)
        → AreOfOneNetwork c m → (l : AreIntroduced c m s t) → KeyFrameInRange (answer_frame c m s l.net l.row)
        → keeps_rules t ≡ true → t.role ≡ m.me.role → (draw : Option Bytes)
        → why_not_sent s m.me.eui ≡ None → why_not_taken t l.own (next_counter Aps s) l.net.key ≡ None
        → Joins tools c m s t draw }
{}
