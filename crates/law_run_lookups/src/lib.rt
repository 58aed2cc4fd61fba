//! Laws: what the rules of the policy look up is always there, and what a node sends may be sealed. Each law is the
//! contract of a function with an empty body; docs/THEOREMS.md says it in words.
#![tactic(auto)]

ghost use Rattle.std.specs.Prelude.{◌≡◌, ◌≤◌, ℕ, length, true, List, [], Option, Some, None};
ghost use Rattle.law_run_lookups.specs.FrameLayers.{OneSpent, SealedAt, command_layers, own_layers};
ghost use Rattle.law_run_lookups.specs.Granted.{Granted, HasNewest, HasRoom, IsSuited};
ghost use Rattle.law_run.specs.Events.{BeforeEach};
ghost use Rattle.law_run.specs.KeysApart.{KeysApart};
ghost use Rattle.law_run.specs.Opening.{Opens};
ghost use Rattle.law_tables_suffice.specs.Along.{NodesAllAlong, euis_differ};
ghost use Rattle.law_answer_storable.specs.Storing.{OpensAsJudged};
ghost use Rattle.zb_model.specs.Answer.{plan_of, refusal_of, sending_of};
ghost use Rattle.zb_model.specs.Commands.{Heard, take_command};
ghost use Rattle.zb_model.specs.Data.{Bytes, Command, CounterSpent, DoRoll, Move, NoDraw, Received, Task};
ghost use Rattle.zb_model.specs.Lines.{Line};
ghost use Rattle.zb_model.specs.OwnEvents.{own};
ghost use Rattle.zb_model.specs.Play.{Event, Schedule, setting_of, start, supply};
ghost use Rattle.zb_model.specs.Readings.{state_of};
ghost use Rattle.zb_model.specs.Rules.{Does, Sending, Setting, Stop};
ghost use Rattle.zb_model.specs.Schedules.{IsSchedule, most_nodes};
ghost use Rattle.zb_model.specs.State.{NodeState, is_centre};
ghost use Rattle.zb_model.specs.Tools.{Tools};
ghost use Rattle.law_run_lookups.specs.Carried.{answer_layers, carried};
ghost use Rattle.law_run_lookups.specs.Sealable.{SendsSealable};

/// States that rules find what they look up, before each event of a run.
///
/// - A router or device in Offered has an offered row of the centre.
/// - Each live device of the centre has a current row.
/// - No row of the centre has a key that is still to be drawn.
/// - The active key has a row, which has started.
///
/// So no rule refuses because one of these is missing.
pub fn rules_find_what_they_look_for()
    ensures { (tools : Tools) → Opens tools → (w : Schedule) → KeysApart w
        → BeforeEach (λ (h : List Line) (event : Event). (n : ℕ) → Granted w h n) tools w (start w) [] 1 w.events }
{}

/// States that the centre answers no-draw only if the supply is empty.
///
/// This covers a rollover and a frame, if the centre has what the rules look up.
pub fn no_draw_comes_where_the_supply_is_empty()
    ensures rollovers { (tools : Tools) (w : Schedule) (h : List Line) (n : ℕ) → Granted w h n
        → is_centre (setting_of w n).me.role ≡ true
        → refusal_of (plan_of tools (setting_of w n) (state_of h n) (DoRoll (supply w h))) ≡ Some NoDraw
        → supply w h ≡ None }
    ensures frames { (tools : Tools) (w : Schedule) (h : List Line) (n : ℕ) → Granted w h n
        → is_centre (setting_of w n).me.role ≡ true → (bytes : Bytes)
        → refusal_of (plan_of tools (setting_of w n) (state_of h n) (Received bytes (supply w h))) ≡ Some NoDraw
        → supply w h ≡ None }
{}

/// States that before each event of a run there is room for the floor of each declared sender.
///
/// This is so under each network key that a node may use, in a run with at most 64 nodes. So rows-full never occurs
/// at NWK, where only declared senders need a floor.
pub fn each_sender_has_room()
    ensures { (tools : Tools) → Opens tools → (w : Schedule) → length w.nodes ≤ most_nodes
        → BeforeEach (λ (h : List Line) (event : Event). (n : ℕ) → HasRoom w h n) tools w (start w) [] 1 w.events }
{}

/// States that a rule stops as counter-spent only if a layer of its frame is spent.
///
/// A layer is spent if its next counter is the greatest. `own_layers` and `command_layers` say at which layers the
/// frame of a rule is sealed, and what a rule sends is sealed at exactly these.
pub fn counter_spent_is_of_the_layers_of_the_frame()
    ensures own_events { (tools : Tools) (c : Setting) (s : NodeState) (task : Task)
        → own tools c s task ≡ Stop CounterSpent → OneSpent (own_layers c s task) s }
    ensures own_frames { (tools : Tools) (c : Setting) (s : NodeState) (task : Task) (moves : List Move)
        (send : Option Sending)
        → own tools c s task ≡ Does moves send → SealedAt (own_layers c s task) send }
    ensures commands { (tools : Tools) (c : Setting) (s : NodeState) (draw : Option Bytes) (m : Heard)
        (command : Command)
        → take_command tools c s draw m command ≡ Stop CounterSpent → OneSpent (command_layers command) s }
    ensures their_frames { (tools : Tools) (c : Setting) (s : NodeState) (draw : Option Bytes) (m : Heard)
        (command : Command) (moves : List Move) (send : Option Sending)
        → take_command tools c s draw m command ≡ Does moves send → SealedAt (command_layers command) send }
{}

/// States that no event of a node's own is refused as policy in a run.
///
/// That refusal is for an event that isn't for a node of its role, and a schedule has no such event
/// (`IsSchedule.roles`).
pub fn events_suit_the_role_of_their_node()
    ensures { (tools : Tools) (w : Schedule) → IsSchedule w
        → BeforeEach (IsSuited tools w) tools w (start w) [] 1 w.events }
{}

/// States that before each event of a run its node has a newest live network key.
///
/// This is so if its active key has a row. So a rollover under way, and the switch that ends it, find the key that
/// they send.
pub fn a_newest_key_is_there()
    ensures { (tools : Tools) → OpensAsJudged tools → (w : Schedule) → IsSchedule w → euis_differ w ≡ true
        → NodesAllAlong HasNewest tools w }
{}

/// States that before each event of a run, what any node would send may be sealed.
///
/// So neither the test in `out_of` nor a missing active row decides anything in a run: if a rule sends, a frame is
/// sent. This is true whatever the node is to do, for any schedule, and with any tools.
pub fn what_is_sent_may_be_sealed()
    ensures { (tools : Tools) (w : Schedule)
        → BeforeEach (λ (h : List Line) (event : Event). SendsSealable tools w h) tools w (start w) [] 1 w.events }
{}

/// States that a delivery is refused as counter-spent only if a layer of its answer is spent.
///
/// `carried` is the command whose rule answers the frame, and `answer_layers` the layers of what that rule sends: its
/// frame is sealed at exactly these. If the frame carries no command, counter-spent never occurs.
pub fn counter_spent_is_of_the_layers_of_what_answers()
    ensures refusals { (tools : Tools) (c : Setting) (s : NodeState) (bytes : Bytes) (draw : Option Bytes)
        → refusal_of (plan_of tools c s (Received bytes draw)) ≡ Some CounterSpent
        → OneSpent (answer_layers (carried tools c s bytes)) s }
    ensures frames { (tools : Tools) (c : Setting) (s : NodeState) (bytes : Bytes) (draw : Option Bytes)
        → SealedAt (answer_layers (carried tools c s bytes))
        (sending_of (plan_of tools c s (Received bytes draw)).outcome) }
{}
