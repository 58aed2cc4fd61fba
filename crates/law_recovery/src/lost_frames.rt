//! A lost frame only costs a repeat: how an exchange of link keys continues when frames are lost or repeated, or when
//! nodes are stopped. Each law is the contract of a function with an empty body; docs/THEOREMS.md says it in words.
ghost use Rattle.std.specs.Prelude.{◌≡◌, ◌<◌, ◌≤◌, ◌+◌, ◌-◌, ◌++◌, ℕ, suc, true, false, [], ◌∷◌, find, length};
ghost use Rattle.std.specs.Prelude.{List, Option, Some, reverse};
ghost use Rattle.std.specs.List.{AllByRecursion};
ghost use Rattle.law_answer_storable.specs.Storing.{OpensAsJudged};
ghost use Rattle.law_recovery.specs.CommandFrames.{DeliversCommands, IsCarried, NetFrame};
ghost use Rattle.law_recovery.specs.Meeting.{HasNetwork, IsSteady};
ghost use Rattle.law_recovery.specs.Rounds.{CameFrom, CameFromCentre, RejoinsLater, after_rounds};
ghost use Rattle.law_recovery.specs.Stale.{AreAnswersStale, AreStale, CameFromDevice, CameFromTheCentre};
ghost use Rattle.law_recovery.specs.Stale.{after_stale, after_stale_answers};
ghost use Rattle.law_recovery.specs.Stages.{AreFree, HaveCome, IsFree, Keys, Sends};
ghost use Rattle.law_recovery.specs.Stages.{asked_bytes, centre_seals, device_seals, told_bytes};
ghost use Rattle.law_recovery.specs.Stops.{AreInOrder, ComesToCentre, Happening, HaveKept, IsAnswered, IsInOrder};
ghost use Rattle.law_recovery.specs.Stops.{after_happening, after_happenings, heard_answer, kept_far};
ghost use Rattle.law_recovery.specs.Stops.{kept_far_all};
ghost use Rattle.law_recovery.specs.Turns.{Answered, Asking, Done, Far, Loses, Turn, after_turn, after_turns};
ghost use Rattle.law_recovery.specs.Turns.{far_after, far_after_all, unanswered_from};
ghost use Rattle.law_recovery.specs.Twice.{Hears, frame_bytes};
ghost use Rattle.law_recovery.specs.Waiting.{JoinsAgain};
ghost use Rattle.law_recovery.specs.Entering.{IsSpared};
ghost use Rattle.law_recovery.specs.Answering.{after_task};
ghost use Rattle.law_recovery.specs.KeyFrames.{DeliversKeys};
ghost use Rattle.law_recovery.specs.Fronts.{EndsRejoined, Front, IsReady, after_event};
ghost use Rattle.law_recovery.specs.RunsJoining.{CanJoin};
ghost use Rattle.law_recovery.specs.KeyExchange.{AreMet, EndsConfirmed, HaveJoined, IsNew, KeysInRange};
ghost use Rattle.law_recovery.specs.KeyExchange.{NothingStops, eui_of};
ghost use Rattle.law_recovery.specs.Foreseen.{IsForeseen};
ghost use Rattle.law_run_steps.specs.Conditions.{condition_of};
ghost use Rattle.law_run_steps.specs.Steps.{falls_on};
ghost use Rattle.zb_model.specs.Answer.{answer};
ghost use Rattle.zb_model.specs.Data.{Aps, Bytes, DoTimer, HasChild, Nwk, Received, Stale, Task};
ghost use Rattle.zb_model.specs.Play.{Deliver, Event, Own, Schedule, frame_at, setting_of};
ghost use Rattle.zb_model.specs.Readings.{air, is_up, state_of};
ghost use Rattle.zb_model.specs.Rules.{Setting};
ghost use Rattle.zb_model.specs.State.{LinkKey, NodeState, after_boot, applied_all, current, greatest_counter};
ghost use Rattle.zb_model.specs.State.{is_live_of, next_counter, sender_floor};
ghost use Rattle.zb_model.specs.Tools.{Tools};

/// States that a lost frame of the exchange of link keys costs a repeat of the device's timer.
///
/// It costs nothing else.
///
/// After a turn in which a frame is lost, the two nodes are at a stage from which the next turn continues. A refused
/// event between turns changes no stage, and neither does any event of another node.
pub fn a_lost_frame_costs_a_repeat()
    ensures turn { (tools : Tools) → DeliversCommands tools → OpensAsJudged tools → (w : Schedule) (x : Front)
        (c d : ℕ) (k : Keys) (far : Far) (turn : Turn) → KeysInRange k.network k.sequence k.link → length k.drawn ≡ 16
        → HaveCome w x c d k far → IsFree tools w x c d k far turn
        → HaveCome w (after_turn tools w c d x turn) c d k (far_after far turn) }
    ensures turns { (tools : Tools) → DeliversCommands tools → OpensAsJudged tools → (w : Schedule) (x : Front)
        (c d : ℕ) (k : Keys) (turns : List Turn) → KeysInRange k.network k.sequence k.link → length k.drawn ≡ 16
        → AreMet w x c d → HaveJoined w x c d k.network k.sequence k.link → far_after_all Asking turns ≡ Done
        → AreFree tools w c d k x Asking turns
        → EndsConfirmed w (after_turns tools w c d x turns) c d k.network k.sequence k.drawn }
    ensures enough { (before between : List Turn) → AllByRecursion Loses before → AllByRecursion Loses between
        → far_after_all Asking (before ++ Answered ∷ between ++ Answered ∷ []) ≡ Done }
{}

/// States that a device whose network key was lost can be sent it again.
///
/// The centre can repeat this until its APS counter reaches its end.
pub fn a_lost_network_key_is_sent_again()
    ensures { (tools : Tools) → OpensAsJudged tools → (w : Schedule) (x : Front) (c d : ℕ) (can : CanJoin w x c d)
        → IsNew w x c d can → next_counter Aps (state_of x.lines c) + 1 < greatest_counter
        → JoinsAgain w x (after_event tools w x (Own c (HasChild d false))) c d can }
{}

/// States that a stop and a boot set a node back in an exchange by at most one event.
///
/// The stop may be at any device call. Then the node is as far as before its event, or as far as after it.
pub fn a_stop_leaves_an_exchange()
    ensures before { (s : NodeState) → IsSpared s (after_boot s) }
    ensures after { (tools : Tools) (c : Setting) (s : NodeState) (task : Task)
        → IsSpared (after_task tools c s task) (after_boot (applied_all (answer tools c s task).edits s)) }
{}

/// States that a stop of either node during the exchange of link keys only costs repeats.
///
/// A node may be reset, booted, or stopped at any device call, at any event and any number of times. Both nodes stay
/// at their stage. When both have power and nothing is armed, turns continue from there.
pub fn a_stop_costs_a_repeat()
    ensures happening { (tools : Tools) → DeliversCommands tools → OpensAsJudged tools → (w : Schedule) (x : Front)
        (c d : ℕ) (k : Keys) (far : Far) (happening : Happening) → KeysInRange k.network k.sequence k.link
        → length k.drawn ≡ 16 → HaveKept w x c d k far → IsInOrder tools w x c d k far happening
        → HaveKept w (after_happening tools w c d x happening) c d k (kept_far tools w c d k x far happening) }
    ensures happenings { (tools : Tools) → DeliversCommands tools → OpensAsJudged tools → (w : Schedule) (x : Front)
        (c d : ℕ) (k : Keys) (far : Far) (happenings : List Happening) → KeysInRange k.network k.sequence k.link
        → length k.drawn ≡ 16 → HaveKept w x c d k far → AreInOrder tools w c d k x far happenings
        → HaveKept w (after_happenings tools w c d x happenings) c d k
        (kept_far_all tools w c d k x far happenings) }
    ensures ends { (tools : Tools) → DeliversCommands tools → OpensAsJudged tools → (w : Schedule) (x : Front)
        (c d : ℕ) (k : Keys) (happenings : List Happening) → KeysInRange k.network k.sequence k.link
        → length k.drawn ≡ 16 → AreMet w x c d → HaveJoined w x c d k.network k.sequence k.link
        → AreInOrder tools w c d k x Asking happenings → kept_far_all tools w c d k x Asking happenings ≡ Done
        → IsReady (after_happenings tools w c d x happenings) c
        → IsReady (after_happenings tools w c d x happenings) d
        → EndsConfirmed w (after_happenings tools w c d x happenings) c d k.network k.sequence k.drawn }
    ensures begins { (w : Schedule) (x : Front) (c d : ℕ) (k : Keys) (far : Far) → HaveCome w x c d k far
        → HaveKept w x c d k far }
    ensures goes_on { (w : Schedule) (x : Front) (c d : ℕ) (k : Keys) (far : Far) → HaveKept w x c d k far
        → IsReady x c → IsReady x d → HaveCome w x c d k far }
    ensures turns { (tools : Tools) → DeliversCommands tools → OpensAsJudged tools → (w : Schedule) (x : Front)
        (c d : ℕ) (k : Keys) (far : Far) (turns : List Turn) → KeysInRange k.network k.sequence k.link
        → length k.drawn ≡ 16 → HaveCome w x c d k far → AreFree tools w c d k x far turns
        → far_after_all far turns ≡ Done
        → EndsConfirmed w (after_turns tools w c d x turns) c d k.network k.sequence k.drawn }
{}

/// States that frames of the exchange are on the air and stay there, if no disk stops or fails.
///
/// The device's timer sends its frame, and the centre that receives it sends its own. Each is the next on the air.
pub fn frames_of_the_exchange_are_on_the_air()
    ensures asked { (tools : Tools) (w : Schedule) (x : Front) (c d : ℕ) (k : Keys) (far : Far)
        → HaveKept w x c d k far → Sends far (state_of x.lines d) → is_up x.lines d ≡ true
        → falls_on (answer tools (setting_of w d) (state_of x.lines d) DoTimer) (condition_of w x.lines x.disks d)
        ≡ false
        → frame_at (after_event tools w x (Own d DoTimer)).lines (length (air x.lines) + 1)
        ≡ Some (asked_bytes far tools w c d (device_seals far (state_of x.lines d) k)) }
    ensures told { (tools : Tools) → DeliversCommands tools → (w : Schedule) (x : Front) (c d : ℕ) (k : Keys)
        (far : Far) (frame : ℕ) (sealed : NodeState) → KeysInRange k.network k.sequence k.link
        → length k.drawn ≡ 16 → HaveKept w x c d k far → ComesToCentre tools w x c d k far frame sealed
        → is_up x.lines c ≡ true
        → falls_on (heard_answer tools w x c d k far sealed) (condition_of w x.lines x.disks c) ≡ false
        → frame_at (after_event tools w x (Deliver frame c)).lines (length (air x.lines) + 1)
        ≡ Some (told_bytes (unanswered_from far) tools w c d k
        (centre_seals (unanswered_from far) (state_of x.lines c) k)) }
    ensures stay { (tools : Tools) (w : Schedule) (x : Front) (event : Event) (frame : ℕ) (bytes : Bytes)
        → frame_at x.lines frame ≡ Some bytes
        → frame_at (after_event tools w x event).lines frame ≡ Some bytes }
{}

/// States how many stale rounds delay a member whose floor is above its centre's counter.
///
/// There are as many stale rounds as the floor is above the counter, and the next round succeeds. If all that the
/// member accepted under its link key came from its centre, there are fewer stale rounds than its incoming block.
pub fn stale_rounds_are_fewer_than_a_block()
    ensures rounds { (tools : Tools) → DeliversKeys tools → OpensAsJudged tools → (w : Schedule) (x : Front)
        (c d n : ℕ) → RejoinsLater w x c d n → EndsRejoined (after_rounds tools w c d (suc n) x) c d }
    ensures bounded { (w : Schedule) (x : Front) (c d n : ℕ) (later : RejoinsLater w x c d n)
        → CameFromCentre w x c d later.linked.own → n < (setting_of w d).me.in_block }
{}

/// States that the turns whose frames the centre refuses as stale are fewer than its incoming block.
///
/// This asks that all that the centre accepted from the device came from it. Both nodes keep their stage.
pub fn stale_turns_are_fewer_than_a_block()
    ensures fewer { (tools : Tools) → DeliversCommands tools → OpensAsJudged tools → (w : Schedule) (x : Front)
        (c d : ℕ) (k : Keys) (far : Far) (n : ℕ) → KeysInRange k.network k.sequence k.link → length k.drawn ≡ 16
        → HaveCome w x c d k far → CameFromDevice far w x c d k
        → AreStale tools w c d k far n x → n < (setting_of w c).me.in_block }
    ensures stays { (tools : Tools) → OpensAsJudged tools → (w : Schedule) (x : Front) (c d : ℕ) (k : Keys)
        (far : Far) (n : ℕ) → KeysInRange k.network k.sequence k.link → length k.drawn ≡ 16 → HaveCome w x c d k far
        → AreStale tools w c d k far n x → HaveCome w (after_stale tools w c d n x) c d k far }
{}

/// States that the turns whose answers the device refuses as stale are fewer than its incoming block.
///
/// This asks that all that the device accepted from the centre came from it. If the centre answered before, both
/// nodes keep their stage, so the next answer that isn't stale leads to the next stage.
pub fn stale_answers_are_fewer_than_a_block()
    ensures fewer { (tools : Tools) → DeliversCommands tools → OpensAsJudged tools → (w : Schedule) (x : Front)
        (c d : ℕ) (k : Keys) (far : Far) (n : ℕ) → KeysInRange k.network k.sequence k.link → length k.drawn ≡ 16
        → 1 ≤ (setting_of w d).me.in_block → HaveCome w x c d k far → CameFromTheCentre far w x c d k
        → AreAnswersStale tools w c d k far n x → n < (setting_of w d).me.in_block }
    ensures stays { (tools : Tools) → DeliversCommands tools → OpensAsJudged tools → (w : Schedule) (x : Front)
        (c d : ℕ) (k : Keys) (far : Far) (n : ℕ) → KeysInRange k.network k.sequence k.link → length k.drawn ≡ 16
        → HaveCome w x c d k far → IsAnswered far → AreAnswersStale tools w c d k far n x
        → HaveCome w (after_stale_answers tools w c d n x) c d k far }
{}

/// States that a floor is less than a block above its sender's next counter, if nobody forged.
///
/// All that the receiver accepted under that key came from the sender. The floor is that of a network key, of the
/// current link key, or of the link key that is tried first.
pub fn floors_are_less_than_a_block_above()
    ensures nwk { (w : Schedule) (x : Front) (a b : ℕ) (key : Bytes) (sequence : ℕ)
        → (h : HasNetwork (state_of x.lines b) key sequence) → CameFrom Nwk w x a b key
        → 1 ≤ (setting_of w b).me.in_block
        → (sender_floor (eui_of w a) h.found).kept - next_counter Nwk (state_of x.lines a)
        < (setting_of w b).me.in_block }
    ensures current { (w : Schedule) (x : Front) (a b : ℕ) (row : LinkKey)
        → current (state_of x.lines b) (eui_of w a) ≡ Some row → CameFrom Aps w x a b row.key
        → 1 ≤ (setting_of w b).me.in_block
        → row.kept - next_counter Aps (state_of x.lines a) < (setting_of w b).me.in_block }
    ensures tried { (w : Schedule) (x : Front) (a b : ℕ) (row : LinkKey)
        → find (is_live_of (eui_of w a)) (reverse (state_of x.lines b).links) ≡ Some row
        → CameFrom Aps w x a b row.key → 1 ≤ (setting_of w b).me.in_block
        → row.kept - next_counter Aps (state_of x.lines a) < (setting_of w b).me.in_block }
{}

/// States that a frame that a node has received is stale when it is repeated, and changes nothing.
///
/// The node still finds the frame's network key. Its floor of the sender is one above the frame's counter.
pub fn a_frame_that_comes_twice_is_stale()
    ensures refused { (tools : Tools) → OpensAsJudged tools → (c : Setting) (s : NodeState) (f : NetFrame)
        (content : Bytes) (draw again : Option Bytes) → 1 ≤ c.me.in_block → IsSteady c s → IsCarried tools f content
        → Hears c s f
        → HasNetwork (after_task tools c s (Received (frame_bytes tools f content) draw)) f.key f.sequence
        → (answer tools c (after_task tools c s (Received (frame_bytes tools f content) draw))
        (Received (frame_bytes tools f content) again)).refusal ≡ Some (Stale (f.counter + 1)) }
    ensures nothing { (tools : Tools) → OpensAsJudged tools → (c : Setting) (s : NodeState) (f : NetFrame)
        (content : Bytes) (draw again : Option Bytes) → 1 ≤ c.me.in_block → IsSteady c s → IsCarried tools f content
        → Hears c s f
        → HasNetwork (after_task tools c s (Received (frame_bytes tools f content) draw)) f.key f.sequence
        → after_task tools c (after_task tools c s (Received (frame_bytes tools f content) draw))
        (Received (frame_bytes tools f content) again)
        ≡ after_task tools c s (Received (frame_bytes tools f content) draw) }
{}

/// States that the obstacles of the exchange of link keys are known at the first front.
///
/// Nothing prevents its first three events there, and a counter is left for each frame that follows.
pub fn obstacles_are_seen_at_the_first_front()
    ensures { (tools : Tools) → DeliversCommands tools → OpensAsJudged tools → (w : Schedule) (x : Front) (c d : ℕ)
        (key : Bytes) (sequence : ℕ) (link drawn : Bytes) → AreMet w x c d → HaveJoined w x c d key sequence link
        → KeysInRange key sequence link → length drawn ≡ 16 → IsForeseen w x c d key sequence link drawn
        → NothingStops tools w x c d key sequence link drawn }
{}
