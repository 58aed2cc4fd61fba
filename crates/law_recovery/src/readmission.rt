//! A device is admitted again: its centre removes it, its code is entered, it knocks, and gets a link key of its own.
//! Each law is the contract of a function with an empty body; docs/THEOREMS.md says it in words.
ghost use Rattle.std.specs.Prelude.{◌≡◌, ℕ, false, length, true, Option, None, Some};
ghost use Rattle.law_answer_storable.specs.Storing.{OpensAsJudged};
ghost use Rattle.law_recovery.specs.CommandFrames.{DeliversCommands};
ghost use Rattle.law_recovery.specs.Meeting.{IsJoined};
ghost use Rattle.law_recovery.specs.Entering.{HasKnocked, IsEntered, IsRemoved, IsSpared, why_no_knock};
ghost use Rattle.law_recovery.specs.Entering.{why_not_entered, why_not_removed};
ghost use Rattle.law_recovery.specs.Knowing.{MeetsKey};
ghost use Rattle.law_recovery.specs.Readmitting.{CanReadmit, knocked_front, readmission_events};
ghost use Rattle.law_recovery.specs.Answering.{after_task};
ghost use Rattle.law_recovery.specs.Joining.{AreIntroduced};
ghost use Rattle.law_recovery.specs.KeyFrames.{DeliversKeys, KeyFrameInRange, key_bytes};
ghost use Rattle.law_recovery.specs.Rejoining.{AreOfOneNetwork, answer_frame, why_not_taken};
ghost use Rattle.law_recovery.specs.Fronts.{Front, after_events};
ghost use Rattle.law_recovery.specs.KeyExchange.{EndsConfirmed, NothingStops, joined_front};
ghost use Rattle.zb_model.specs.Answer.{answer};
ghost use Rattle.zb_model.specs.Data.{Aps, Bytes, DoKnock, DoProvision, DoRemove, Reason, Received, Task};
ghost use Rattle.zb_model.specs.Fits.{keeps_rules};
ghost use Rattle.zb_model.specs.Play.{Schedule};
ghost use Rattle.zb_model.specs.Rules.{Setting, centre_of};
ghost use Rattle.zb_model.specs.State.{LinkKey, NodeState, code_row, is_centre, is_live, next_counter};
ghost use Rattle.zb_model.specs.Tools.{Tools};

/// States that the centre removes a live device, and none of the device's rows is live then.
///
/// The active network key stays, and so does what the rule for a code looks up among the rows. If the centre itself
/// is the device's parent, nothing is sealed at APS.
pub fn the_centre_removes_a_device()
    ensures refused { (tools : Tools) (c : Setting) (s : NodeState) (device via : ℕ) → is_centre c.me.role ≡ true
        → (answer tools c s (DoRemove device via)).refusal ≡ why_not_removed s device }
    ensures removed { (tools : Tools) (c : Setting) (s : NodeState) (device via : ℕ) → is_centre c.me.role ≡ true
        → is_live s device ≡ true → IsRemoved s (after_task tools c s (DoRemove device via)) device }
    ensures counter { (tools : Tools) (c : Setting) (s : NodeState) (device : ℕ) → is_centre c.me.role ≡ true
        → is_live s device ≡ true → next_counter Aps (after_task tools c s (DoRemove device c.me.eui))
        ≡ next_counter Aps s }
{}

/// States that the centre enters the code of a device that isn't live, and when it doesn't.
///
/// Then the code's key is the device's current one, and no other is offered.
pub fn the_centre_enters_a_code()
    ensures refused { (tools : Tools) (c : Setting) (s : NodeState) (device : ℕ) (key : Bytes)
        → is_centre c.me.role ≡ true
        → (answer tools c s (DoProvision device key)).refusal ≡ why_not_entered s device key }
    ensures entered { (tools : Tools) (c : Setting) (s : NodeState) (device : ℕ) (key : Bytes)
        → is_centre c.me.role ≡ true → why_not_entered s device key ≡ None
        → IsEntered s (after_task tools c s (DoProvision device key)) device key }
{}

/// States that a device with the key of an install code knocks, whatever its state was before.
///
/// Then the row of its code is its current row of the centre, provisional, and no other key is offered.
pub fn a_device_knocks_for_its_code()
    ensures refused { (tools : Tools) (m : Setting) (t : NodeState) → is_centre m.me.role ≡ false
        → (answer tools m t DoKnock).refusal ≡ why_no_knock t (centre_of m.stations) }
    ensures knocked { (tools : Tools) (m : Setting) (t : NodeState) (code : LinkKey) → is_centre m.me.role ≡ false
        → keeps_rules t ≡ true → code_row t (centre_of m.stations) ≡ Some code
        → HasKnocked t (after_task tools m t DoKnock) (centre_of m.stations) code }
{}

/// States that a device that knocked joins, ready for the exchange, also by a key that it had before.
///
/// The network key is new to it, or it knows the key with the centre's sequence.
pub fn a_device_joins_with_a_key_that_it_meets()
    ensures { (tools : Tools) → DeliversKeys tools → (c m : Setting) (s t : NodeState) → AreOfOneNetwork c m
        → (l : AreIntroduced c m s t) → KeyFrameInRange (answer_frame c m s l.net l.row) → keeps_rules t ≡ true
        → (draw : Option Bytes) → why_not_taken t l.own (next_counter Aps s) l.net.key ≡ None
        → MeetsKey t l.net.key l.net.sequence
        → IsJoined (after_task tools m t (Received (key_bytes tools (answer_frame c m s l.net l.row)) draw))
        c.me.eui l.net.key l.net.sequence l.row.key }
{}

/// States that after any lines a device is admitted again by eleven events.
///
/// This is so unless one of the named obstacles holds. The centre removes the device if it is live, its code is
/// entered, and it knocks. Then it joins, and gets a link key of its own. All obstacles of the first five events are
/// stated for the first front.
pub fn a_device_is_readmitted_in_a_run()
    ensures { (tools : Tools) → DeliversKeys tools → DeliversCommands tools → OpensAsJudged tools → (w : Schedule)
        (x : Front) (c d : ℕ) (network : Bytes) (sequence : ℕ) (key drawn : Bytes)
        → CanReadmit w x c d network sequence key → length drawn ≡ 16
        → NothingStops tools w (joined_front tools w (knocked_front tools w x c d key) c d) c d network sequence key
        drawn
        → EndsConfirmed w (after_events tools w x (readmission_events tools w x c d key)) c d network sequence drawn }
{}

/// States that an event that a node refuses leaves the node as far in an exchange as it was.
///
/// So a frame that is refused because it is repeated, late or from elsewhere costs nothing but time.
pub fn what_is_refused_leaves_an_exchange()
    ensures { (tools : Tools) (c : Setting) (s : NodeState) (task : Task) (reason : Reason)
        → (answer tools c s task).refusal ≡ Some reason → IsSpared s (after_task tools c s task) }
{}
