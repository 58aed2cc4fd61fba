//! A device that has the network key gets a link key of its own from its centre, event by event. It asks, the centre
//! offers a key, the device proves that it has it, and the centre confirms. Each law is the contract of a function
//! with an empty body; docs/THEOREMS.md says it in words.
ghost use Rattle.std.specs.Prelude.{◌≡◌, ℕ, ◌≤◌, true, false, length, Option, Some, None};
ghost use Rattle.law_answer_storable.specs.Storing.{OpensAsJudged};
ghost use Rattle.law_recovery.specs.CommandFrames.{DeliversCommands};
ghost use Rattle.law_recovery.specs.Exchanging.{ApsInRange, Confirms, NwkInRange, Offers, OffersAgain, Seals};
ghost use Rattle.law_recovery.specs.Exchanging.{confirmation_bytes, offer_bytes, proof_bytes, request_bytes};
ghost use Rattle.law_recovery.specs.Exchanging.{StationsInRange, StaysClosed, seals_now};
ghost use Rattle.law_recovery.specs.Meeting.{AreDeclared, HasBoth, HasLink, HasNetwork, HasOffer};
ghost use Rattle.law_recovery.specs.Meeting.{HasProved, IsConfirmed, IsJoined, IsOffered, IsSteady};
ghost use Rattle.law_recovery.specs.Obstacles.{why_no_confirmation, why_no_offer, why_no_offer_again};
ghost use Rattle.law_recovery.specs.Obstacles.{why_no_proof, why_no_request, why_not_confirmed, why_offer_not_kept};
ghost use Rattle.law_recovery.specs.Answering.{after_task, frame_of};
ghost use Rattle.law_recovery.specs.Joining.{AreIntroduced};
ghost use Rattle.law_recovery.specs.KeyFrames.{DeliversKeys, KeyFrameInRange, key_bytes};
ghost use Rattle.law_recovery.specs.Rejoining.{AreOfOneNetwork, answer_frame, why_not_taken};
ghost use Rattle.zb_model.specs.Answer.{answer};
ghost use Rattle.zb_model.specs.Data.{Aps, Bytes, DoTimer, Received, Task};
ghost use Rattle.zb_model.specs.Fits.{keeps_rules};
ghost use Rattle.zb_model.specs.Rules.{Setting};
ghost use Rattle.zb_model.specs.State.{NodeState, has_link, has_net, next_counter};
ghost use Rattle.zb_model.specs.Tools.{Tools};

/// States that a device that knocked joins, ready for the exchange, by a network key new to it.
///
/// It finds the network key by its sequence, has its centre's link key, and is offered no other link key.
pub fn a_device_joins_for_the_exchange()
    ensures { (tools : Tools) → DeliversKeys tools → (c m : Setting) (s t : NodeState) → AreOfOneNetwork c m
        → (l : AreIntroduced c m s t) → KeyFrameInRange (answer_frame c m s l.net l.row) → keeps_rules t ≡ true
        → (draw : Option Bytes) → why_not_taken t l.own (next_counter Aps s) l.net.key ≡ None
        → has_net l.net.key t.nets ≡ false
        → IsJoined (after_task tools m t (Received (key_bytes tools (answer_frame c m s l.net l.row)) draw))
        c.me.eui l.net.key l.net.sequence l.row.key }
{}

/// States that a joined device asks its centre for a link key, and stays joined.
///
/// The event is refused only if a counter has reached its end.
pub fn a_joined_device_asks_for_a_link_key()
    ensures refused { (tools : Tools) (c m : Setting) (t : NodeState) (key : Bytes) (sequence : ℕ) (link : Bytes)
        → AreDeclared c m → IsJoined t c.me.eui key sequence link
        → (answer tools m t DoTimer).refusal ≡ why_no_request t }
    ensures sent { (tools : Tools) (c m : Setting) (t : NodeState) (key : Bytes) (sequence : ℕ) (link : Bytes)
        → AreDeclared c m → IsJoined t c.me.eui key sequence link → why_no_request t ≡ None
        → frame_of tools m t DoTimer ≡ Some (request_bytes tools c m (seals_now t key sequence link)) }
    ensures stays { (tools : Tools) (c m : Setting) (t : NodeState) (key : Bytes) (sequence : ℕ) (link : Bytes)
        → AreDeclared c m → IsJoined t c.me.eui key sequence link
        → IsJoined (after_task tools m t DoTimer) c.me.eui key sequence link }
{}

/// States that the centre offers a new link key to a device that asks, and when it doesn't.
///
/// The device's request is delivered to the centre, which draws the key.
pub fn the_centre_offers_a_link_key()
    ensures refused { (tools : Tools) → DeliversCommands tools → (c m : Setting) (s : NodeState) (k : Seals)
        (draw : Option Bytes) → AreDeclared c m → StationsInRange c m → NwkInRange k → ApsInRange k
        → keeps_rules s ≡ true → HasNetwork s k.key k.sequence → HasLink s m.me.eui k.link
        → (answer tools c s (Received (request_bytes tools c m k) draw)).refusal ≡ why_no_offer s m.me.eui k draw }
    ensures offers { (tools : Tools) → DeliversCommands tools → (c m : Setting) (s : NodeState) (k : Seals)
        (draw : Option Bytes) → AreDeclared c m → StationsInRange c m → NwkInRange k → ApsInRange k
        → keeps_rules s ≡ true → HasNetwork s k.key k.sequence → HasLink s m.me.eui k.link
        → why_no_offer s m.me.eui k draw ≡ None
        → Offers tools c m s (after_task tools c s (Received (request_bytes tools c m k) draw)) k draw
        (frame_of tools c s (Received (request_bytes tools c m k) draw)) }
{}

/// States that the centre offers its key again to a device that repeats its request, and when it doesn't.
///
/// The offer was lost. The request opens under the current key, and not under the offered one.
pub fn the_centre_offers_its_key_again()
    ensures refused { (tools : Tools) → DeliversCommands tools → (c m : Setting) (s : NodeState) (k : Seals)
        (key : Bytes) (draw : Option Bytes) → AreDeclared c m → StationsInRange c m → NwkInRange k → ApsInRange k
        → keeps_rules s ≡ true → HasNetwork s k.key k.sequence → HasBoth s m.me.eui k.link key
        → StaysClosed tools m k key
        → (answer tools c s (Received (request_bytes tools c m k) draw)).refusal ≡ why_no_offer_again s m.me.eui k }
    ensures offers { (tools : Tools) → DeliversCommands tools → (c m : Setting) (s : NodeState) (k : Seals)
        (key : Bytes) (draw : Option Bytes) → AreDeclared c m → StationsInRange c m → NwkInRange k → ApsInRange k
        → keeps_rules s ≡ true → HasNetwork s k.key k.sequence → HasBoth s m.me.eui k.link key
        → StaysClosed tools m k key → why_no_offer_again s m.me.eui k ≡ None
        → OffersAgain tools c m s (after_task tools c s (Received (request_bytes tools c m k) draw)) k key
        (frame_of tools c s (Received (request_bytes tools c m k) draw)) }
{}

/// States that a joined device keeps the key that is offered to it, and when it doesn't.
///
/// The key is new to it: it has no row of the centre with that key. No frame is sent.
pub fn a_joined_device_keeps_an_offered_key()
    ensures refused { (tools : Tools) → DeliversCommands tools → (c m : Setting) (t : NodeState) (k : Seals)
        (key : Bytes) (draw : Option Bytes) → AreDeclared c m → StationsInRange c m → NwkInRange k → ApsInRange k
        → length key ≡ 16 → keeps_rules t ≡ true → IsJoined t c.me.eui k.key k.sequence k.link
        → has_link c.me.eui key t.links ≡ false
        → (answer tools m t (Received (offer_bytes tools c m k key) draw)).refusal
        ≡ why_offer_not_kept t c.me.eui k key }
    ensures keeps { (tools : Tools) → DeliversCommands tools → (c m : Setting) (t : NodeState) (k : Seals)
        (key : Bytes) (draw : Option Bytes) → AreDeclared c m → StationsInRange c m → NwkInRange k → ApsInRange k
        → length key ≡ 16 → keeps_rules t ≡ true → IsJoined t c.me.eui k.key k.sequence k.link
        → has_link c.me.eui key t.links ≡ false → why_offer_not_kept t c.me.eui k key ≡ None
        → IsOffered (after_task tools m t (Received (offer_bytes tools c m k key) draw))
        c.me.eui k.key k.sequence key }
    ensures silent { (tools : Tools) → DeliversCommands tools → (c m : Setting) (t : NodeState) (k : Seals)
        (key : Bytes) (draw : Option Bytes) → AreDeclared c m → StationsInRange c m → NwkInRange k → ApsInRange k
        → length key ≡ 16 → keeps_rules t ≡ true → IsJoined t c.me.eui k.key k.sequence k.link
        → has_link c.me.eui key t.links ≡ false → why_offer_not_kept t c.me.eui k key ≡ None
        → frame_of tools m t (Received (offer_bytes tools c m k key) draw) ≡ None }
{}

/// States that a device proves the key that was offered to it, and has the same offer afterwards.
///
/// The event is refused only if a NWK counter has reached its end.
pub fn a_device_proves_its_key()
    ensures refused { (tools : Tools) (c m : Setting) (t : NodeState) (key : Bytes) (sequence : ℕ) (link : Bytes)
        → AreDeclared c m → IsOffered t c.me.eui key sequence link
        → (answer tools m t DoTimer).refusal ≡ why_no_proof t }
    ensures sent { (tools : Tools) (c m : Setting) (t : NodeState) (key : Bytes) (sequence : ℕ) (link : Bytes)
        → AreDeclared c m → IsOffered t c.me.eui key sequence link → why_no_proof t ≡ None
        → frame_of tools m t DoTimer ≡ Some (proof_bytes tools c m (seals_now t key sequence link)) }
    ensures stays { (tools : Tools) (c m : Setting) (t : NodeState) (key : Bytes) (sequence : ℕ) (link : Bytes)
        → AreDeclared c m → IsOffered t c.me.eui key sequence link
        → IsOffered (after_task tools m t DoTimer) c.me.eui key sequence link }
{}

/// States that the centre confirms a key that a device proves, and when it doesn't.
///
/// It is the key that the centre offered.
pub fn the_centre_confirms_a_proved_key()
    ensures refused { (tools : Tools) → DeliversCommands tools → (c m : Setting) (s : NodeState) (k : Seals)
        (draw : Option Bytes) → AreDeclared c m → StationsInRange c m → NwkInRange k
        → HasNetwork s k.key k.sequence → HasOffer s m.me.eui k.link
        → (answer tools c s (Received (proof_bytes tools c m k) draw)).refusal ≡ why_no_confirmation s m.me.eui k }
    ensures confirms { (tools : Tools) → DeliversCommands tools → (c m : Setting) (s : NodeState) (k : Seals)
        (draw : Option Bytes) → AreDeclared c m → StationsInRange c m → NwkInRange k → keeps_rules s ≡ true
        → HasNetwork s k.key k.sequence → HasOffer s m.me.eui k.link → why_no_confirmation s m.me.eui k ≡ None
        → Confirms tools c m s (after_task tools c s (Received (proof_bytes tools c m k) draw)) k
        (frame_of tools c s (Received (proof_bytes tools c m k) draw)) }
{}

/// States that the centre confirms its key again to a device that repeats its proof, and when it doesn't.
///
/// The confirmation was lost. The centre has verified the key, and offers no other.
pub fn the_centre_confirms_its_key_again()
    ensures refused { (tools : Tools) → DeliversCommands tools → (c m : Setting) (s : NodeState) (k : Seals)
        (draw : Option Bytes) → AreDeclared c m → StationsInRange c m → NwkInRange k
        → HasNetwork s k.key k.sequence → HasProved s m.me.eui k.link
        → (answer tools c s (Received (proof_bytes tools c m k) draw)).refusal ≡ why_no_confirmation s m.me.eui k }
    ensures confirms { (tools : Tools) → DeliversCommands tools → (c m : Setting) (s : NodeState) (k : Seals)
        (draw : Option Bytes) → AreDeclared c m → StationsInRange c m → NwkInRange k
        → HasNetwork s k.key k.sequence → HasProved s m.me.eui k.link → why_no_confirmation s m.me.eui k ≡ None
        → Confirms tools c m s (after_task tools c s (Received (proof_bytes tools c m k) draw)) k
        (frame_of tools c s (Received (proof_bytes tools c m k) draw)) }
{}

/// States that a device is confirmed by the confirmation of its key, and when it isn't.
pub fn a_device_is_confirmed()
    ensures refused { (tools : Tools) → DeliversCommands tools → (c m : Setting) (t : NodeState) (k : Seals)
        (draw : Option Bytes) → AreDeclared c m → StationsInRange c m → NwkInRange k → ApsInRange k
        → IsOffered t c.me.eui k.key k.sequence k.link
        → (answer tools m t (Received (confirmation_bytes tools c m k) draw)).refusal
        ≡ why_not_confirmed t c.me.eui k }
    ensures confirmed { (tools : Tools) → DeliversCommands tools → (c m : Setting) (t : NodeState) (k : Seals)
        (draw : Option Bytes) → AreDeclared c m → StationsInRange c m → NwkInRange k → ApsInRange k
        → keeps_rules t ≡ true → IsOffered t c.me.eui k.key k.sequence k.link → why_not_confirmed t c.me.eui k ≡ None
        → IsConfirmed (after_task tools m t (Received (confirmation_bytes tools c m k) draw))
        c.me.eui k.key k.sequence k.link }
{}

/// States that a node keeps its role and the rules for records in each answer.
pub fn an_answer_leaves_a_node_steady()
    ensures { (tools : Tools) → OpensAsJudged tools → (c : Setting) (s : NodeState) (task : Task)
        → 1 ≤ c.me.in_block → IsSteady c s → IsSteady c (after_task tools c s task) }
{}
