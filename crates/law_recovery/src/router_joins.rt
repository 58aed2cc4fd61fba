//! A device joins through a router, event by event: the router reports its child, the centre answers in a Tunnel, and
//! the router relays the frame in it. Each law is the contract of a function with an empty body; docs/THEOREMS.md
//! says it in words.
ghost use Rattle.std.specs.Prelude.{◌≡◌, ℕ, false, length, true, Option, None, Some};
ghost use Rattle.law_answer_storable.specs.Storing.{OpensAsJudged};
ghost use Rattle.law_recovery.specs.CommandFrames.{DeliversCommands};
ghost use Rattle.law_recovery.specs.Exchanging.{ApsInRange, NwkInRange, Seals, StationsInRange, seals_now};
ghost use Rattle.law_recovery.specs.Meeting.{HasLink, HasNetwork, IsJoined};
ghost use Rattle.law_recovery.specs.Knowing.{MeetsKey};
ghost use Rattle.law_recovery.specs.Answering.{after_task, frame_of};
ghost use Rattle.law_recovery.specs.Joining.{AreIntroduced};
ghost use Rattle.law_recovery.specs.KeyFrames.{DeliversKeys, KeyFrame, KeyFrameInRange, key_bytes};
ghost use Rattle.law_recovery.specs.Rejoining.{answer_frame, why_not_taken};
ghost use Rattle.law_recovery.specs.Fronts.{Front, after_events};
ghost use Rattle.law_recovery.specs.KeyExchange.{EndsConfirmed, NothingStops};
ghost use Rattle.law_recovery.specs.Relaying.{AreRouted, IsRouting, why_no_report, why_no_tunnel, why_not_relayed};
ghost use Rattle.law_recovery.specs.Routed.{MayJoinThrough, RouteIsFree, routed_front, routed_joining_events};
ghost use Rattle.law_recovery.specs.RouterFrames.{DeliversRelays, relayed_frame, report_bytes, tunnel_bytes};
ghost use Rattle.zb_model.specs.Answer.{answer};
ghost use Rattle.zb_model.specs.Data.{Aps, Bytes, HasChild, Received};
ghost use Rattle.zb_model.specs.Fits.{keeps_rules};
ghost use Rattle.zb_model.specs.Play.{Schedule};
ghost use Rattle.zb_model.specs.Rules.{Setting};
ghost use Rattle.zb_model.specs.State.{LinkKey, NetKey, NodeState, active_row, current, next_counter};
ghost use Rattle.zb_model.specs.Tools.{Tools};

/// States that a router that is a member reports a child that joins.
///
/// The event is refused only if a counter has reached its end.
pub fn a_router_reports_its_child()
    ensures refused { (tools : Tools) (c r m : Setting) (t : NodeState) (key : Bytes) (sequence : ℕ) (link : Bytes)
        → AreRouted c r m → IsRouting t c.me.eui key sequence link
        → (answer tools r t (HasChild m.me.eui false)).refusal ≡ why_no_report t }
    ensures sent { (tools : Tools) (c r m : Setting) (t : NodeState) (key : Bytes) (sequence : ℕ) (link : Bytes)
        → AreRouted c r m → IsRouting t c.me.eui key sequence link → why_no_report t ≡ None
        → frame_of tools r t (HasChild m.me.eui false)
        ≡ Some (report_bytes tools c r m (seals_now t key sequence link)) }
{}

/// States that the centre answers a router's report in a Tunnel, and when it doesn't.
///
/// The Tunnel has the centre's active network key, sealed for the device.
pub fn the_centre_answers_a_report()
    ensures refused { (tools : Tools) → DeliversRelays tools → (c r m : Setting) (s : NodeState) (k : Seals)
        (net : NetKey) (draw : Option Bytes) → AreRouted c r m → StationsInRange c r → StationsInRange c m
        → NwkInRange k → ApsInRange k → keeps_rules s ≡ true → active_row s ≡ Some net
        → HasNetwork s k.key k.sequence → HasLink s r.me.eui k.link
        → (answer tools c s (Received (report_bytes tools c r m k) draw)).refusal
        ≡ why_no_tunnel s r.me.eui m.me.eui k }
    ensures sent { (tools : Tools) → DeliversRelays tools → (c r m : Setting) (s : NodeState) (k : Seals)
        (net : NetKey) (row : LinkKey) (draw : Option Bytes) → AreRouted c r m → StationsInRange c r
        → StationsInRange c m → NwkInRange k → ApsInRange k → keeps_rules s ≡ true → active_row s ≡ Some net
        → current s m.me.eui ≡ Some row → HasNetwork s k.key k.sequence → HasLink s r.me.eui k.link
        → why_no_tunnel s r.me.eui m.me.eui k ≡ None
        → frame_of tools c s (Received (report_bytes tools c r m k) draw)
        ≡ Some (tunnel_bytes tools c r (seals_now s net.key net.sequence k.link) (answer_frame c m s net row)) }
{}

/// States that a router relays the frame in the centre's Tunnel to a device, and when it doesn't.
///
/// The frame is that of the centre, except for the short address of its sender.
pub fn a_router_relays_a_network_key()
    ensures refused { (tools : Tools) → DeliversRelays tools → (c r m : Setting) (t : NodeState) (k : Seals)
        (f : KeyFrame) (draw : Option Bytes) → AreRouted c r m → StationsInRange c r → NwkInRange k
        → KeyFrameInRange f → f.device ≡ m.me.eui → HasNetwork t k.key k.sequence
        → (answer tools r t (Received (tunnel_bytes tools c r k f) draw)).refusal ≡ why_not_relayed t c.me.eui k }
    ensures sent { (tools : Tools) → DeliversRelays tools → (c r m : Setting) (t s : NodeState) (k : Seals)
        (net : NetKey) (row : LinkKey) (draw : Option Bytes) → AreRouted c r m → StationsInRange c r → NwkInRange k
        → KeyFrameInRange (answer_frame c m s net row) → HasNetwork t k.key k.sequence
        → why_not_relayed t c.me.eui k ≡ None
        → frame_of tools r t (Received (tunnel_bytes tools c r k (answer_frame c m s net row)) draw)
        ≡ Some (key_bytes tools (relayed_frame c r m s net row)) }
{}

/// States that a device that knocked takes the network key that a router relays, and when it doesn't.
///
/// Then it has joined, ready for the exchange of link keys.
pub fn a_device_takes_a_relayed_key()
    ensures refused { (tools : Tools) → DeliversKeys tools → (c r m : Setting) (s t : NodeState) → AreRouted c r m
        → StationsInRange c r → (l : AreIntroduced c m s t) → KeyFrameInRange (answer_frame c m s l.net l.row)
        → keeps_rules t ≡ true → (draw : Option Bytes)
        → (answer tools m t (Received (key_bytes tools (relayed_frame c r m s l.net l.row)) draw)).refusal
        ≡ why_not_taken t l.own (next_counter Aps s) l.net.key }
    ensures joined { (tools : Tools) → DeliversKeys tools → (c r m : Setting) (s t : NodeState) → AreRouted c r m
        → StationsInRange c r → (l : AreIntroduced c m s t) → KeyFrameInRange (answer_frame c m s l.net l.row)
        → keeps_rules t ≡ true → (draw : Option Bytes)
        → why_not_taken t l.own (next_counter Aps s) l.net.key ≡ None → MeetsKey t l.net.key l.net.sequence
        → IsJoined (after_task tools m t (Received (key_bytes tools (relayed_frame c r m s l.net l.row)) draw))
        c.me.eui l.net.key l.net.sequence l.row.key }
{}

/// States that after any lines a device that knocked joins through a router and ends confirmed by ten events.
///
/// The router is a member. This is so unless one of the named obstacles holds; those of the first four events are
/// stated for the first front.
pub fn a_device_joins_through_a_router_in_a_run()
    ensures { (tools : Tools) → DeliversKeys tools → DeliversRelays tools → DeliversCommands tools
        → OpensAsJudged tools → (w : Schedule) (x : Front) (c r d : ℕ) (router_link drawn : Bytes)
        → (may : MayJoinThrough w x c r d router_link)
        → RouteIsFree w x c r d router_link may.introduced.net.key may.introduced.net.sequence
        may.introduced.own → length drawn ≡ 16
        → NothingStops tools w (routed_front tools w x c r d) c d may.introduced.net.key may.introduced.net.sequence
        may.introduced.row.key drawn
        → EndsConfirmed w (after_events tools w x (routed_joining_events tools w x c r d)) c d
        may.introduced.net.key may.introduced.net.sequence drawn }
{}
