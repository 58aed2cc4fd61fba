//! Nothing wedges, with real frames and for each schedule that a text gives. Each law is the contract of a function
//! with an empty body; docs/THEOREMS.md says it in words.
#![tactic(auto)]

ghost use Rattle.std.specs.Prelude.{◌≡◌, ◌<◌, ℕ, suc, ◌++◌, true, false, List};
ghost use Rattle.law_recovery.specs.CommandFrames.{DeliversCommands};
ghost use Rattle.law_recovery.specs.Rounds.{CameFromCentre};
ghost use Rattle.law_recovery.specs.Stages.{AreFree, Keys};
ghost use Rattle.law_recovery.specs.Stale.{AreAnswersStale, AreStale, CameFromDevice, CameFromTheCentre};
ghost use Rattle.law_recovery.specs.Stops.{AreInOrder, Happening, kept_far_all};
ghost use Rattle.law_recovery.specs.Turns.{Asking, Done, Far, Turn, far_after_all};
ghost use Rattle.law_recovery.specs.KeyFrames.{DeliversKeys};
ghost use Rattle.law_recovery.specs.Rejoining.{AreOfOneNetwork};
ghost use Rattle.law_recovery.specs.Readmitting.{knocked_front, readmission_events};
ghost use Rattle.law_real_recovery.specs.Exchanging.{MayExchange, MayJoin};
ghost use Rattle.law_real_recovery.specs.Readmitting.{MayReadmit};
ghost use Rattle.law_real_recovery.specs.Repeating.{MayGoOn, MayRejoinLater, happening_events};
ghost use Rattle.law_real_recovery.specs.Repeating.{round_events, turns_events};
ghost use Rattle.law_real_recovery.specs.Routing.{MayRoute};
ghost use Rattle.law_real_recovery.specs.Texts.{MayRejoin, first_front};
ghost use Rattle.law_recovery.specs.Fronts.{EndsRejoined, IsReady, after_events, rejoin_events};
ghost use Rattle.law_recovery.specs.KeyExchange.{EndsConfirmed, NothingStops, exchange_events, joined_front};
ghost use Rattle.law_recovery.specs.KeyExchange.{joining_events};
ghost use Rattle.law_recovery.specs.Routed.{RouteIsFree, routed_front, routed_joining_events};
ghost use Rattle.law_recovery.specs.RouterFrames.{DeliversRelays};
ghost use Rattle.law_schedules.specs.Schedules.{schedule_of};
ghost use Rattle.zb_model.specs.Data.{Bytes};
ghost use Rattle.zb_model.specs.Play.{Event, setting_of};
ghost use Rattle.zb_model.specs.Schedules.{Names};
ghost use Rattle.zb_model.specs.State.{is_centre};
ghost use Rattle.zb_model_real.specs.Real.{real};
ghost use Rattle.zb_sched.specs.Schedules.{Schedule};
ghost use Rattle.zb_sched.specs.Valid.{IsSchedule};

/// States that the real frame of a network key is read, opened and understood as it was sealed.
pub fn real_frames_deliver_keys()
    ensures { DeliversKeys real }
{}

/// States that the centre of a schedule and each other node of it are of one network.
///
/// Each knows the address of the other, and their short addresses differ.
pub fn nodes_of_a_schedule_are_of_one_network()
    ensures { (p : Schedule) → IsSchedule p → (c d : ℕ) → Names (schedule_of p) c → Names (schedule_of p) d
        → is_centre (setting_of (schedule_of p) c).me.role ≡ true
        → is_centre (setting_of (schedule_of p) d).me.role ≡ false
        → AreOfOneNetwork (setting_of (schedule_of p) c) (setting_of (schedule_of p) d) }
{}

/// States that a member rejoins at the end of each schedule's run, unless one of the named obstacles holds.
///
/// The schedule ends with the three events of the exchange, and may have any events before them: deliveries, losses,
/// forged and injected frames, resets, stops and failures.
pub fn a_member_rejoins_in_each_schedule()
    ensures { (p : Schedule) → IsSchedule p → (before : List Event) (c d : ℕ)
        → (schedule_of p).events
        ≡ before ++ rejoin_events (after_events real (schedule_of p) (first_front (schedule_of p)) before) c d
        → MayRejoin (schedule_of p) (after_events real (schedule_of p) (first_front (schedule_of p)) before) c d
        → EndsRejoined (after_events real (schedule_of p) (first_front (schedule_of p)) (schedule_of p).events) c d }
{}

/// States that the real frames of the exchange of link keys are understood as they were sealed.
///
/// They are read, opened and understood as sealed.
pub fn real_frames_deliver_commands()
    ensures { DeliversCommands real }
{}

/// States that a joined device is confirmed at the end of each schedule's run, unless a named obstacle holds.
///
/// The schedule ends with the six events of the exchange, and may have any events before them.
pub fn a_device_is_confirmed_in_each_schedule()
    ensures { (p : Schedule) → IsSchedule p → (before : List Event) (c d : ℕ) (key : Bytes) (sequence : ℕ)
        (link drawn : Bytes) → (schedule_of p).events
        ≡ before ++ exchange_events (after_events real (schedule_of p) (first_front (schedule_of p)) before) c d
        → MayExchange (schedule_of p) (after_events real (schedule_of p) (first_front (schedule_of p)) before) c d
        key sequence link
        → NothingStops real (schedule_of p) (after_events real (schedule_of p) (first_front (schedule_of p)) before)
        c d key sequence link drawn
        → EndsConfirmed (schedule_of p)
        (after_events real (schedule_of p) (first_front (schedule_of p)) (schedule_of p).events) c d
        key sequence drawn }
{}

/// States that a device that knocked ends confirmed at the end of each schedule's run, unless an obstacle holds.
///
/// The schedule ends with the eight events that begin with the centre's answer, and may have any events before them.
pub fn a_device_joins_and_is_confirmed_in_each_schedule()
    ensures { (p : Schedule) → IsSchedule p → (before : List Event) (c d : ℕ) (drawn : Bytes)
        → (schedule_of p).events
        ≡ before ++ joining_events real (schedule_of p)
        (after_events real (schedule_of p) (first_front (schedule_of p)) before) c d
        → (may : MayJoin (schedule_of p) (after_events real (schedule_of p) (first_front (schedule_of p)) before) c d)
        → NothingStops real (schedule_of p) (joined_front real (schedule_of p)
        (after_events real (schedule_of p) (first_front (schedule_of p)) before) c d) c d
        may.introduced.net.key may.introduced.net.sequence may.introduced.row.key drawn
        → EndsConfirmed (schedule_of p)
        (after_events real (schedule_of p) (first_front (schedule_of p)) (schedule_of p).events) c d
        may.introduced.net.key may.introduced.net.sequence drawn }
{}

/// States that a device is admitted again at the end of each schedule's run.
///
/// This is so unless one of the named obstacles holds. The schedule ends with the removal if the device is live, its
/// code, its knock, and the eight events of joining, and may have any events before them.
pub fn a_device_is_readmitted_in_each_schedule()
    ensures { (p : Schedule) → IsSchedule p → (before : List Event) (c d : ℕ) (network : Bytes) (sequence : ℕ)
        (key drawn : Bytes) → (schedule_of p).events
        ≡ before ++ readmission_events real (schedule_of p)
        (after_events real (schedule_of p) (first_front (schedule_of p)) before) c d key
        → MayReadmit (schedule_of p) (after_events real (schedule_of p) (first_front (schedule_of p)) before) c d
        network sequence key
        → NothingStops real (schedule_of p) (joined_front real (schedule_of p)
        (knocked_front real (schedule_of p)
        (after_events real (schedule_of p) (first_front (schedule_of p)) before) c d key) c d) c d
        network sequence key drawn
        → EndsConfirmed (schedule_of p)
        (after_events real (schedule_of p) (first_front (schedule_of p)) (schedule_of p).events) c d
        network sequence drawn }
{}

/// States that the real frames of a router's report and of a Tunnel are understood as they were sent.
///
/// They are read, opened and understood as sent.
pub fn real_frames_deliver_relays()
    ensures { DeliversRelays real }
{}

/// States that a device joins through a router and is confirmed at the end of each schedule's run.
///
/// The router is a member, and none of the named obstacles holds. The schedule ends with the ten events of this way
/// of joining, and may have any events before them.
pub fn a_device_joins_through_a_router_in_each_schedule()
    ensures { (p : Schedule) → IsSchedule p → (before : List Event) (c r d : ℕ) (router_link drawn : Bytes)
        → (schedule_of p).events
        ≡ before ++ routed_joining_events real (schedule_of p)
        (after_events real (schedule_of p) (first_front (schedule_of p)) before) c r d
        → (may : MayRoute (schedule_of p) (after_events real (schedule_of p) (first_front (schedule_of p)) before)
        c r d router_link)
        → RouteIsFree (schedule_of p)
        (after_events real (schedule_of p) (first_front (schedule_of p)) before) c r d router_link
        may.introduced.net.key may.introduced.net.sequence may.introduced.own
        → NothingStops real (schedule_of p) (routed_front real (schedule_of p)
        (after_events real (schedule_of p) (first_front (schedule_of p)) before) c r d) c d
        may.introduced.net.key may.introduced.net.sequence may.introduced.row.key drawn
        → EndsConfirmed (schedule_of p)
        (after_events real (schedule_of p) (first_front (schedule_of p)) (schedule_of p).events) c d
        may.introduced.net.key may.introduced.net.sequence drawn }
{}

/// States that each lost frame costs only a repeat at the end of each schedule's run.
///
/// The schedule ends with turns of the exchange of link keys that may lose any frame, and may have any events before.
pub fn lost_frames_cost_repeats_in_each_schedule()
    ensures { (p : Schedule) → IsSchedule p → (before : List Event) (c d : ℕ) (k : Keys) (turns : List Turn)
        → (schedule_of p).events
        ≡ before ++ turns_events real (schedule_of p) c d
        (after_events real (schedule_of p) (first_front (schedule_of p)) before) turns
        → MayExchange (schedule_of p) (after_events real (schedule_of p) (first_front (schedule_of p)) before) c d
        k.network k.sequence k.link
        → far_after_all Asking turns ≡ Done
        → AreFree real (schedule_of p) c d k
        (after_events real (schedule_of p) (first_front (schedule_of p)) before) Asking turns
        → EndsConfirmed (schedule_of p)
        (after_events real (schedule_of p) (first_front (schedule_of p)) (schedule_of p).events) c d
        k.network k.sequence k.drawn }
{}

/// States that stops during the exchange of link keys only cost repeats at the end of each schedule's run.
///
/// The schedule ends with an exchange of link keys in which nodes are reset, stopped at any device call and booted.
/// At its end both nodes have power, and nothing is armed.
pub fn stops_cost_repeats_in_each_schedule()
    ensures { (p : Schedule) → IsSchedule p → (before : List Event) (c d : ℕ) (k : Keys) (happenings : List Happening)
        → (schedule_of p).events ≡ before ++ happening_events c d happenings
        → MayExchange (schedule_of p) (after_events real (schedule_of p) (first_front (schedule_of p)) before) c d
        k.network k.sequence k.link
        → AreInOrder real (schedule_of p) c d k
        (after_events real (schedule_of p) (first_front (schedule_of p)) before) Asking happenings
        → kept_far_all real (schedule_of p) c d k
        (after_events real (schedule_of p) (first_front (schedule_of p)) before) Asking happenings ≡ Done
        → IsReady (after_events real (schedule_of p) (first_front (schedule_of p)) (schedule_of p).events) c
        → IsReady (after_events real (schedule_of p) (first_front (schedule_of p)) (schedule_of p).events) d
        → EndsConfirmed (schedule_of p)
        (after_events real (schedule_of p) (first_front (schedule_of p)) (schedule_of p).events) c d
        k.network k.sequence k.drawn }
{}

/// States that a member whose floor is above its centre's counter rejoins at the end of each schedule's run.
///
/// The schedule ends with as many stale rounds as the floor is above the counter, and one more round. The stale
/// rounds are fewer than the member's incoming block, if all that it accepted under its link key came from its
/// centre.
pub fn stale_rounds_end_in_each_schedule()
    ensures rounds { (p : Schedule) → IsSchedule p → (before : List Event) (c d n : ℕ)
        → (schedule_of p).events
        ≡ before ++ round_events real (schedule_of p) c d (suc n)
        (after_events real (schedule_of p) (first_front (schedule_of p)) before)
        → MayRejoinLater (schedule_of p)
        (after_events real (schedule_of p) (first_front (schedule_of p)) before) c d n
        → EndsRejoined (after_events real (schedule_of p) (first_front (schedule_of p)) (schedule_of p).events) c d }
    ensures bounded { (p : Schedule) → IsSchedule p → (before : List Event) (c d n : ℕ)
        → (may : MayRejoinLater (schedule_of p)
        (after_events real (schedule_of p) (first_front (schedule_of p)) before) c d n)
        → CameFromCentre (schedule_of p)
        (after_events real (schedule_of p) (first_front (schedule_of p)) before) c d may.linked.own
        → n < (setting_of (schedule_of p) d).me.in_block }
{}

/// States that stale turns are fewer than the incoming block of the node that refuses them, in each schedule's run.
///
/// After any events the two are at any stage of an exchange of link keys. Turn by turn the centre refuses the
/// device's frame as stale, or the device the centre's answer. All that the refusing node accepted from the other
/// came from it.
pub fn stale_turns_are_fewer_in_each_schedule()
    ensures at_centre { (p : Schedule) → IsSchedule p → (before : List Event) (c d : ℕ) (k : Keys) (far : Far) (n : ℕ)
        → MayGoOn (schedule_of p) (after_events real (schedule_of p) (first_front (schedule_of p)) before) c d k far
        → CameFromDevice far (schedule_of p)
        (after_events real (schedule_of p) (first_front (schedule_of p)) before) c d k
        → AreStale real (schedule_of p) c d k far n
        (after_events real (schedule_of p) (first_front (schedule_of p)) before)
        → n < (setting_of (schedule_of p) c).me.in_block }
    ensures at_device { (p : Schedule) → IsSchedule p → (before : List Event) (c d : ℕ) (k : Keys) (far : Far) (n : ℕ)
        → MayGoOn (schedule_of p) (after_events real (schedule_of p) (first_front (schedule_of p)) before) c d k far
        → CameFromTheCentre far (schedule_of p)
        (after_events real (schedule_of p) (first_front (schedule_of p)) before) c d k
        → AreAnswersStale real (schedule_of p) c d k far n
        (after_events real (schedule_of p) (first_front (schedule_of p)) before)
        → n < (setting_of (schedule_of p) d).me.in_block }
{}
