//! Nothing wedges, in whole runs: the exchanges of law_recovery as events that follow the front of a run. Each law is
//! the contract of a function with an empty body; docs/THEOREMS.md says it in words.
ghost use Rattle.std.specs.Prelude.{◌≡◌, ℕ, false, length, true};
ghost use Rattle.law_answer_storable.specs.Storing.{OpensAsJudged};
ghost use Rattle.law_recovery.specs.CommandFrames.{DeliversCommands};
ghost use Rattle.law_recovery.specs.KeyFrames.{DeliversKeys};
ghost use Rattle.law_recovery.specs.Fronts.{CanRejoin, EndsRejoined, Front, IsReady};
ghost use Rattle.law_recovery.specs.Fronts.{after_event, after_events, rejoin_events};
ghost use Rattle.law_recovery.specs.Rollovers.{HasCounters, IsRolling, untold};
ghost use Rattle.law_recovery.specs.RunsJoining.{CanJoin, EndsJoined, join_events};
ghost use Rattle.law_recovery.specs.KeyExchange.{AreMet, EndsConfirmed, HaveJoined, IsNew, KeysInRange};
ghost use Rattle.law_recovery.specs.KeyExchange.{NothingStops, exchange_events, joined_front, joining_events};
ghost use Rattle.law_recovery.specs.Rolled.{EndsRolled, rollover_events};
ghost use Rattle.zb_model.specs.Data.{Bytes};
ghost use Rattle.zb_model.specs.Play.{NotArmed, PowerOn, Schedule, disk_of, setting_of};
ghost use Rattle.zb_model.specs.Readings.{is_up, state_of};
ghost use Rattle.zb_model.specs.State.{after_boot, is_centre};
ghost use Rattle.zb_model.specs.Tools.{Tools};

/// States that a node without power is ready after one boot, if nothing is armed on its disk.
pub fn a_boot_makes_a_node_ready()
    ensures { (tools : Tools) (w : Schedule) (x : Front) (n : ℕ) → is_up x.lines n ≡ false
        → (disk_of x.disks n).armed ≡ NotArmed
        → IsReady (after_event tools w x (PowerOn n)) n
        × (state_of (after_event tools w x (PowerOn n)).lines n ≡ after_boot (state_of x.lines n)) }
{}

/// States that after any lines a member rejoins by three events, unless one of the named obstacles holds.
///
/// The lines before may have any deliveries, losses, forged and injected frames, resets, stops and failures.
pub fn a_member_rejoins_in_a_run()
    ensures { (tools : Tools) → DeliversKeys tools → OpensAsJudged tools → (w : Schedule) (x : Front) (c d : ℕ)
        → CanRejoin w x c d → EndsRejoined (after_events tools w x (rejoin_events x c d)) c d }
{}

/// States that after any lines a rollover ends by a timer for each untold device, and a switch.
///
/// The centre has power with nothing armed. The only obstacle is a counter at its end.
pub fn a_rollover_ends_in_a_run()
    ensures { (tools : Tools) (w : Schedule) (x : Front) (c : ℕ) → is_centre (setting_of w c).me.role ≡ true
        → IsReady x c → IsRolling (state_of x.lines c)
        → HasCounters (state_of x.lines c) (length (untold (state_of x.lines c)))
        → EndsRolled (after_events tools w x (rollover_events c (length (untold (state_of x.lines c))))) c }
{}

/// States that after any lines a device that knocked joins by two events.
///
/// This is so unless one of the named obstacles holds. Then it has the network key. The exchange of link keys comes
/// later.
pub fn a_device_joins_in_a_run()
    ensures { (tools : Tools) → DeliversKeys tools → OpensAsJudged tools → (w : Schedule) (x : Front) (c d : ℕ)
        → CanJoin w x c d → EndsJoined (after_events tools w x (join_events x c d)) c d }
{}

/// States that after any lines a joined device is confirmed by six events.
///
/// This is so unless one of the named obstacles holds. It asks for a link key, keeps the offered key, proves it, and
/// gets its confirmation.
pub fn a_device_is_confirmed_in_a_run()
    ensures { (tools : Tools) → DeliversCommands tools → OpensAsJudged tools → (w : Schedule) (x : Front) (c d : ℕ)
        (key : Bytes) (sequence : ℕ) (link drawn : Bytes) → AreMet w x c d → HaveJoined w x c d key sequence link
        → KeysInRange key sequence link → length drawn ≡ 16 → NothingStops tools w x c d key sequence link drawn
        → EndsConfirmed w (after_events tools w x (exchange_events x c d)) c d key sequence drawn }
{}

/// States that a device that knocked ends confirmed by eight events, unless one of the named obstacles holds.
///
/// The centre's network key is new to it. At the end both have verified the key that the centre drew.
pub fn a_device_joins_and_is_confirmed_in_a_run()
    ensures { (tools : Tools) → DeliversKeys tools → DeliversCommands tools → OpensAsJudged tools → (w : Schedule)
        (x : Front) (c d : ℕ) (drawn : Bytes) → (can : CanJoin w x c d) → IsNew w x c d can → length drawn ≡ 16
        → NothingStops tools w (joined_front tools w x c d) c d can.introduced.net.key can.introduced.net.sequence
        can.introduced.row.key drawn
        → EndsConfirmed w (after_events tools w x (joining_events tools w x c d)) c d can.introduced.net.key
        can.introduced.net.sequence drawn }
{}
