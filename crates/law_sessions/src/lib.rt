//! What holds of all sessions on one store together, however often they are killed. Each law is the contract of a
//! function with an empty body.
#![tactic(auto)]

mod admin_runs;
mod deeds;
mod programs;

ghost use Rattle.std.specs.Prelude.{◌≡◌, ℕ, true, is_some, length, map, List, [], Option, Some, Ok};
ghost use Rattle.law_run.specs.Commanding.{OneCentre};
ghost use Rattle.law_sessions.specs.Hubs.{without_numbers};
ghost use Rattle.law_sessions.specs.Logs.{AllHaveSetting, HubHolds, IsHubOf, hub_log, log_on};
ghost use Rattle.law_sessions.specs.Making.{IsHeader, found_first, hub_of, hub_schedule};
ghost use Rattle.law_sessions.specs.Offers.{IsFree, IsUndrawn};
ghost use Rattle.law_sessions.specs.Sessions.{AreKept, AreSessions, NoneAgain, NoneTwice, Session, left_by_all, sealed_on, sessions_seal};
ghost use Rattle.zb_centre_store.specs.Makings.{first_tables};
ghost use Rattle.zb_centre_store.specs.Standing.{StandsAs, found_on};
ghost use Rattle.zb_live.specs.Shown.{event_lines};
ghost use Rattle.zb_live.specs.Living.{Found, fresh, served, setting_of};
ghost use Rattle.zb_model.specs.Answer.{Answer, answer, plan_of};
ghost use Rattle.zb_model.specs.Play.{Schedule, groups, start};
ghost use Rattle.zb_model.specs.Rules.{Setting};
ghost use Rattle.zb_model.specs.Schedules.{IsSchedule};
ghost use Rattle.zb_model.specs.Tools.{Tools};
ghost use Rattle.zb_model.specs.Claims.{AreApart, ConfirmLine, Each, Once, sealed_terms};
ghost use Rattle.zb_model.specs.Data.{Bytes, Received};
ghost use Rattle.zb_model.specs.State.{NodeState, after_boot, shown};
ghost use Rattle.zb_model_real.specs.Real.{real};
ghost use Rattle.zb_script.specs.Scripts.{Script};
ghost use Rattle.zb_centre_store.specs.Freshness.{HasUsed};
ghost use Rattle.zb_centre_store.specs.Skipping.{skipped};
ghost use Rattle.zb_stored_tables.specs.Stored.{IsKept};

pub use admin_runs::{
    no_counter_comes_twice_in_all_runs, no_counter_of_admin_comes_again_after_a_restore,
};
pub use deeds::{
    no_counter_comes_twice_in_a_life, no_counter_comes_twice_on_one_store,
    no_counter_is_accepted_twice_on_one_store, no_counter_is_accepted_twice_unless_it_was_undone,
};
use law_real_runs::only_confirmations_read_as_such;
pub use programs::{what_live_leaves_is_a_session, what_serve_leaves_is_a_run};
use zb_keys::start_lines_give_the_first_state;

/// States that the lines of an event have just the terms that its answer seals, in their order.
#[tactic(auto, using(crate::proofs::SealLines::event_seals_are))]
pub fn the_lines_of_an_event_have_its_seals()
    ensures { (event n frame : ℕ) (a : Answer) → sealed_terms (event_lines event n frame a) ≡ a.seals }
{}

/// States that no two terms that the centre seals in any sessions on one store take one counter.
///
/// So no two have one layer, one key and one counter; at the application support layer no two have one counter at all.
/// `image` is the store as the first session finds it, whatever it holds. A session is given by its lines that are
/// stored, and has a header of its own. The next one finds the tables that it left, as after a boot.
#[tactic(auto, using(crate::proofs::SessionLemmas::sessions_apart))]
pub fn no_counter_comes_twice_in_all_sessions()
    ensures { (image : List ℕ) (sessions : List (List Bytes)) → NoneTwice (sessions_seal (found_on image) sessions) }
{}

/// States that no two terms of any sessions on one store have one sealing key and one nonce.
///
/// The terms are those that the centre seals. This is the claim `Fresh` on the seal lines of a run, for the seals of
/// all sessions.
#[tactic(auto, using(crate::proofs::Stamps::nonces_apart))]
pub fn no_nonce_comes_twice_in_all_sessions()
    ensures { (image : List ℕ) (sessions : List (List Bytes))
        → AreApart real (sessions_seal (found_on image) sessions) }
{}

/// States that sessions after a restore take no counter again that the sessions before it took.
///
/// `lost` are the tables that those left, and `backup` earlier ones, below whose limits `lost` has come by at most
/// `by`. It holds at the application support layer, and under each network key of the backup.
#[tactic(auto, using(crate::proofs::SessionLemmas::sessions_apart_since))]
pub fn no_counter_comes_again_after_a_restore()
    ensures again { (image : List ℕ) (before since : List (List Bytes)) (by : ℕ) (backup lost : NodeState)
        → left_by_all (found_on image) before ≡ Ok (Some lost) → HasUsed by backup lost
        → NoneAgain backup (sessions_seal (found_on image) before)
        (sessions_seal (Ok (Some (skipped by backup))) since) }
    ensures since { (by : ℕ) (backup : NodeState) (since : List (List Bytes))
        → NoneTwice (sessions_seal (Ok (Some (skipped by backup))) since) }
{}

/// States that the log of a hub is its centre's part of a run of the model.
///
/// Left out are the numbers of events and frames, and what comes from outside (`without_numbers`). The hub is the node
/// `n` of a schedule `w` (`IsHubOf`): a reset and a boot begin each session, and each task is an event. A frame is put
/// on the air from outside, and comes with the key of its own line. The log has each line that represents a task, also
/// the last one of a session that was killed, which may not have been answered any more.
#[tactic(auto, using(crate::proofs::LogRuns::log_runs))]
pub fn the_log_of_a_hub_is_a_run()
    ensures { (w : Schedule) (n : ℕ) (found : Found) (sessions : List (List Bytes)) → IsHubOf w n found sessions
        → without_numbers (hub_log n found sessions) ≡ without_numbers (groups real w (start w) [] 1 w.events) }
{}

/// States what holds of the run of a hub.
///
/// Each group is the policy's answer to its event, with the counters that it must have. Over all sessions no two seals
/// have one key and nonce, no counter of a sender is accepted twice under one key, and only stored keys are confirmed.
/// The nodes are those that a schedule may have.
pub fn the_run_of_a_hub_holds()
    ensures { (w : Schedule) (n : ℕ) (found : Found) (sessions : List (List Bytes)) → IsHubOf w n found sessions
        → IsSchedule (record w { events = [] }) → HubHolds w }
{
    only_confirmations_read_as_such();
}

/// States that by its log a hub accepts no counter of a sender twice under one key.
///
/// It is the claim `Once` on the lines of the log, over all its sessions. The nodes are those that a schedule may
/// have.
#[tactic(auto, using(crate::proofs::LogClaims::log_once))]
pub fn a_hub_accepts_no_counter_twice()
    ensures { (w : Schedule) (n : ℕ) (found : Found) (sessions : List (List Bytes)) → IsHubOf w n found sessions
        → IsSchedule (record w { events = [] }) → Once (hub_log n found sessions) }
{}

/// States that by its log a hub confirms only keys that it stored before.
///
/// Before each Confirm-Key the log has the device's key as verified, then a commit, and nothing that took it back. The
/// log is without its numbers, which decide nothing. The nodes are those that a schedule may have.
pub fn a_hub_confirms_only_stored_keys()
    ensures { (w : Schedule) (n : ℕ) (found : Found) (sessions : List (List Bytes)) → IsHubOf w n found sessions
        → IsSchedule (record w { events = [] })
        → Each (ConfirmLine real n) [] (without_numbers (hub_log n found sessions)) }
{
    only_confirmations_read_as_such();
}

/// States that a hub whose store `init` made is a node of a schedule that can be written down.
///
/// Its nodes are those of the header, which all sessions have. The centre holds the network key of `init` at the
/// start. So what is claimed of a hub's log and of its run holds of it.
pub fn a_hub_that_init_made_is_a_node_of_a_schedule()
    ensures hub { (network : Script) (key : Bytes) (sessions : List (List Bytes)) → IsHeader network
        → AllHaveSetting (setting_of network) (found_first key) sessions
        → IsHubOf (hub_schedule network key sessions) (hub_of network) (found_first key) sessions }
    ensures nodes { (network : Script) (key : Bytes) (sessions : List (List Bytes)) → IsHeader network
        → IsSchedule (record (hub_schedule network key sessions) { events = [] }) }
    ensures one { (network : Script) (key : Bytes) (sessions : List (List Bytes)) → IsHeader network
        → OneCentre (hub_schedule network key sessions) }
{
    start_lines_give_the_first_state();
}

/// States that a store that `init` made is found with the first tables, which have the network key of `init`.
///
/// So a hub whose first session finds this image has the log and the run of the laws below.
pub fn what_init_makes_is_found_first()
    ensures { (key : Bytes) (image : List ℕ) → length key ≡ 16 → StandsAs (Some (first_tables key)) image
        → found_on image ≡ found_first key }
{}

/// States that the header of every session that was opened is one that a hub may have.
#[tactic(auto, using(crate::proofs::RuledSessions::session_header))]
pub fn a_header_that_was_opened_is_a_hubs()
    ensures { (image : List ℕ) (lines : List Bytes)
        → is_some (served (found_on image) lines fresh).after.tables ≡ true
        → IsHeader (served (found_on image) lines fresh).after.network }
{}

/// States that sessions on one disk have the log of their lines.
///
/// Each session begins on the image that the one before left, at its end or at a crash at any moment of it.
#[tactic(auto, using(crate::proofs::OnDisk::same_log))]
pub fn the_log_of_sessions_on_one_disk_is_that_of_their_lines()
    ensures { (n : ℕ) (image : List ℕ) (sessions : List Session) → AreSessions image sessions
        → log_on n image sessions ≡ hub_log n (found_on image) (map (λ (x : Session). x.lines) sessions) }
{}

/// States that an answer that draws no key is the same with any other key that may be drawn.
///
/// The frame's outcome neither draws the key that comes with it nor is refused because there is none, and no row of
/// the node has the other key. So such an answer doesn't tell which key of a supply came with its frame.
#[tactic(auto, using(crate::proofs::Offered::answer_same))]
pub fn a_key_that_is_not_drawn_decides_nothing()
    ensures { (tools : Tools) (c : Setting) (s : NodeState) (bytes : Bytes) (draw : Option Bytes) (key : Bytes)
        → IsFree s key → IsUndrawn (plan_of tools c s (Received bytes draw)).outcome
        → answer tools c s (Received bytes (Some key)) ≡ answer tools c s (Received bytes draw) }
{}

/// States that the next session finds what a session left, wherever that ended or was killed.
///
/// An image that represents these tables is found as these tables after a boot. The tables keep the rules for records
/// and the widths of a record, as those of every session do.
#[tactic(auto, using(crate::proofs::FoundAgain::found_again))]
pub fn what_a_session_leaves_is_found()
    ensures { (s : NodeState) (image : List ℕ) → IsKept s → StandsAs (Some s) image
        → found_on image ≡ Ok (Some (shown (after_boot s))) }
{}

/// States that the tables of every session keep the rules for records and the widths of a record.
///
/// The store may hold anything at first, and the lines may say anything.
#[tactic(auto, using(crate::proofs::RuledSessions::session_kept))]
pub fn the_tables_of_a_session_are_kept()
    ensures { (image : List ℕ) (lines : List Bytes) → AreKept (served (found_on image) lines fresh).after.tables }
{}

/// States that on one disk no two terms of any sessions take one counter.
///
/// Nor have two of them one sealing key and one nonce. Each session begins on the image that the one before left, at
/// its end or at a crash at any moment of it.
#[tactic(auto, using(crate::proofs::OnDisk::disk_apart, crate::proofs::OnDisk::disk_nonces_apart))]
pub fn no_counter_comes_twice_on_one_disk()
    ensures counters { (image : List ℕ) (sessions : List Session) → AreSessions image sessions
        → NoneTwice (sealed_on image sessions) }
    ensures nonces { (image : List ℕ) (sessions : List Session) → AreSessions image sessions
        → AreApart real (sealed_on image sessions) }
{}
