//! What each event of a run makes of the condition of each node. Each law is the contract of a function with an
//! empty body.
#![tactic(auto)]

mod swaps;

ghost use Rattle.std.specs.List.{list_any};
ghost use Rattle.std.specs.Prelude.{◌≡◌, ℕ, ◌+◌, ◌++◌, length, true, false, List, Some, None, [], ◌∷◌};
ghost use Rattle.law_run_steps.specs.Conditions.{after_arming, after_reset, calls_by, condition_of};
ghost use Rattle.law_run_steps.specs.Steps.{ComesTo, IsAnswered, IsBooted, falls_on, forging, outside_step};
ghost use Rattle.law_run_steps.specs.Steps.{is_of, is_of_the_centre};
ghost use Rattle.zb_model.specs.Answer.{Answer, answer};
ghost use Rattle.zb_model.specs.Data.{AtEvent, Bytes, DoRoll, Down, Edit, Label, NoFrame, Reason};
ghost use Rattle.zb_model.specs.Data.{Received, Task, Term, WrongState};
ghost use Rattle.zb_model.specs.Frames.{aps_term, nwk_header, nwk_term, plain_frame};
ghost use Rattle.zb_model.specs.Frames.{sealed_command, secured_frame};
ghost use Rattle.zb_model.specs.Lines.{DownReset, Dump, Inject, Line, Refuse};
ghost use Rattle.zb_model.specs.Play.{ArmFail, ArmStop, Deliver, Event, ForgeNet, ForgeNetAps, ForgeOpen};
ghost use Rattle.zb_model.specs.Play.{InjectBytes, Own, PowerOn, Reset, RollOver, ShowRecord};
ghost use Rattle.zb_model.specs.Play.{Disk, FailAt, Schedule, Step, StopAfter, answer_step, boot_step};
ghost use Rattle.zb_model.specs.Play.{calls_for, disk_of, forged_control, frame_at, groups, new_disk};
ghost use Rattle.zb_model.specs.Play.{refused_step, setting_of, start, stations, step, supply};
ghost use Rattle.zb_model.specs.Readings.{air, commits_of, is_up, state_of, stations_of};
ghost use Rattle.zb_model.specs.Record.{record_of};
ghost use Rattle.zb_model.specs.Rules.{Setting};
ghost use Rattle.zb_model.specs.State.{NodeState, is_centre};
ghost use Rattle.zb_model.specs.Tools.{Tools};
ghost use Rattle.zb_model.specs.Transcript.{end_line, run_lines, transcript};

pub use swaps::{a_boot_reads_the_new_disk, a_turn_is_the_step, without_swaps_a_run_is_the_models};

/// States the result of an event that a node answers.
///
/// If no armed stop or failure hits its commit, its lines are the whole group, and the disks stay. Otherwise they are
/// the stored lines, and the line of the stop or failure.
pub fn an_answer_leads_on()
    ensures calls { (h : List Line) (n : ℕ) (es : List Edit) → calls_for h n es ≡ calls_by (commits_of h n) es }
    ensures answer { (w : Schedule) (h : List Line) (ds : List Disk) (number n : ℕ) (a : Answer) (g : Step)
        → g ≡ answer_step h ds number n a → IsAnswered w h number n a (condition_of w h ds n) g }
    ensures disks { (w : Schedule) (h : List Line) (ds : List Disk) (number n : ℕ) (a : Answer)
        → falls_on a (condition_of w h ds n) ≡ false → (answer_step h ds number n a).disks ≡ ds }
{}

/// States the results of a refusal, a boot, a reset, a dump and the arming of a disk.
pub fn other_steps_lead_on()
    ensures refusal { (w : Schedule) (h : List Line) (ds : List Disk) (number n : ℕ) (reason : Reason) (g : Step)
        → g ≡ refused_step ds number n reason
        → ComesTo w h n g (Refuse number n AtEvent reason ∷ []) (condition_of w h ds n) }
    ensures boot { (w : Schedule) (h : List Line) (ds : List Disk) (number n : ℕ) (g : Step)
        → g ≡ boot_step ds number n → is_up h n ≡ false → IsBooted w h number n (condition_of w h ds n) g }
    ensures reset { (tools : Tools) (w : Schedule) (h : List Line) (ds : List Disk) (number n : ℕ)
        → is_up h n ≡ true
        → ComesTo w h n (step tools w h ds number (Reset n)) (DownReset number n ∷ [])
        (after_reset (condition_of w h ds n)) }
    ensures dump { (tools : Tools) (w : Schedule) (h : List Line) (ds : List Disk) (number n : ℕ)
        → ComesTo w h n (step tools w h ds number (ShowRecord n)) (Dump number n (record_of (state_of h n)) ∷ [])
        (condition_of w h ds n) }
    ensures stop { (tools : Tools) (w : Schedule) (h : List Line) (ds : List Disk) (number n calls : ℕ)
        (torn : Bytes)
        → ComesTo w h n (step tools w h ds number (ArmStop n calls torn)) []
        (after_arming (StopAfter calls torn) (condition_of w h ds n)) }
    ensures failure { (tools : Tools) (w : Schedule) (h : List Line) (ds : List Disk) (number n call : ℕ)
        → ComesTo w h n (step tools w h ds number (ArmFail n call)) []
        (after_arming (FailAt call) (condition_of w h ds n)) }
{}

/// States which step an event of a node with power is.
///
/// The node answers its own tasks, rollovers and frames.
pub fn a_node_with_power_answers()
    ensures own { (tools : Tools) (w : Schedule) (h : List Line) (ds : List Disk) (number n : ℕ) (task : Task)
        → is_up h n ≡ true
        → step tools w h ds number (Own n task)
        ≡ answer_step h ds number n (answer tools (setting_of w n) (state_of h n) task) }
    ensures roll { (tools : Tools) (w : Schedule) (h : List Line) (ds : List Disk) (number n : ℕ)
        → is_up h n ≡ true
        → step tools w h ds number (RollOver n)
        ≡ answer_step h ds number n (answer tools (setting_of w n) (state_of h n) (DoRoll (supply w h))) }
    ensures frame { (tools : Tools) (w : Schedule) (h : List Line) (ds : List Disk) (number frame n : ℕ)
        (bytes : Bytes)
        → is_up h n ≡ true → frame_at h frame ≡ Some bytes
        → step tools w h ds number (Deliver frame n)
        ≡ answer_step h ds number n (answer tools (setting_of w n) (state_of h n) (Received bytes (supply w h))) }
    ensures no_frame { (tools : Tools) (w : Schedule) (h : List Line) (ds : List Disk) (number frame n : ℕ)
        → is_up h n ≡ true → frame_at h frame ≡ None
        → step tools w h ds number (Deliver frame n) ≡ refused_step ds number n NoFrame }
    ensures boot { (tools : Tools) (w : Schedule) (h : List Line) (ds : List Disk) (number n : ℕ)
        → is_up h n ≡ true → step tools w h ds number (PowerOn n) ≡ refused_step ds number n WrongState }
{}

/// States which step an event of a node without power is.
///
/// The node refuses all but a boot.
pub fn a_node_without_power_refuses()
    ensures own { (tools : Tools) (w : Schedule) (h : List Line) (ds : List Disk) (number n : ℕ) (task : Task)
        → is_up h n ≡ false → step tools w h ds number (Own n task) ≡ refused_step ds number n Down }
    ensures roll { (tools : Tools) (w : Schedule) (h : List Line) (ds : List Disk) (number n : ℕ)
        → is_up h n ≡ false → step tools w h ds number (RollOver n) ≡ refused_step ds number n Down }
    ensures frame { (tools : Tools) (w : Schedule) (h : List Line) (ds : List Disk) (number frame n : ℕ)
        → is_up h n ≡ false → step tools w h ds number (Deliver frame n) ≡ refused_step ds number n Down }
    ensures reset { (tools : Tools) (w : Schedule) (h : List Line) (ds : List Disk) (number n : ℕ)
        → is_up h n ≡ false → step tools w h ds number (Reset n) ≡ refused_step ds number n Down }
    ensures boot { (tools : Tools) (w : Schedule) (h : List Line) (ds : List Disk) (number n : ℕ)
        → is_up h n ≡ false → step tools w h ds number (PowerOn n) ≡ boot_step ds number n }
{}

/// States which lines an event of the outside makes.
///
/// They are those of the frame that is put on the air. A forged frame is named by the terms that are sealed in it,
/// `t` at NWK and `inner` at APS.
pub fn the_outside_sends()
    ensures bytes { (tools : Tools) (w : Schedule) (h : List Line) (ds : List Disk) (number : ℕ) (bytes : Bytes)
        → step tools w h ds number (InjectBytes bytes)
        ≡ outside_step ds (Inject number (length (air h) + 1) bytes ∷ []) }
    ensures net { (tools : Tools) (w : Schedule) (h : List Line) (ds : List Disk)
        (number to from source sequence counter : ℕ) (key content : Bytes) (t : Term)
        → t ≡ nwk_term (forged_control tools content) to from source key sequence counter content
        → step tools w h ds number (ForgeNet to from source key sequence counter content)
        ≡ outside_step ds (forging h number (t ∷ []) (tools.wire t)) }
    ensures both { (tools : Tools) (w : Schedule) (h : List Line) (ds : List Disk)
        (number to from source sequence counter aps_counter : ℕ) (label : Label) (key base command : Bytes)
        (inner t : Term)
        → inner ≡ aps_term sealed_command label base source aps_counter command
        → t ≡ nwk_term secured_frame to from source key sequence counter (tools.wire inner)
        → step tools w h ds number (ForgeNetAps to from source key sequence counter label base aps_counter command)
        ≡ outside_step ds (forging h number (inner ∷ t ∷ []) (tools.wire t)) }
    ensures clear { (tools : Tools) (w : Schedule) (h : List Line) (ds : List Disk)
        (number to from source aps_counter : ℕ) (label : Label) (base command : Bytes) (inner : Term)
        → inner ≡ aps_term sealed_command label base source aps_counter command
        → step tools w h ds number (ForgeOpen to from source label base aps_counter command)
        ≡ outside_step ds (forging h number (inner ∷ []) (nwk_header plain_frame to from 0 ++ tools.wire inner)) }
{}

/// States that an event leaves the condition of every node but its own.
///
/// An event of the outside leaves the condition of all nodes.
pub fn other_nodes_are_spared()
    ensures { (tools : Tools) (w : Schedule) (h : List Line) (ds : List Disk) (number : ℕ) (act : Event) (m : ℕ)
        → is_of m act ≡ false → let g = step tools w h ds number act in
        condition_of w (h ++ g.lines) g.disks m ≡ condition_of w h ds m }
{}

/// States that the start lines declare the nodes of the schedule, and that no event declares one.
pub fn nodes_are_declared_at_the_start()
    ensures start { (w : Schedule) → stations_of (start w) ≡ stations w }
    ensures steps { (tools : Tools) (w : Schedule) (h : List Line) (ds : List Disk) (number : ℕ) (act : Event)
        → stations_of (h ++ (step tools w h ds number act).lines) ≡ stations_of h }
{}

/// States that every node starts with power, with no commit made and with nothing armed.
pub fn nodes_start_with_power()
    ensures power { (w : Schedule) (n : ℕ) → is_up (start w) n ≡ true }
    ensures commits { (w : Schedule) (n : ℕ) → commits_of (start w) n ≡ 0 }
    ensures disk { (n : ℕ) → disk_of [] n ≡ new_disk }
{}

/// States that a node which isn't the centre makes no change that the centre alone makes.
pub fn others_make_no_change_of_the_centre()
    ensures { (tools : Tools) (c : Setting) (s : NodeState) (task : Task)
        → is_centre c.me.role ≡ false → list_any is_of_the_centre (answer tools c s task).edits ≡ false }
{}

/// States how the lines of a run continue, event by event.
///
/// So a loop over the events has the invariant that the lines so far and the groups to come are the lines of the run.
pub fn a_run_goes_on()
    ensures begins { (tools : Tools) (w : Schedule)
        → start w ++ groups tools w (start w) [] 1 w.events ≡ run_lines tools w }
    ensures goes_on { (tools : Tools) (w : Schedule) (h : List Line) (ds : List Disk) (number : ℕ) (act : Event)
        (acts : List Event) → let g = step tools w h ds number act in
        h ++ groups tools w h ds number (act ∷ acts)
        ≡ (h ++ g.lines) ++ groups tools w (h ++ g.lines) g.disks (number + 1) acts }
    ensures ends { (tools : Tools) (w : Schedule) (h : List Line) (ds : List Disk) (number : ℕ)
        → h ++ groups tools w h ds number [] ≡ h }
    ensures group { (tools : Tools) (w : Schedule) (h : List Line) (ds : List Disk) (number : ℕ) (act : Event)
        (acts : List Event) → let g = step tools w h ds number act in
        groups tools w h ds number (act ∷ acts)
        ≡ g.lines ++ groups tools w (h ++ g.lines) g.disks (number + 1) acts }
    ensures transcript { (tools : Tools) (w : Schedule)
        → transcript tools w ≡ run_lines tools w ++ end_line tools (length w.events) (run_lines tools w) ∷ [] }
{}
