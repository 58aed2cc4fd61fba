//! The lines of an answer, in their order, for whatever takes lines.
//!
//! A transcript takes all lines, and the page of a session only those that its log shows.
ghost use Rattle.std.specs.Prelude.{◌≡◌, ◌+◌, ◌≤◌, ◌<◌, ◌++◌, ◌∷◌, [], Bool, ℕ, List, Some, true, length, map, OnOk};
ghost use Rattle.zb_base.specs.Limits.{most_lines};
ghost use Rattle.zb_model.specs.Data.{Station};
ghost use Rattle.zb_model.specs.Lines.{Line as log_line, Accept as accept, Changed, Commit, Seal as seal, Send};
ghost use Rattle.zb_model.specs.Play.{change_lines, commit_lines, send_lines};
ghost use Rattle.zb_model_real.specs.Terms.{model_term};
ghost use Rattle.zb_node_types.specs.Changes.{edit, edits};
ghost use Rattle.zb_text.specs.Fields.{is_name};
ghost use Rattle.zb_trace_model.specs.AnswerLines.{AreOfCentre, IsSaid, answer_lines, frame_bytes, lines_of_edits, listed, most_answer_lines, most_stored_lines, outcome_lines, refused_lines};
ghost use Rattle.zb_trace_model.specs.Naming.{IsCalled};
ghost use Rattle.zb_trace_model.specs.Said.{IsOfCentre};

use crate::making::{accept_line, change_line, commit_line, refuse_line, seal_line};
use zb_base::{Frame, Name};
use zb_cursor::frame_from;
use zb_host::{Outcome, Plan};
use zb_node_types::{Change, Changes, Refusal};
use zb_seal::Term;
use zb_trace::Line;

/// Takes lines, one after the other.
///
/// A contract sees which lines it was told between two of its states, and how many lines it counted.
pub trait Teller {
    /// Why a line isn't taken.
    type Fault;

    /// The teller reads what lines say, beside printing their text: then names must be spelled as names.
    ghost reads: { Bool };

    /// Between the two states the teller was told these lines, of nodes that were declared before.
    ghost Tells: { List Station → List log_line → Self → Self → Type 0 };

    /// How many lines it counted.
    ghost told: { Self → ℕ };

    /// Takes a line that declares no node. Requires that the count of lines has room for one more.
    ///
    /// # Errors
    /// The teller's own fault, after which it isn't used further.
    fn tell(&mut self, line: &Line) -> Result<(), Self::Fault>
        requires { told self.old < most_lines }
        ensures tells { OnOk result ((known : List Station) (m : log_line) → IsSaid reads known line.now m
            → Tells known (m ∷ []) self.old self.new) }
        ensures told { OnOk result (told self.new ≤ told self.old + 1) };

    /// A teller that did nothing was told no lines.
    ghost nothing: { (known : List Station) (s : Self) → Tells known [] s s };

    /// Lines that were told one after the other were all told.
    ghost joined: { (known : List Station) (some more : List log_line) (a b c : Self) → Tells known some a b
        → Tells known more b c → Tells known (some ++ more) a c };
}

/// Where the lines of an answer belong: the event, the frame that it sends, and the node.
#[derive(Clone, Copy, Debug)]
pub struct Group {
    /// The number of the event.
    pub event: u32,
    /// The number of the frame.
    pub frame: u32,
    /// The node's name.
    pub node: Name,
}

/// Tells the lines of an answer: what was stored, and then what goes out.
///
/// Requires that the count of lines has room for 23 more.
///
/// # Errors
/// The teller's fault.
pub fn tell_answer<T: Teller>(
    to: &mut T,
    group: &Group,
    plan: &Plan<Outcome<Term, Refusal>>,
) -> Result<(), T::Fault>
    requires { T.told to.old + most_answer_lines ≤ most_lines }
    ensures tells { OnOk result ((known : List Station) (n : ℕ) → IsCalled known n group.now.node.bytes
        → (T.reads ≡ true → is_name group.now.node.bytes ≡ true) → AreOfCentre known n plan.now.changes.items
        → T.Tells known (answer_lines group.now.event n group.now.frame plan.now) to.old to.new) }
    ensures told { OnOk result (T.told to.new ≤ T.told to.old + most_answer_lines) }
{
    tell_stored(to, group, &plan.changes)?;
    tell_outcome(to, group, &plan.out)?;
    Ok(())
}

/// Tells what was stored of an answer: its changes, and a commit if there are any.
///
/// Requires that the count of lines has room for 17 more.
///
/// # Errors
/// The teller's fault.
pub fn tell_stored<T: Teller>(to: &mut T, group: &Group, changes: &Changes) -> Result<(), T::Fault>
    requires { T.told to.old + most_stored_lines ≤ most_lines }
    ensures tells { OnOk result ((known : List Station) (n : ℕ) → IsCalled known n group.now.node.bytes
        → AreOfCentre known n changes.now.items
        → T.Tells known (lines_of_edits group.now.event n (edits changes.now.items)) to.old to.new) }
    ensures told { OnOk result (T.told to.new ≤ T.told to.old + most_stored_lines) }
{
    tell_changes(to, group, changes.as_slice())?;
    if !changes.is_empty() {
        tell_commit(to, group)?;
    }
    Ok(())
}

fn tell_changes<T: Teller>(to: &mut T, group: &Group, changes: &[Change]) -> Result<(), T::Fault>
    requires { T.told to.old + length changes.now ≤ most_lines }
    ensures tells { OnOk result ((known : List Station) (n : ℕ) → IsCalled known n group.now.node.bytes
        → AreOfCentre known n changes.now
        → T.Tells known (change_lines group.now.event n (edits changes.now)) to.old to.new) }
    ensures told { OnOk result (T.told to.new ≤ T.told to.old + length changes.now) }
{
    for change in changes {
        tell_change(to, group, change)?;
    }
    Ok(())
}

// Tells a change. Each line has its place in a function of its own, so that a place is cleared only for a line.
#[tactic(auto, using(crate::proofs::AnswerLaws::said))]
fn tell_change<T: Teller>(to: &mut T, group: &Group, change: &Change) -> Result<(), T::Fault>
    requires { T.told to.old < most_lines }
    ensures tells { OnOk result ((known : List Station) (n : ℕ) → IsCalled known n group.now.node.bytes
        → IsOfCentre known n (edit change.now)
        → T.Tells known (Changed group.now.event n (edit change.now) ∷ []) to.old to.new) }
    ensures told { OnOk result (T.told to.new ≤ T.told to.old + 1) }
{
    to.tell(&change_line(group.event, group.node, *change))
}

// Tells that the changes are stored.
#[tactic(auto, using(crate::proofs::AnswerLaws::said))]
fn tell_commit<T: Teller>(to: &mut T, group: &Group) -> Result<(), T::Fault>
    requires { T.told to.old < most_lines }
    ensures tells { OnOk result ((known : List Station) (n : ℕ) → IsCalled known n group.now.node.bytes
        → T.Tells known (Commit group.now.event n ∷ []) to.old to.new) }
    ensures told { OnOk result (T.told to.new ≤ T.told to.old + 1) }
{
    to.tell(&commit_line(group.event, group.node))
}

// Tells what a node accepted, refused, sealed and sent, in this order.
fn tell_outcome<T: Teller>(
    to: &mut T,
    group: &Group,
    out: &Outcome<Term, Refusal>,
) -> Result<(), T::Fault>
    requires { T.told to.old + 6 ≤ most_lines }
    ensures tells { OnOk result ((known : List Station) (n : ℕ) → IsCalled known n group.now.node.bytes
        → (T.reads ≡ true → is_name group.now.node.bytes ≡ true)
        → T.Tells known (outcome_lines group.now.event n group.now.frame out.now) to.old to.new) }
    ensures told { OnOk result (T.told to.new ≤ T.told to.old + 6) }
{
    tell_accepted(to, group, &out.accepted_nwk)?;
    tell_accepted(to, group, &out.accepted_aps)?;
    tell_refused(to, group, out.refused)?;
    tell_sealed(to, group, &out.sealed_aps)?;
    tell_sealed(to, group, &out.sealed_nwk)?;
    tell_sent(to, group, &out.frame)?;
    Ok(())
}

fn tell_accepted<T: Teller>(to: &mut T, group: &Group, term: &Option<Term>) -> Result<(), T::Fault>
    requires { T.told to.old < most_lines }
    ensures tells { OnOk result ((known : List Station) (n : ℕ) → IsCalled known n group.now.node.bytes
        → T.Tells known (map (accept group.now.event n) (listed term.now)) to.old to.new) }
    ensures told { OnOk result (T.told to.new ≤ T.told to.old + 1) }
{
    match term {
        Some(term) => tell_accept(to, group, term),
        None => Ok(()),
    }
}

// Tells an accepted term.
#[tactic(auto, using(crate::proofs::AnswerLaws::said))]
fn tell_accept<T: Teller>(to: &mut T, group: &Group, term: &Term) -> Result<(), T::Fault>
    requires { T.told to.old < most_lines }
    ensures tells { OnOk result ((known : List Station) (n : ℕ) → IsCalled known n group.now.node.bytes
        → T.Tells known (accept group.now.event n (model_term term.now) ∷ []) to.old to.new) }
    ensures told { OnOk result (T.told to.new ≤ T.told to.old + 1) }
{
    to.tell(&accept_line(group.event, group.node, copied(term)))
}

fn tell_refused<T: Teller>(
    to: &mut T,
    group: &Group,
    refusal: Option<Refusal>,
) -> Result<(), T::Fault>
    requires { T.told to.old < most_lines }
    ensures tells { OnOk result ((known : List Station) (n : ℕ) → IsCalled known n group.now.node.bytes
        → T.Tells known (refused_lines group.now.event n refusal) to.old to.new) }
    ensures told { OnOk result (T.told to.new ≤ T.told to.old + 1) }
{
    match refusal {
        Some(refusal) => tell_refusal(to, group, refusal),
        None => Ok(()),
    }
}

// Tells a refusal.
#[tactic(auto, using(crate::proofs::AnswerLaws::said))]
fn tell_refusal<T: Teller>(to: &mut T, group: &Group, refusal: Refusal) -> Result<(), T::Fault>
    requires { T.told to.old < most_lines }
    ensures tells { OnOk result ((known : List Station) (n : ℕ) → IsCalled known n group.now.node.bytes
        → T.Tells known (refused_lines group.now.event n (Some refusal)) to.old to.new) }
    ensures told { OnOk result (T.told to.new ≤ T.told to.old + 1) }
{
    to.tell(&refuse_line(group.event, group.node, refusal))
}

fn tell_sealed<T: Teller>(to: &mut T, group: &Group, term: &Option<Term>) -> Result<(), T::Fault>
    requires { T.told to.old < most_lines }
    ensures tells { OnOk result ((known : List Station) (n : ℕ) → IsCalled known n group.now.node.bytes
        → T.Tells known (map (seal group.now.event n) (listed term.now)) to.old to.new) }
    ensures told { OnOk result (T.told to.new ≤ T.told to.old + 1) }
{
    match term {
        Some(term) => tell_seal(to, group, term),
        None => Ok(()),
    }
}

// Tells a sealed term.
#[tactic(auto, using(crate::proofs::AnswerLaws::said))]
fn tell_seal<T: Teller>(to: &mut T, group: &Group, term: &Term) -> Result<(), T::Fault>
    requires { T.told to.old < most_lines }
    ensures tells { OnOk result ((known : List Station) (n : ℕ) → IsCalled known n group.now.node.bytes
        → T.Tells known (seal group.now.event n (model_term term.now) ∷ []) to.old to.new) }
    ensures told { OnOk result (T.told to.new ≤ T.told to.old + 1) }
{
    to.tell(&seal_line(group.event, group.node, copied(term)))
}

fn tell_sent<T: Teller>(to: &mut T, group: &Group, frame: &Option<Frame>) -> Result<(), T::Fault>
    requires { T.told to.old < most_lines }
    ensures tells { OnOk result ((known : List Station) (n : ℕ) → IsCalled known n group.now.node.bytes
        → (T.reads ≡ true → is_name group.now.node.bytes ≡ true)
        → T.Tells known (send_lines group.now.event (Some n) group.now.frame (frame_bytes frame.now))
        to.old to.new) }
    ensures told { OnOk result (T.told to.new ≤ T.told to.old + 1) }
{
    match frame {
        Some(bytes) => tell_frame(to, group, bytes),
        None => Ok(()),
    }
}

// Tells the frame that goes on the air.
fn tell_frame<T: Teller>(to: &mut T, group: &Group, frame: &Frame) -> Result<(), T::Fault>
    requires { T.told to.old < most_lines }
    ensures tells { OnOk result ((known : List Station) (n : ℕ) → IsCalled known n group.now.node.bytes
        → (T.reads ≡ true → is_name group.now.node.bytes ≡ true)
        → T.Tells known (send_lines group.now.event (Some n) group.now.frame (Some frame.now.items))
        to.old to.new) }
    ensures told { OnOk result (T.told to.new ≤ T.told to.old + 1) }
{
    to.tell(&sent_line(group, frame))
}

// Makes the line of a frame that a node sends.
fn sent_line(group: &Group, frame: &Frame) -> Line
    ensures { (reads : Bool) (known : List Station) (n : ℕ) → IsCalled known n group.now.node.bytes
        → (reads ≡ true → is_name group.now.node.bytes ≡ true)
        → IsSaid reads known result (Send group.now.event (Some n) group.now.frame frame.now.items) }
{
    Line::Send {
        event: group.event,
        node: group.node,
        frame: group.frame,
        bytes: frame_from(frame.as_slice()),
    }
}

// Copies a term, for its line.
fn copied(term: &Term) -> Term
    ensures { model_term result ≡ model_term term.now }
{
    Term {
        counter: term.counter,
        layer: term.layer,
        base: term.base,
        label: term.label,
        source: term.source,
        control: term.control,
        header: frame_from(term.header.as_slice()),
        content: frame_from(term.content.as_slice()),
    }
}
