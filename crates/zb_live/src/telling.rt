//! The lines of an event, printed on the page of a session.
ghost use Rattle.std.specs.Prelude.{◌≡◌, ◌∷◌, [], ℕ, List, Bool, false, OnOk, refl};
ghost use Rattle.zb_live.specs.Printing.{page_joined, none_printed};
ghost use Rattle.zb_live.specs.Shown.{event_lines, is_written, Prints};
ghost use Rattle.zb_model.specs.Answer.{Answer};
ghost use Rattle.zb_model.specs.Data.{Station};
ghost use Rattle.zb_plan.specs.Answers.{IsAnswer};
ghost use Rattle.zb_trace.specs.Views.{the_centre};
ghost use Rattle.zb_trace_model.specs.AnswerLines.{line_has_key};
ghost use Rattle.zb_trace_model.specs.Naming.{IsCalled};

use crate::Log;
use std::alloc::{AllocError, Global};
use std::mem;
use zb_host::{Outcome, Plan};
use zb_node_types::Refusal;
use zb_seal::Term;
use zb_trace::{Line, put_line};
use zb_trace_model::{Group, Teller, tell_answer};

/// An event of a session: where its lines belong, and which of them are printed.
#[derive(Clone, Copy, Debug)]
pub(crate) struct Entry {
    /// Where the lines belong.
    pub group: Group,
    /// Which lines are printed.
    pub log: Log,
}

/// A page that takes those lines that a log shows.
#[derive(Drop)]
pub(crate) struct ShownPage {
    /// Which lines are printed.
    pub log: Log,
    /// The text of the page.
    pub text: Vec<u8>,
}

impl Teller for ShownPage {
    type Fault = AllocError;

    ghost reads = { false };

    ghost Tells = { λ known lines old new. (new.log ≡ old.log) × Prints old.log known lines old.text.items
        new.text.items };

    ghost told = { λ page. 0 };

    /// Prints a line, if the log shows it.
    ///
    /// # Errors
    /// `AllocError`.
    fn tell(&mut self, line: &Line) -> Result<(), AllocError> {
        if is_written(self.log, has_key(line)) {
            put_line(&mut self.text, line)?;
        }
        Ok(())
    }

    ghost nothing = { λ known s. (refl, none_printed s.log known s.text.items) };

    ghost joined = { page_joined };
}

// Returns whether a line has a key.
fn has_key(line: &Line) -> bool
    ensures { result ≡ line_has_key line.now }
{
    match line {
        Line::Floor { .. }
        | Line::Draw { .. }
        | Line::DropNet { .. }
        | Line::DropLink { .. }
        | Line::Install { .. }
        | Line::Active { .. }
        | Line::Start { .. }
        | Line::Row { .. }
        | Line::Pair { .. }
        | Line::Accept { .. }
        | Line::Seal { .. } => true,
        _ => false,
    }
}

// Returns whether lines with a key, or those without one, are printed.
fn is_written(log: Log, secret: bool) -> bool
    ensures { result ≡ is_written log secret }
{
    match log {
        Log::All => true,
        Log::NoKeys => !secret,
    }
}

/// Prints the lines of an event: what was stored, and then what goes out.
///
/// # Errors
/// `AllocError`.
pub(crate) fn put_event(
    alloc: Global,
    page: &mut Vec<u8>,
    entry: &Entry,
    plan: &Plan<Outcome<Term, Refusal>>,
) -> Result<(), AllocError>
    ensures { OnOk result ((known : List Station) (n : ℕ) (a : Answer) → IsCalled known n entry.now.group.node.bytes
        → the_centre known ≡ n → IsAnswer plan.now a
        → Prints entry.now.log known (event_lines entry.now.group.event n entry.now.group.frame a)
        page.old.items page.new.items) }
{
    let mut shown = ShownPage {
        log: entry.log,
        text: mem::replace(page, Vec::new(alloc)),
    };
    let told = tell_answer(&mut shown, &entry.group, plan);
    let ShownPage { text, .. } = shown;
    *page = text;
    told
}
