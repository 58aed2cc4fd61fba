//! The auditor: it checks all claims, line by line.
ghost use Rattle.std.specs.Prelude.{◌≡◌, ◌++◌, ◌∷◌, [], ◌&&◌, List, IfOk, OnOk, true};
ghost use Rattle.zb_audit.specs.Auditing.{LocksOn, Stands};
ghost use Rattle.zb_audit.specs.Claims.{Keeps};
ghost use Rattle.zb_audit.specs.Faults.{by, first_fault, IsAnswer, sooner as sooner_of, unlocked as unlocked_in};
ghost use Rattle.zb_audit_names.specs.Secrets.{ideal as ideal_of, private as private_of};
ghost use Rattle.zb_model.specs.Tools.{Tools};
ghost use Rattle.zb_model_real.specs.Real.{real};
ghost use Rattle.zb_trace.specs.declared.line.Line.{Line as AnyLine};
ghost use Rattle.zb_trace_watch.specs.Standing.{FindKeys};

use crate::confirming::Confirming;
use crate::ending::Ending;
use crate::fault::{AuditFault, BadLine, Verdict};
use crate::nonces::Nonces;
use crate::numbers::next;
use crate::taking::Taking;
use crate::words::seen;
use std::alloc::Global;
use zb_audit_counters::Recount;
use zb_audit_lockout::Lockout;
use zb_audit_names::{Directory, Who};
use zb_base::NoMemory;
use zb_trace::Line;
use zb_trace_watch::EndWords;

/// What an audit knows about a transcript after the lines so far. It keeps no line.
#[derive(Drop)]
pub struct Auditor {
    /// The number of the last line.
    pub number: u32,
    /// The declared nodes.
    pub directory: Directory,
    /// The two words of the end line.
    pub words: EndWords,
    /// The first claim: nonces.
    pub nonces: Nonces,
    /// The second claim: accepted counters.
    pub taking: Taking,
    /// The third claim: confirmed keys.
    pub confirming: Confirming,
    /// The fourth claim: counters, limits and floors.
    pub recount: Recount,
    /// The fifth claim: lockout. It is no longer checked once one of the two words is `no`.
    pub lockout: Lockout,
    /// The sixth claim: the end line.
    pub ending: Ending,
}

impl Auditor {
    /// Makes an auditor that has seen no line.
    ///
    /// # Errors
    /// `NoMemory`, if memory runs out.
    pub fn new(alloc: Global) -> Result<Auditor, NoMemory>
        ensures { IfOk result (λ auditor. (tools : Tools) → Stands tools auditor []) }
    {
        Ok(Auditor {
            number: 0,
            directory: Directory::new(alloc),
            words: EndWords::new(alloc)?,
            nonces: Nonces::new(alloc),
            taking: Taking::new(alloc),
            confirming: Confirming::new(alloc),
            recount: Recount::new(alloc),
            lockout: Lockout::new(alloc)?,
            ending: Ending::new(),
        })
    }

    /// Makes an auditor that has seen these lines.
    ///
    /// # Errors
    /// `NoMemory`, if memory runs out.
    pub fn over(alloc: Global, lines: &[Line]) -> Result<Auditor, NoMemory>
        ensures { IfOk result (λ auditor. (tools : Tools) → FindKeys tools → Stands tools auditor lines.now) }
    {
        let mut auditor = Auditor::new(alloc)?;
        for line in lines {
            auditor.line(alloc, line)?;
        }
        Ok(auditor)
    }

    /// Processes one line.
    ///
    /// # Errors
    /// `NoMemory`. The auditor must not be used after that.
    pub fn line(&mut self, alloc: Global, line: &Line) -> Result<(), NoMemory>
        ensures { OnOk result ((tools : Tools) (h : List AnyLine) → FindKeys tools → Stands tools self.old h
            → Stands tools self.new (h ++ line.now ∷ [])) }
    {
        let number = next(self.number)?;
        let who = self.directory.line(line)?;
        let ideal = self.words.ideal();
        let private = self.words.private();
        self.nonces.line(number, line)?;
        self.taking.line(number, line, who)?;
        self.confirming.line(number, line, who)?;
        self.recount.line(alloc, number, line, who)?;
        carry_on(&mut self.lockout, alloc, ideal, private, number, line, who)?;
        self.ending.line(number, line, ideal, private)?;
        self.words.line(alloc, line, seen(who))?;
        self.number = number;
        Ok(())
    }

    /// Ends the transcript, and returns the verdict.
    ///
    /// # Errors
    /// `Broken` with the first bad line and the first claim that it breaks.
    pub fn end(&self) -> Result<Verdict, AuditFault>
        ensures { (tools : Tools) (h : List AnyLine) → Stands tools self.now h → IsAnswer tools h result }
    {
        match self.first_fault() {
            Some(bad) => Err(AuditFault::Broken {
                line: bad.line,
                clause: bad.clause,
            }),
            None => Ok(Verdict {
                seals: self.ending.seals,
                accepts: self.ending.accepts,
                locked: self.is_locked(),
            }),
        }
    }

    fn is_locked(&self) -> bool
        ensures { (tools : Tools) (h : List AnyLine) → Stands tools self.now h
            → result ≡ (ideal_of tools h && private_of tools h) }
    {
        self.words.ideal() && self.words.private()
    }

    fn first_fault(&self) -> Option<BadLine>
        ensures { (tools : Tools) (h : List AnyLine) → Stands tools self.now h → result ≡ first_fault tools h }
    {
        let first = sooner(self.ending.end(), 6, None);
        let first = sooner(self.unlocked(), 5, first);
        let first = sooner(self.recount.end(), 4, first);
        let first = sooner(self.confirming.first, 3, first);
        let first = sooner(self.taking.first, 2, first);
        sooner(self.nonces.first, 1, first)
    }

    fn unlocked(&self) -> Option<u32>
        ensures { (tools : Tools) (h : List AnyLine) → Stands tools self.now h → result ≡ unlocked_in tools h }
    {
        if self.is_locked() {
            self.lockout.first_unlocked()
        } else {
            None
        }
    }
}

/// Checks lockout for one line, if both words hold for the lines before it.
fn carry_on(
    lockout: &mut Lockout,
    alloc: Global,
    ideal: bool,
    private: bool,
    number: u32,
    line: &Line,
    who: Who,
) -> Result<(), NoMemory>
    ensures { OnOk result ((ideal && private) ≡ true
        → LocksOn lockout.old lockout.new number line.now who) }
{
    if ideal && private {
        lockout.line(alloc, number, line, who)?;
    }
    Ok(())
}

/// Returns the earlier of two bad lines. The first one's claim has the smaller number, so it wins at the same line.
fn sooner(line: Option<u32>, clause: u8, other: Option<BadLine>) -> Option<BadLine>
    ensures { result ≡ sooner_of (by clause line) other }
{
    match (line, other) {
        (Some(line), Some(other)) if other.line < line => Some(other),
        (Some(line), _) => Some(BadLine { line, clause }),
        (None, other) => other,
    }
}

/// Audits the lines of a transcript.
///
/// # Errors
/// `Broken` with the first bad line and the first claim that it breaks; `NoMemory` if memory runs out.
pub fn audit(alloc: Global, lines: &[Line]) -> Result<Verdict, AuditFault>
    ensures answer { IsAnswer real lines.now result }
    ensures claims { IfOk result (λ verdict. Keeps real verdict lines.now) }
{
    match Auditor::over(alloc, lines) {
        Ok(auditor) => auditor.end(),
        Err(_) => Err(AuditFault::NoMemory),
    }
}
