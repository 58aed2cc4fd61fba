//! A made schedule while its lines are taken, one after the other.

ghost use Rattle.std.specs.Prelude.{◌≡◌, ◌+◌, ◌≤◌, [], OnOk};
ghost use Rattle.zb_sched_line.specs.Views.{sentence_of};
ghost use Rattle.zb_sched.specs.Reading.{reads};
ghost use Rattle.zb_gen.specs.Faults.{Makes};
ghost use Rattle.zb_gen.specs.Progress.{after_sentence, begun, Comes};
ghost use Rattle.zb_gen.specs.declared.maker.GenFault.TheVariants.{NoMemory as lacks};
ghost use Rattle.zb_gen.specs.Bounds.{before_line};

use std::alloc::{AllocError, Global};
use std::marker::Model;
use zb_base::OrMemory;
use zb_sched::{Draft, SchedCause, Schedule};
use zb_sched_line::Line;

/// Why there is no made schedule.
#[derive(Clone, Copy, Debug, PartialEq, Eq)]
pub enum GenFault {
    /// Two of the keys are equal, or one is the well-known key. It names the first line that is no schedule's, and
    /// why.
    Clash { line: u32, cause: SchedCause },
    /// There was no memory left.
    NoMemory,
}

impl From<AllocError> for GenFault {
    ghost from_gives = { λ _ fault. fault ≡ lacks };

    fn from(_error: AllocError) -> GenFault {
        GenFault::NoMemory
    }
}

/// Takes the lines of a made schedule, and knows the number of the next one.
#[derive(Drop)]
pub struct Maker {
    draft: Draft,
    line: u32,
}

impl Model for Maker {
    ghost use Rattle.zb_gen.specs.Progress.{Progress};

    ghost Value = { Progress };

    ghost view = { λ m. record { line = m.line; seen = m.draft } };
}

impl Maker {
    /// Makes a maker that stands before the first line.
    pub fn new(alloc: Global) -> Maker
        ensures { result ≡ begun }
    {
        Maker {
            draft: Draft::new(alloc),
            line: 1,
        }
    }

    /// Makes room for `events` events.
    ///
    /// # Errors
    /// Out of memory.
    pub fn reserve(&mut self, events: u32) -> Result<(), AllocError>
        ensures { self.new ≡ self.old }
    {
        self.draft.reserve(events as usize)
    }

    /// Takes a line. Requires that fewer than 30,000 were taken before it.
    ///
    /// # Errors
    /// The number of the line and why it may not stand there; or out of memory.
    pub fn take(&mut self, line: Line) -> Result<(), GenFault>
        requires { self.old.line ≤ before_line }
        ensures line { Comes result self.new (after_sentence self.old (sentence_of line)) }
        ensures count { OnOk result (self.new.line ≡ self.old.line + 1) }
    {
        match self.draft.take_line(line) {
            Ok(()) => {}
            Err(OrMemory::Fault(cause)) => return Err(GenFault::Clash {
                line: self.line,
                cause,
            }),
            Err(OrMemory::NoMemory) => return Err(GenFault::NoMemory),
        }
        self.line += 1;
        Ok(())
    }

    /// Makes the schedule of the lines that were taken.
    ///
    /// # Errors
    /// That no node is the centre, a fault after the last line; or out of memory.
    pub fn finish(self, alloc: Global) -> Result<Schedule, GenFault>
        ensures { Makes result (reads self.line self.seen []) }
    {
        if !self.draft.has_centre() {
            return Err(GenFault::Clash {
                line: self.line,
                cause: SchedCause::NoCentre,
            });
        }
        let schedule = self.draft.finish(alloc)?;
        Ok(schedule)
    }
}
