//! The sixth claim: the last line is an end line that sums up the others, and no other line is an end line.
ghost use Rattle.std.specs.Prelude.{◌≡◌, ◌+◌, ◌++◌, ◌∷◌, [], ◌&&◌, List, OnOk, length, not};
ghost use Rattle.zb_audit.specs.Ending.{accept_count, agree, greater_event, ill_ended, is_no_end, refuse_count, seal_count};
ghost use Rattle.zb_audit.specs.Failing.{head};
ghost use Rattle.zb_audit.specs.Standing.{counts_are, Ends, fits};
ghost use Rattle.zb_audit_names.specs.Groups.{event_of};
ghost use Rattle.zb_audit_names.specs.Secrets.{ideal as ideal_of, private as private_of};
ghost use Rattle.zb_model.specs.Tools.{Tools};
ghost use Rattle.zb_trace.specs.declared.line.Line.{Line as AnyLine};

use crate::numbers::{first_bad, next};
use zb_audit_names::event;
use zb_base::NoMemory;
use zb_trace::Line;

/// What an end line has to sum up, and how the lines so far end.
#[derive(Clone, Copy, Drop)]
pub struct Ending {
    /// The number of the last line, or 0 if there is none.
    pub last: u32,
    /// The greatest number of an event.
    pub events: u32,
    /// How many terms were sealed.
    pub seals: u32,
    /// How many terms were accepted.
    pub accepts: u32,
    /// How many events were refused.
    pub refusals: u32,
    /// Whether the last line is an end line.
    pub is_end: bool,
    /// Whether the last line is an end line that sums up the lines before it.
    pub sums_up: bool,
    /// The number of the first end line that isn't the last line.
    pub first: Option<u32>,
}

impl Ending {
    /// Makes the state before the first line.
    pub fn new() -> Ending
        ensures { (tools : Tools) → Ends tools result [] }
    {
        Ending {
            last: 0,
            events: 0,
            seals: 0,
            accepts: 0,
            refusals: 0,
            is_end: false,
            sums_up: false,
            first: None,
        }
    }

    /// Processes one line. `ideal` and `private` are the two words for the lines before it.
    ///
    /// # Errors
    /// `NoMemory`, if memory runs out.
    pub fn line(
        &mut self,
        number: u32,
        line: &Line,
        ideal: bool,
        private: bool,
    ) -> Result<(), NoMemory>
        ensures { OnOk result ((tools : Tools) (h : List AnyLine) → number ≡ length h + 1 → ideal ≡ ideal_of tools h
            → private ≡ private_of tools h → Ends tools self.old h → Ends tools self.new (h ++ line.now ∷ [])) }
    {
        let sums_up = self.fits(line, ideal, private);
        self.first = first_bad(self.first, !self.is_end, self.last);
        self.last = number;
        self.is_end = is_end(line);
        self.sums_up = sums_up;
        self.count(line)?;
        Ok(())
    }

    /// Returns whether a line is an end line that sums up the lines so far.
    fn fits(&self, line: &Line, ideal: bool, private: bool) -> bool
        ensures { result ≡ fits self.now ideal private line.now }
    {
        match line {
            Line::End {
                events,
                seals,
                accepts,
                refusals,
                ideal: says_ideal,
                private: says_private,
            } => {
                self.counts_are(*events, *seals, *accepts, *refusals)
                    && words_are(ideal, private, *says_ideal, *says_private)
            }
            _ => false,
        }
    }

    fn counts_are(&self, events: u32, seals: u32, accepts: u32, refusals: u32) -> bool
        ensures { result ≡ counts_are self.now events seals accepts refusals }
    {
        self.events <= events
            && self.seals == seals
            && self.accepts == accepts
            && self.refusals == refusals
    }

    fn count(&mut self, line: &Line) -> Result<(), NoMemory>
        ensures counts { OnOk result (self.new
            ≡ record self.old {
              events = greater_event self.old.events (event_of line.now);
              seals = seal_count self.old.seals line.now;
              accepts = accept_count self.old.accepts line.now;
              refusals = refuse_count self.old.refusals line.now;
            }) }
    {
        self.events = greater(self.events, event(line));
        match line {
            Line::Seal { .. } => {
                self.seals = next(self.seals)?;
                Ok(())
            }
            Line::Accept { .. } => {
                self.accepts = next(self.accepts)?;
                Ok(())
            }
            Line::Refuse { .. } => {
                self.refusals = next(self.refusals)?;
                Ok(())
            }
            _ => Ok(()),
        }
    }

    /// Returns the number of the first line that breaks the sixth claim, if any.
    ///
    /// It is an end line before the last line, or a last line that isn't an end line that sums up. If there is no
    /// line, it is 1.
    pub fn end(&self) -> Option<u32>
        ensures { (tools : Tools) (h : List AnyLine) → Ends tools self.now h → result ≡ head (ill_ended tools h) }
    {
        first_bad(self.first, self.sums_up, self.last.max(1))
    }
}

fn is_end(line: &Line) -> bool
    ensures { result ≡ not (is_no_end [] line.now) }
{
    match line {
        Line::End { .. } => true,
        _ => false,
    }
}

fn words_are(ideal: bool, private: bool, says_ideal: bool, says_private: bool) -> bool
    ensures { result ≡ (agree ideal says_ideal && agree private says_private) }
{
    ideal == says_ideal && private == says_private
}

fn greater(events: u32, event: Option<u32>) -> u32
    ensures { result ≡ greater_event events event }
{
    match event {
        Some(event) => events.max(event),
        None => events,
    }
}
