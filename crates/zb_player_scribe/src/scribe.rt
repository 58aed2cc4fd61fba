//! The scribe.
ghost use Rattle.zb_base.specs.Limits.{most_lines};

use crate::air::Air;
use crate::page::Page;
use std::alloc::Global;
use zb_base::{Frame, NoMemory};
use zb_trace::Line;
use zb_trace_watch::Watch;

/// The scribe, which prints the lines of a run and keeps what is known of them.
#[derive(Drop)]
pub struct Scribe {
    // What decides the two words of the end.
    watch: Watch,
    air: Air,
    used: u32,
    seals: u32,
    accepts: u32,
    refusals: u32,
}

impl Scribe {
    ghost use Rattle.std.specs.Prelude.{◌≡◌, ◌+◌, ◌-◌, ◌≤◌, ◌<◌, ◌++◌, ◌∷◌, [], ℕ, List, None, false, length, nat_eq, slice_get, if◌then◌else◌, IfOk, OnOk};
    ghost use Rattle.std.specs.Io.KnownBytes.{append_known};
    ghost use Rattle.zb_model.specs.Data.{Station};
    ghost use Rattle.zb_model.specs.Lines as log;
    ghost use Rattle.zb_model.specs.Readings.{stations_of};
    ghost use Rattle.zb_model.specs.Secrets.{ideal as ideal_of, private as private_of};
    ghost use Rattle.zb_model_real.specs.Real.{real};
    ghost use Rattle.zb_trace_model.specs.Said.{IsLineOf};
    ghost use Rattle.zb_player_scribe.specs.Kept.{Counts, Kept, Tells, told};
    ghost use Rattle.zb_trace_model.specs.AnswerLines.{declares_node, frame_bytes};
    ghost use Rattle.zb_trace.specs.Text.{text};
    ghost use Rattle.zb_trace.specs.Views.{logged};

    /// Makes the scribe of a run of which no line is known.
    ///
    /// # Errors
    /// `NoMemory`.
    pub fn new(alloc: Global) -> Result<Scribe, NoMemory>
        ensures kept { IfOk result (λ scribe. Kept [] scribe) }
        ensures told { IfOk result (λ scribe. told scribe ≡ 0) }
    {
        Ok(Scribe {
            watch: Watch::new(alloc)?,
            air: Air::new(alloc),
            used: 0,
            seals: 0,
            accepts: 0,
            refusals: 0,
        })
    }

    /// Prints a line after what stands on a page that is read, and keeps what it says.
    ///
    /// Requires that the count of lines has room for one more.
    ///
    /// # Errors
    /// `NoMemory`, after which the scribe isn't used further.
    pub fn tell(&mut self, alloc: Global, page: &mut Page, line: &Line) -> Result<(), NoMemory>
        requires { told self.old < most_lines }
        ensures page { OnOk result (page.new ≡ append_known page.old (text line.now)) }
        ensures kept { OnOk result ((h : List log.Line) → Kept h self.old
            → Kept (h ++ logged (stations_of h) line.now ∷ []) self.new) }
        ensures tells { OnOk result ((known : List Station) (m : log.Line) → IsLineOf known line.now m
            → declares_node m ≡ false
            → Tells known (m ∷ []) self.old page.old self.new page.new) }
        ensures told { OnOk result (told self.new ≤ told self.old + 1) }
    {
        page.print(line)?;
        self.watch.line(alloc, line)?;
        self.count(line)?;
        Ok(())
    }

    // Counts a line, and keeps the frame of one that shows a frame.
    fn count(&mut self, line: &Line) -> Result<(), NoMemory>
        requires { told self.old < most_lines }
        ensures counts { OnOk result ((known : List Station) → Counts (logged known line.now) self.old self.new) }
        ensures told { OnOk result (told self.new ≤ told self.old + 1) }
    {
        match line {
            Line::Draw { .. } => {
                self.used += 1;
                Ok(())
            }
            Line::Seal { .. } => {
                self.seals += 1;
                Ok(())
            }
            Line::Accept { .. } => {
                self.accepts += 1;
                Ok(())
            }
            Line::Refuse { .. } => {
                self.refusals += 1;
                Ok(())
            }
            Line::Send { bytes, .. } => {
                self.air.push(bytes)?;
                Ok(())
            }
            Line::Inject { bytes, .. } => {
                self.air.push(bytes)?;
                Ok(())
            }
            _ => Ok(()),
        }
    }

    /// Returns the frame of a number, which counts from 1, where there is one.
    pub fn frame(&self, number: u32) -> Option<Frame>
        ensures { frame_bytes result ≡ (if nat_eq number 0 then None else slice_get self.now.air (number - 1)) }
    {
        self.air.frame(number)
    }

    /// Returns the number of the next frame on the air.
    ///
    /// Requires that the count of lines has room for one more.
    pub fn next_frame(&self) -> u32
        requires { told self.now < most_lines }
        ensures { result ≡ length self.now.air + 1 }
    {
        self.air.count() + 1
    }

    /// Returns how many keys of the supply are used.
    pub fn used(&self) -> usize
        ensures { result ≡ self.now.used }
    {
        self.used as usize
    }

    /// Returns how many terms were sealed.
    pub fn seals(&self) -> u32
        ensures { result ≡ self.now.seals }
    {
        self.seals
    }

    /// Returns how many terms were accepted.
    pub fn accepts(&self) -> u32
        ensures { result ≡ self.now.accepts }
    {
        self.accepts
    }

    /// Returns how many events were refused.
    pub fn refusals(&self) -> u32
        ensures { result ≡ self.now.refusals }
    {
        self.refusals
    }

    /// Returns whether all that was accepted or taken in came from earlier terms.
    pub fn ideal(&self) -> bool
        ensures { (h : List log.Line) → Kept h self.now → result ≡ ideal_of real h }
    {
        self.watch.ideal()
    }

    /// Returns whether outsiders forged only under keys that they may know, and passed on no key of the network.
    pub fn private(&self) -> bool
        ensures { (h : List log.Line) → Kept h self.now → result ≡ private_of real h }
    {
        self.watch.private()
    }
}
