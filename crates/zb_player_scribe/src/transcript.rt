//! The transcript of a run, which takes lines.
ghost use Rattle.std.specs.Prelude.{true};
ghost use Rattle.zb_player_scribe.specs.Kept.{Tells as tells, told as told_of};
ghost use Rattle.zb_player_scribe.specs.Turns.{none_told, told_in_turn};

use crate::page::Page;
use crate::scribe::Scribe;
use std::alloc::Global;
use zb_base::NoMemory;
use zb_trace::Line;
use zb_trace_model::Teller;

/// The transcript of a run: what its lines say, and those that aren't handed out yet.
#[derive(Drop)]
pub struct Transcript {
    /// Where memory comes from.
    pub alloc: Global,
    /// What prints lines, and keeps of them what the rest of the run needs.
    pub scribe: Scribe,
    /// The text of the lines that aren't handed out yet, where it is read.
    pub page: Page,
}

impl Teller for Transcript {
    type Fault = NoMemory;

    ghost reads = { true };

    ghost Tells = { λ known lines old new. tells known lines old.scribe old.page new.scribe new.page };

    ghost told = { λ transcript. told_of transcript.scribe };

    /// Prints a line, if the page is read, and keeps what the line says.
    ///
    /// # Errors
    /// `NoMemory`, after which the transcript isn't used further.
    fn tell(&mut self, line: &Line) -> Result<(), NoMemory> {
        self.scribe.tell(self.alloc, &mut self.page, line)
    }

    ghost nothing = { λ known s. none_told known s.scribe s.page };

    ghost joined = { λ known some more a b c. told_in_turn known some more a.scribe b.scribe c.scribe a.page b.page
        c.page };
}
