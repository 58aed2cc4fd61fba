//! What a run comes to.
ghost use Rattle.std.specs.Prelude.{◌≡◌, ℕ, List};
ghost use Rattle.zb_model.specs.Data.{Station};
ghost use Rattle.zb_model.specs.Lines.{Line as log};
ghost use Rattle.zb_model.specs.Transcript.{end_line as last};
ghost use Rattle.zb_model_real.specs.Real.{real};
ghost use Rattle.zb_player.specs.Runs.{last_line};
ghost use Rattle.zb_trace_model.specs.Said.{IsLineOf};
ghost use Rattle.zb_player_scribe.specs.Kept.{Kept};

use zb_player_scribe::Scribe;
use zb_trace::Line;
use zb_trace_model::end_line;

/// What a run comes to: the words of the last line of its transcript.
#[derive(Clone, Copy, Debug, PartialEq, Eq)]
pub struct Summary {
    /// How many events there are.
    pub events: u32,
    /// How many terms were sealed.
    pub seals: u32,
    /// How many terms were accepted.
    pub accepts: u32,
    /// How many events were refused.
    pub refusals: u32,
    /// Whether all that was accepted, and all keys that were taken in, come from earlier seals or forgeries.
    pub ideal: bool,
    /// Whether outsiders forged only with what outsiders know.
    pub private: bool,
}

impl Summary {
    /// Makes the summary of a run with this number of events, of which a scribe told all lines.
    pub(crate) fn of(scribe: &Scribe, events: u32) -> Summary
        ensures { (h : List log) → Kept h scribe.now → last_line result ≡ last real events h }
    {
        Summary {
            events,
            seals: scribe.seals(),
            accepts: scribe.accepts(),
            refusals: scribe.refusals(),
            ideal: scribe.ideal(),
            private: scribe.private(),
        }
    }

    /// Makes the line that ends the transcript.
    pub fn line(&self) -> Line
        ensures { (known : List Station) → IsLineOf known result (last_line self.now) }
    {
        end_line(
            self.events,
            self.seals,
            self.accepts,
            self.refusals,
            self.ideal,
            self.private,
        )
    }
}
