//! The events of the outside: bytes that are put on the air, and forged frames.
ghost use Rattle.std.specs.Prelude.{◌≡◌, ◌≤◌, ◌<◌, ◌+◌, List, None, OnOk, codes, length, true, ◌∷◌, []};
ghost use Rattle.zb_player_events.specs.Outside.{IsSent, forges_command, is_outside};
ghost use Rattle.zb_player_events.specs.Told.{Adds, HasRoom, IsTold, lines_told, most_event_lines};
ghost use Rattle.zb_model.specs.Data.{Station};
ghost use Rattle.zb_model.specs.Lines as log;
ghost use Rattle.zb_model.specs.Play.{Disk, Schedule, forged_both, forged_net, forged_open, step};
ghost use Rattle.zb_model.specs.Readings.{air};
ghost use Rattle.zb_model_real.specs.Real.{real};
ghost use Rattle.zb_model_real.specs.Terms.{model_term};
ghost use Rattle.law_schedules.specs.Schedules.{event_for};
ghost use Rattle.zb_sched_line.specs.Views.{event_of};
ghost use Rattle.zb_seal.specs.Wire.{wire_length};
ghost use Rattle.zb_base.specs.Limits.{longest_frame, most_lines};
ghost use Rattle.zb_send.specs.Sendings.{clear_room};

use crate::ledger::Ledger;
use crate::{aps_command, clear_frame, forged_control, nwk_frame, sealed};
use zb_base::{Frame, Name, NoMemory, Short};
use zb_cursor::frame_from;
use zb_sched::Event;
use zb_seal::Term;
use zb_send::SECURED;
use zb_trace_model::{forge_line, inject_line, send_line};

// Returns the name that represents an outsider.
fn nobody() -> Name
    ensures { result.bytes ≡ codes "-" }
{
    match Name::from("-") {
        Ok(name) => name,
        Err(_) => Name::new(),
    }
}

impl Ledger {
    /// Puts what an event of the outside brings on the air, and prints its lines.
    ///
    /// An event of a node is passed over.
    ///
    /// # Errors
    /// `NoMemory`.
    pub fn answer_outside(&mut self, event: u32, what: &Event) -> Result<(), NoMemory>
        requires room { HasRoom self.old }
        ensures few { OnOk result (lines_told self.new ≤ lines_told self.old + most_event_lines) }
        ensures sent { OnOk result ((w : Schedule) (h : List log.Line) (ds : List Disk) (known : List Station)
            → IsTold w h self.old → is_outside (event_of what.now) ≡ true
            → IsSent w h ds (step real w h ds event (event_for known (event_of what.now))) self.old self.new) }
    {
        match what {
            Event::Inject { bytes } => self.inject(event, bytes),
            Event::ForgeNet {
                to,
                from,
                source,
                key,
                sequence,
                counter,
                content,
            } => {
                let control = forged_control(content.as_slice());
                let bytes = content.as_slice();
                let term = nwk_frame(
                    control, *to, *from, *source, key, *sequence, *counter, bytes,
                );
                self.forge_net(event, term)
            }
            Event::ForgeNetAps { .. } => self.forge_command(event, what),
            Event::ForgeOpen { .. } => self.forge_command(event, what),
            _ => Ok(()),
        }
    }

    // Forges an APS command under a link key. A frame that is sealed at NWK too carries it, or one that isn't.
    fn forge_command(&mut self, event: u32, what: &Event) -> Result<(), NoMemory>
        requires room { HasRoom self.old }
        ensures few { OnOk result (lines_told self.new ≤ lines_told self.old + most_event_lines) }
        ensures sent { OnOk result ((w : Schedule) (h : List log.Line) (ds : List Disk) (known : List Station)
            → IsTold w h self.old → forges_command (event_of what.now) ≡ true
            → IsSent w h ds (step real w h ds event (event_for known (event_of what.now))) self.old self.new) }
    {
        match what {
            Event::ForgeNetAps {
                to,
                from,
                source,
                key,
                sequence,
                counter,
                label,
                base,
                aps_counter,
                command,
            } => {
                let inner = aps_command(*label, base, *source, *aps_counter, command.as_slice());
                let part = sealed(&inner);
                let bytes = part.as_slice();
                let term = nwk_frame(
                    SECURED, *to, *from, *source, key, *sequence, *counter, bytes,
                );
                self.forge_both(event, inner, term)
            }
            Event::ForgeOpen {
                to,
                from,
                source,
                label,
                base,
                aps_counter,
                command,
            } => {
                let inner = aps_command(*label, base, *source, *aps_counter, command.as_slice());
                self.forge_open(event, *to, *from, inner)
            }
            _ => Ok(()),
        }
    }

    // Puts bytes on the air.
    fn inject(&mut self, event: u32, bytes: &Frame) -> Result<(), NoMemory>
        requires room { HasRoom self.old }
        ensures few { OnOk result (lines_told self.new ≤ lines_told self.old + most_event_lines) }
        ensures adds { OnOk result ((w : Schedule) (h : List log.Line) → IsTold w h self.old
            → Adds w h (log.Inject event (length (air h) + 1) bytes.now.items ∷ []) self.old self.new) }
    {
        let frame = self.transcript.scribe.next_frame();
        self.tell(&inject_line(event, frame, frame_from(bytes.as_slice())))
    }

    // Forges a frame under a network key.
    fn forge_net(&mut self, event: u32, term: Term) -> Result<(), NoMemory>
        requires room { HasRoom self.old }
        requires fits { wire_length term ≤ longest_frame }
        ensures few { OnOk result (lines_told self.new ≤ lines_told self.old + most_event_lines) }
        ensures adds { OnOk result ((w : Schedule) (h : List log.Line) → IsTold w h self.old
            → Adds w h (forged_net real h event (model_term term)) self.old self.new) }
    {
        let bytes = sealed(&term);
        self.tell(&forge_line(event, term))?;
        self.send(event, bytes)
    }

    // Forges a frame under a network key, with an APS command under a link key in it.
    fn forge_both(&mut self, event: u32, inner: Term, term: Term) -> Result<(), NoMemory>
        requires room { HasRoom self.old }
        requires fits { wire_length term ≤ longest_frame }
        ensures few { OnOk result (lines_told self.new ≤ lines_told self.old + most_event_lines) }
        ensures adds { OnOk result ((w : Schedule) (h : List log.Line) → IsTold w h self.old
            → Adds w h (forged_both real h event (model_term inner) (model_term term)) self.old self.new) }
    {
        let bytes = sealed(&term);
        self.tell(&forge_line(event, inner))?;
        self.tell(&forge_line(event, term))?;
        self.send(event, bytes)
    }

    // Puts an APS command under a link key on the air, in a frame that isn't sealed.
    fn forge_open(
        &mut self,
        event: u32,
        to: Short,
        from: Short,
        inner: Term,
    ) -> Result<(), NoMemory>
        requires room { HasRoom self.old }
        requires fits { wire_length inner ≤ clear_room }
        ensures few { OnOk result (lines_told self.new ≤ lines_told self.old + most_event_lines) }
        ensures adds { OnOk result ((w : Schedule) (h : List log.Line) → IsTold w h self.old
            → Adds w h (forged_open real h event to.0 from.0 (model_term inner)) self.old self.new) }
    {
        let part = sealed(&inner);
        let bytes = clear_frame(to, from, part.as_slice());
        self.tell(&forge_line(event, inner))?;
        self.send(event, bytes)
    }

    // Puts a frame on the air.
    fn send(&mut self, event: u32, bytes: Frame) -> Result<(), NoMemory>
        requires room { lines_told self.old < most_lines }
        ensures few { OnOk result (lines_told self.new ≤ lines_told self.old + 1) }
        ensures adds { OnOk result ((w : Schedule) (h : List log.Line) → IsTold w h self.old
            → Adds w h (log.Send event None (length (air h) + 1) bytes.items ∷ []) self.old self.new) }
    {
        let frame = self.transcript.scribe.next_frame();
        self.tell(&send_line(event, nobody(), frame, bytes))
    }
}
