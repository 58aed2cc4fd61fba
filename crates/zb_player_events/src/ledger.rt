//! What is told of a run: its transcript, and the plan of the event that is being answered.
ghost use Rattle.std.specs.Prelude.{◌≡◌, ◌≤◌, ◌<◌, ◌+◌, ℕ, List, OnOk, Some, false, map, slice_get, [], ◌∷◌};
ghost use Rattle.std.specs.Option.{option_map};
ghost use Rattle.zb_base.specs.declared.key.Key.{Key as key};
ghost use Rattle.zb_player_events.specs.Acts.{act_for};
ghost use Rattle.zb_player_events.specs.Told.{Adds, Before, Calls, Goes, HasRoom, IsTold, lines_told, most_event_lines};
ghost use Rattle.zb_model.specs.Lines as log;
ghost use Rattle.zb_model.specs.Play as model;
ghost use Rattle.zb_model.specs.Play.{Schedule, stations};
ghost use Rattle.zb_model.specs.Schedules.{CountsCalls};
ghost use Rattle.zb_model_real.specs.Real.{real};
ghost use Rattle.zb_player_events.specs.Calls.{event_calls};
ghost use Rattle.law_run_steps.specs.Conditions.{Condition};
ghost use Rattle.law_run_steps.specs.Turns.{event_turn};
ghost use Rattle.zb_node_types.specs.Changes.{model_place, place_of, reason};
ghost use Rattle.zb_trace_model.specs.Naming.{IsCalled};
ghost use Rattle.zb_trace_model.specs.Said.{IsLineOf};
ghost use Rattle.zb_trace_model.specs.AnswerLines.{declares_node};
ghost use Rattle.zb_base.specs.Limits.{most_lines};

use crate::acts::Act;
use zb_base::{Key, Name, NoMemory};
use zb_disk::MemDisk;
use zb_node_types::Refusal;
use zb_player_node::{Node, NodeEvent, NodePlan};
use zb_player_scribe::Transcript;
use zb_trace::Line;
use zb_trace_model::{Teller, refuse_line};

/// The transcript of a run, and the place of plans.
#[derive(Drop)]
pub struct Ledger {
    /// What takes the lines of the run.
    pub transcript: Transcript,
    /// The place of the plan of an event. What stood in it before is gone.
    pub plan: NodePlan,
}

impl Ledger {
    /// Returns the next key of the supply.
    #[tactic(auto, using(crate::proofs::Adding::drawn))]
    pub fn draw(&self, draws: &[Key]) -> Option<Key>
        ensures { option_map (λ (k : key). k.0) result
            ≡ slice_get (map (λ (k : key). k.0) draws.now) self.now.transcript.scribe.used }
    {
        draws.get(self.transcript.scribe.used()).copied()
    }

    /// Prints a line that declares no node, and keeps what it says.
    ///
    /// # Errors
    /// `NoMemory`.
    pub fn tell(&mut self, line: &Line) -> Result<(), NoMemory>
        requires room { lines_told self.old < most_lines }
        ensures few { OnOk result (lines_told self.new ≤ lines_told self.old + 1) }
        ensures adds { OnOk result ((w : Schedule) (h : List log.Line) (m : log.Line) → IsTold w h self.old
            → IsLineOf (stations w) line.now m → declares_node m ≡ false → Adds w h (m ∷ []) self.old self.new) }
    {
        self.transcript.tell(line)
    }

    /// Prints the line of an event that a node refuses.
    ///
    /// # Errors
    /// `NoMemory`.
    pub fn refuse(&mut self, event: u32, node: Name, refusal: Refusal) -> Result<(), NoMemory>
        requires room { lines_told self.old < most_lines }
        ensures few { OnOk result (lines_told self.new ≤ lines_told self.old + 1) }
        ensures adds { OnOk result ((w : Schedule) (h : List log.Line) (n : ℕ) → IsTold w h self.old
            → IsCalled (stations w) n node.bytes
            → Adds w h (log.Refuse event n (model_place (place_of refusal)) (reason refusal) ∷ []) self.old self.new) }
    {
        self.tell(&refuse_line(event, node, refusal))
    }

    /// Lets a node answer an event over its disk, and prints its lines.
    ///
    /// # Errors
    /// `NoMemory`.
    pub fn answer_node(
        &mut self,
        draws: &[Key],
        node: &mut Node,
        disk: &mut MemDisk,
        number: u32,
        act: Act,
    ) -> Result<(), NoMemory>
        requires room { HasRoom self.old }
        ensures few { OnOk result (lines_told self.new ≤ lines_told self.old + most_event_lines) }
        ensures seat { node.new.peer ≡ node.old.peer }
        ensures goes { OnOk result ((w : Schedule) (h : List log.Line) (x : Condition) (latest n : ℕ)
            (event : model.Event) → Before w h x latest n self.old node.old disk.old
            → map (λ (k : key). k.0) draws.now ≡ w.draws → act_for n act ≡ Some event → CountsCalls event
            → Goes w (event_turn real w h x number event) h latest self.old self.new node.new disk.new) }
        ensures calls { OnOk result ((w : Schedule) (h : List log.Line) (x : Condition) (latest n : ℕ)
            (event : model.Event) → Before w h x latest n self.old node.old disk.old
            → map (λ (k : key). k.0) draws.now ≡ w.draws → act_for n act ≡ Some event → CountsCalls event
            → Calls (event_calls real w h x event) disk.old disk.new) }
    {
        match act {
            Act::Own(what) => self.handle(node, disk, number, &what),
            Act::Roll => {
                let draw = self.draw(draws);
                self.handle(node, disk, number, &NodeEvent::Roll { draw })
            }
            Act::Deliver(frame) => self.deliver(node, disk, draws, number, frame),
            Act::Reset => self.reset(node, disk, number),
            Act::Boot => self.boot(node, disk, number),
            Act::Dump => self.dump(node, disk, number),
            Act::Stop { calls, torn } => {
                node.arm_stop(calls, torn);
                Ok(())
            }
            Act::Fail { call } => {
                node.arm_fail(call);
                Ok(())
            }
            Act::Outside => Ok(()),
        }
    }
}
