//! A run while it goes on.
ghost use Rattle.std.specs.Prelude.{◌≡◌, ◌≤◌, ◌+◌, ◌<◌, [], ◌∷◌, ℕ, List, Option, Some, true, IfOk, OnOk, map};
ghost use Rattle.std.specs.List.{AllByRecursion};
ghost use Rattle.std.specs.Io.KnownBytes.{append_known};
ghost use Rattle.zb_base.specs.declared.key.Key.{Key as key};
ghost use Rattle.zb_disk.specs.Memory.{Medium as medium};
ghost use Rattle.zb_model.specs.Data.{Station as station};
ghost use Rattle.zb_model.specs.Lines.{Line};
ghost use Rattle.zb_model.specs.Play as model;
ghost use Rattle.zb_model.specs.Play.{Disk, stations, step};
ghost use Rattle.zb_model_real.specs.Real.{real};
ghost use Rattle.law_schedules.specs.Schedules.{event_for, schedule_of, stations_for};
ghost use Rattle.zb_player_events.specs.Told.{HasRoom, lines_told, most_event_lines};
ghost use Rattle.law_run_steps.specs.Conditions.{Condition};
ghost use Rattle.law_run_steps.specs.Swaps.{Stood, node_of};
ghost use Rattle.zb_player.specs.Benches.{Asks, AsksFor, Gave, GaveFor, given_for, put_at, under, most_seats};
ghost use Rattle.zb_player.specs.Playing.{AreCalledBy, FitsRun, IsEventAt, RunGoes, RunIn, RunPasses, RunStands, passed_by, step_of};
ghost use Rattle.zb_player.specs.Swapping.{FitsAt, passed_with};
ghost use Rattle.zb_player.specs.Runs.{text_in};
ghost use Rattle.zb_sched.specs.Schedules as sched;
ghost use Rattle.zb_sched.specs.Valid.{IsSchedule};
ghost use Rattle.zb_sched_line.specs.Views.{event_of};
ghost use Rattle.zb_player_start.specs.Starts.{most_start_lines};
ghost use Rattle.zb_base.specs.Sizes.{late_generation};

use crate::bench::Bench;
use std::alloc::Global;
use zb_base::{Key, NoMemory};
use zb_disk::MemDisk;
use zb_player_events::{Act, Ledger, Node, NodePlan, Seat, Seats};
use zb_player_scribe::{Page, Scribe, Transcript};
use zb_player_start::{Spare, start_nodes, tell_start};
use zb_sched::{Event, Schedule};

/// The nodes of a run, the supply of keys, and what is told.
#[derive(Drop)]
pub(crate) struct Run<'a> {
    pub nodes: Vec<Node>,
    pub seats: Seats,
    pub draws: &'a [Key],
    pub ledger: Ledger,
}

impl<'a> Run<'a> {
    /// Starts the run of a schedule. The start lines are put on the page, and the disks of its nodes are added to
    /// `disks`. They are made of spare ones, as long as there are any.
    ///
    /// # Errors
    /// `NoMemory`.
    pub fn start(
        alloc: Global,
        schedule: &'a Schedule,
        page: Page,
        spare: &mut Spare,
        disks: &mut Vec<MemDisk>,
    ) -> Result<Run<'a>, NoMemory>
        requires schedule { IsSchedule (sched.schedule_of schedule.now) }
        requires none { disks.old.items ≡ [] }
        ensures stands { IfOk result (λ run. RunStands (sched.schedule_of schedule.now)
            (model.start (schedule_of (sched.schedule_of schedule.now))) [] 1 run disks.new.items) }
        ensures page { IfOk result (λ run. run.ledger.transcript.page ≡ append_known page (text_in
            (sched.schedule_of schedule.now) (model.start (schedule_of (sched.schedule_of schedule.now))))) }
        ensures few { IfOk result (λ run. lines_told run.ledger ≤ most_start_lines) }
        ensures calls { OnOk result (AllByRecursion (λ (m : medium). m.calls ≡ 6) disks.new.items) }
    {
        let declared = schedule.nodes.as_slice();
        let nodes = start_nodes(alloc, declared, spare, disks)?;
        let seats = Seats::new(alloc, declared)?;
        let mut scribe = Scribe::new(alloc)?;
        let mut page = page;
        tell_start(alloc, &mut scribe, &mut page, declared)?;
        Ok(Run {
            nodes,
            seats,
            draws: schedule.draws.as_slice(),
            ledger: Ledger {
                transcript: Transcript {
                    alloc,
                    scribe,
                    page,
                },
                plan: NodePlan::new(),
            },
        })
    }

    /// Lets the node of an event or the outside carry it out, and prints its lines.
    ///
    /// A bench may put another disk under the node first.
    ///
    /// # Errors
    /// `NoMemory`.
    pub fn answer<B: Bench>(
        &mut self,
        disks: &mut [MemDisk],
        bench: &mut B,
        number: u32,
        event: &Event,
    ) -> Result<(), NoMemory>
        requires room { HasRoom self.old.ledger }
        ensures few { OnOk result (lines_told self.new.ledger ≤ lines_told self.old.ledger + most_event_lines) }
        ensures still { B.still bench.old ≡ true → B.still bench.new ≡ true }
        ensures asked { AsksFor self.old.seats number (event_of event.now ∷ []) (B.asked bench.old)
            (B.asked bench.new) }
        ensures seats { self.new.seats ≡ self.old.seats }
        ensures gave { GaveFor self.old.seats number (event_of event.now) (B.gives bench.old) (B.gave bench.old)
            (B.gave bench.new) }
        ensures passes { OnOk result ((p : sched.Schedule) (h : List Line) (xs : ℕ → Condition) (latest : ℕ)
            (gift : Option Stood) → IsSchedule p → FitsRun p number (event_of event.now)
            → latest < late_generation → RunIn p h xs latest self.old disks.old
            → FitsAt latest gift
            (given_for (B.gives bench.old) (stations (schedule_of p)) number (event_of event.now)) xs
            (node_of (event_for (stations_for p) (event_of event.now)))
            → RunPasses p (passed_with p gift h xs number (event_for (stations_for p) (event_of event.now))) h latest
            self.old self.new disks.new) }
        ensures swapped { OnOk result ((p : sched.Schedule) (h : List Line) (ds : List Disk) → IsSchedule p
            → FitsRun p number (event_of event.now) → RunStands p h ds number self.old
            (under (B.gives bench.old) (stations (schedule_of p)) number (event_of event.now) disks.old)
            → RunGoes p (step_of p h ds number (event_for (stations_for p) (event_of event.now))) h number
            self.old self.new disks.new) }
        ensures goes { OnOk result (B.still bench.old ≡ true → (p : sched.Schedule) (h : List Line) (ds : List Disk)
            → IsSchedule p → FitsRun p number (event_of event.now) → RunStands p h ds number self.old disks.old
            → RunGoes p (step_of p h ds number (event_for (stations_for p) (event_of event.now))) h number
            self.old self.new disks.new) }
        ensures calls { OnOk result (B.still bench.old ≡ true → (p : sched.Schedule) (h : List Line) (ds : List Disk)
            → IsSchedule p → FitsRun p number (event_of event.now) → RunStands p h ds number self.old disks.old
            → AreCalledBy p h ds (event_for (stations_for p) (event_of event.now)) disks.old disks.new) }
    {
        match self.seats.of_event(event) {
            None => self.ledger.answer_outside(number, event),
            Some(seat) => {
                swap(disks, bench, number, seat);
                let act = self.seats.act_of(event);
                self.answer_at(disks, number, seat.place, act)
            }
        }
    }

    // Lets the node at a place answer an event over its disk.
    fn answer_at(
        &mut self,
        disks: &mut [MemDisk],
        number: u32,
        place: usize,
        act: Act,
    ) -> Result<(), NoMemory>
        requires room { HasRoom self.old.ledger }
        ensures seats { self.new.seats ≡ self.old.seats }
        ensures few { OnOk result (lines_told self.new.ledger ≤ lines_told self.old.ledger + most_event_lines) }
        ensures goes { OnOk result ((p : sched.Schedule) (h : List Line) (xs : ℕ → Condition) (latest : ℕ)
            (event : model.Event) (q : station) → latest < late_generation → IsSchedule p
            → RunIn p h xs latest self.old disks.old → IsEventAt p place q act event
            → RunPasses p (passed_by p h xs number event) h latest self.old self.new disks.new) }
        ensures calls { OnOk result ((p : sched.Schedule) (h : List Line) (ds : List Disk) (event : model.Event)
            (q : station) → IsSchedule p → RunStands p h ds number self.old disks.old
            → IsEventAt p place q act event → AreCalledBy p h ds event disks.old disks.new) }
    {
        if place >= self.nodes.len() || place >= disks.len() {
            return Ok(());
        }
        let node = &mut self.nodes[place];
        let disk = &mut disks[place];
        self.ledger.answer_node(self.draws, node, disk, number, act)
    }
}

// Puts the disk of a bench under a node, where it has one.
fn swap<B: Bench>(disks: &mut [MemDisk], bench: &mut B, number: u32, seat: Seat)
    ensures disks { B.still bench.old ≡ true → disks.new ≡ disks.old }
    ensures still { B.still bench.old ≡ true → B.still bench.new ≡ true }
    ensures asked { seat.place < most_seats → Asks (B.asked bench.old) (B.asked bench.new)
        (record { event = number; place = seat.place } ∷ []) }
    ensures gave { seat.place < most_seats → Gave (B.gave bench.old) (B.gave bench.new) number
        (B.gives bench.old number seat.place) }
    ensures put { seat.place < most_seats
        → disks.new ≡ put_at seat.place disks.old (B.gives bench.old number seat.place) }
{
    if let Ok(node) = u8::try_from(seat.place) {
        if let Some(disk) = bench.swap(number, node) {
            put_under(disks, seat.place, disk);
        }
    }
}

// Puts a disk under the node at a place, if there is one.
fn put_under(disks: &mut [MemDisk], place: usize, disk: MemDisk)
    ensures { disks.new ≡ put_at place disks.old (Some disk) }
{
    if place < disks.len() {
        disks[place] = disk;
    }
}
