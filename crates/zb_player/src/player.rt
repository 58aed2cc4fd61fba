//! A whole run.
ghost use Rattle.std.specs.Prelude.{◌≡◌, ◌≢◌, ◌≤◌, ◌+◌, [], true, IfOk, OnOk, OnErr, Err, length, map};
ghost use Rattle.zb_base.specs.Outside.{Rose, Unrisen};
ghost use Rattle.zb_player_events.specs.Told.{lines_told};
ghost use Rattle.zb_player.specs.Benches.{AsksFor, AsksAll};
ghost use Rattle.zb_player.specs.Runs.{Answers, AreMade, IsFront, IsWhole, WerePlayed, PrintsAll, Sums};
ghost use Rattle.zb_player.specs.Swapping.{AnswersGiven, IsSwapped, IsSwappedFront, PrintsGiven, SumsSwapped};
ghost use Rattle.zb_sched.specs.Schedules as sched;
ghost use Rattle.zb_sched.specs.Valid.{IsSchedule};
ghost use Rattle.zb_sched_line.specs.Views.{event_of};
ghost use Rattle.zb_player_scribe.specs.Pages.{IsClear, IsFor};
ghost use Rattle.zb_base.specs.Limits.{most_events};
ghost use Rattle.zb_player_start.specs.Starts.{most_start_lines};

use crate::bench::{Bench, Still};
use crate::fault::PlayFault;
use crate::run::Run;
use crate::summary::Summary;
use std::alloc::Global;
use zb_base::{NoMemory, NullSink, Sink};
use zb_disk::MemDisk;
use zb_player_scribe::Page;
use zb_player_start::Spare;
use zb_sched::{Event, Schedule};

/// Plays a schedule and writes its transcript.
///
/// Requires a schedule that a text gives, and no disks. The disks of the nodes are added to `disks`, in the order of
/// the nodes. After a fault nothing is said of them.
///
/// # Errors
/// `Write` where the sink fails; `NoMemory`.
pub fn play<B: Bench, W: Sink>(
    alloc: Global,
    schedule: &Schedule,
    disks: &mut Vec<MemDisk>,
    bench: &mut B,
    out: &mut W,
) -> Result<Summary, PlayFault>
    requires schedule { IsSchedule (sched.schedule_of schedule.now) }
    requires none { disks.old.items ≡ [] }

    // Over the disks of the run itself, what is written is the model's transcript of the schedule, or a prefix of it.
    // The summary is its last line. Each disk represents the record that the transcript gives its node.
    ensures whole { B.still bench.old ≡ true → OnOk result (IsWhole (sched.schedule_of schedule.now)
        (W.taken out.old) (W.taken out.new)) }
    ensures front { B.still bench.old ≡ true → OnErr result (IsFront (sched.schedule_of schedule.now)
        (W.taken out.old) (W.taken out.new)) }
    ensures summary { B.still bench.old ≡ true → IfOk result (Sums (sched.schedule_of schedule.now)) }
    ensures disks { B.still bench.old ≡ true
        → OnOk result (WerePlayed (sched.schedule_of schedule.now) disks.new.items) }

    // This is of a bench that tells what it gives. It gives disks under nodes that are down alone, and they can boot
    // from these. What is written is the transcript of a run whose nodes are given these disks, or a prefix of it. The
    // summary is its last line.
    ensures swapped { OnOk result (IsSwapped (sched.schedule_of schedule.now) (B.gave bench.new)
        (W.taken out.old) (W.taken out.new)) }
    ensures swapped_front { OnErr result (IsSwappedFront (sched.schedule_of schedule.now) (B.gave bench.new)
        (W.taken out.old) (W.taken out.new)) }
    ensures swapped_summary { IfOk result (SumsSwapped (sched.schedule_of schedule.now) (B.gave bench.new)) }

    // Whatever the bench gives, it is asked once before each event of a node, and before no other.
    ensures asked { OnOk result (AsksAll (sched.schedule_of schedule.now) (B.asked bench.old) (B.asked bench.new)) }

    // Whatever the disks are, a fault has its cause, and no fault of the sink is reported as out of memory.
    ensures later { W.faults out.old ≤ W.faults out.new }
    ensures cause { result ≡ Err PlayFault.Write → Rose (W.faults out.old) (W.faults out.new) }
    ensures unrisen { result ≢ Err PlayFault.Write → Unrisen (W.faults out.old) (W.faults out.new) }
{
    let mut spare = Spare::new(alloc);
    let page = Page::new(alloc);
    play_onto(alloc, schedule, page, &mut spare, disks, bench, out)
}

/// Plays a schedule whose transcript nobody reads, on spare disks, and returns the words of its last line.
///
/// Those that earlier runs left in `spare` are taken from there and made new, as long as there are any. It is the run
/// that `play` plays, and takes less time, since no line is printed and less memory is asked for.
///
/// Requires a schedule that a text gives, and no disks. The disks of the nodes are added to `disks`, in the order of
/// the nodes. After a fault nothing is said of them.
///
/// # Errors
/// `NoMemory`.
pub fn play_unread(
    alloc: Global,
    schedule: &Schedule,
    spare: &mut Spare,
    disks: &mut Vec<MemDisk>,
) -> Result<Summary, NoMemory>
    requires schedule { IsSchedule (sched.schedule_of schedule.now) }
    requires none { disks.old.items ≡ [] }
    ensures summary { IfOk result (Sums (sched.schedule_of schedule.now)) }
    ensures disks { OnOk result (WerePlayed (sched.schedule_of schedule.now) disks.new.items) }
{
    let page = Page::unread();
    let mut out = NullSink::new();
    match play_onto(alloc, schedule, page, spare, disks, &mut Still, &mut out) {
        Ok(summary) => Ok(summary),
        Err(PlayFault::Write) => Err(NoMemory),
        Err(PlayFault::NoMemory) => Err(NoMemory),
    }
}

// Plays a schedule on spare disks, and prints its lines onto a clear page, which is read where the sink is.
fn play_onto<B: Bench, W: Sink>(
    alloc: Global,
    schedule: &Schedule,
    page: Page,
    spare: &mut Spare,
    disks: &mut Vec<MemDisk>,
    bench: &mut B,
    out: &mut W,
) -> Result<Summary, PlayFault>
    requires schedule { IsSchedule (sched.schedule_of schedule.now) }
    requires none { disks.old.items ≡ [] }
    requires clear { IsClear page }
    requires fit { IsFor page (W.taken out.old) }
    ensures whole { B.still bench.old ≡ true → OnOk result (IsWhole (sched.schedule_of schedule.now)
        (W.taken out.old) (W.taken out.new)) }
    ensures front { B.still bench.old ≡ true → OnErr result (IsFront (sched.schedule_of schedule.now)
        (W.taken out.old) (W.taken out.new)) }
    ensures summary { B.still bench.old ≡ true → IfOk result (Sums (sched.schedule_of schedule.now)) }
    ensures disks { B.still bench.old ≡ true
        → OnOk result (WerePlayed (sched.schedule_of schedule.now) disks.new.items) }
    ensures swapped { OnOk result (IsSwapped (sched.schedule_of schedule.now) (B.gave bench.new)
        (W.taken out.old) (W.taken out.new)) }
    ensures swapped_front { OnErr result (IsSwappedFront (sched.schedule_of schedule.now) (B.gave bench.new)
        (W.taken out.old) (W.taken out.new)) }
    ensures swapped_summary { IfOk result (SumsSwapped (sched.schedule_of schedule.now) (B.gave bench.new)) }
    ensures asked { OnOk result (AsksAll (sched.schedule_of schedule.now) (B.asked bench.old) (B.asked bench.new)) }
    ensures later { W.faults out.old ≤ W.faults out.new }
    ensures cause { result ≡ Err PlayFault.Write → Rose (W.faults out.old) (W.faults out.new) }
    ensures unrisen { result ≢ Err PlayFault.Write → Unrisen (W.faults out.old) (W.faults out.new) }
{
    let events = schedule.events.as_slice();
    let mut run = Run::start(alloc, schedule, page, spare, disks)?;
    run.ledger.transcript.page.hand_out(out)?;
    answer_all(&mut run, disks, bench, events, out)?;
    let summary = Summary::of(&run.ledger.transcript.scribe, events.len() as u32);
    run.ledger.transcript.page.print(&summary.line())?;
    run.ledger.transcript.page.hand_out(out)?;
    Ok(summary)
}

// Lets the nodes answer all events, and hands the lines of each out as soon as they are known.
fn answer_all<'a, B: Bench, W: Sink>(
    run: &mut Run<'a>,
    disks: &mut [MemDisk],
    bench: &mut B,
    events: &[Event],
    out: &mut W,
) -> Result<(), PlayFault>
    requires clear { IsClear run.old.ledger.transcript.page }
    requires fit { IsFor run.old.ledger.transcript.page (W.taken out.old) }
    requires few { length events.now ≤ most_events }
    requires room { lines_told run.old.ledger ≤ most_start_lines }
    ensures clear { OnOk result (IsClear run.new.ledger.transcript.page) }
    ensures whole { OnOk result (B.still bench.old ≡ true → Answers run.old disks.old
        (map event_of events.now) (length events.now) run.new disks.new (W.taken out.old) (W.taken out.new)) }
    ensures swapped { OnOk result (AnswersGiven run.old disks.old (map event_of events.now) (B.gave bench.new)
        (length events.now) run.new disks.new (W.taken out.old) (W.taken out.new)) }
    ensures swapped_front { OnErr result (PrintsGiven run.old disks.old (map event_of events.now) (B.gave bench.new)
        (W.taken out.old) (W.taken out.new)) }
    ensures asked { OnOk result (AsksFor run.old.seats 1 (map event_of events.now) (B.asked bench.old)
        (B.asked bench.new)) }
    ensures calls { OnOk result (B.still bench.old ≡ true → AreMade disks.old run.old (map event_of events.now)
        (length events.now) disks.new) }
    ensures front { OnErr result (B.still bench.old ≡ true → PrintsAll run.old disks.old (map event_of events.now)
        (W.taken out.old) (W.taken out.new)) }
    ensures later { W.faults out.old ≤ W.faults out.new }
    ensures cause { result ≡ Err PlayFault.Write → Rose (W.faults out.old) (W.faults out.new) }
    ensures unrisen { result ≢ Err PlayFault.Write → Unrisen (W.faults out.old) (W.faults out.new) }
{
    for (index, event) in events.iter().enumerate() {
        run.answer(disks, bench, index as u32 + 1, event)?;
        run.ledger.transcript.page.hand_out(out)?;
    }
    Ok(())
}
