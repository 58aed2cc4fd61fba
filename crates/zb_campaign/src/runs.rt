//! Runs: each plays a generated schedule of its own, on the disks of the run before it.
ghost use Rattle.std.specs.Prelude.{◌≡◌, ◌+◌, ◌<◌, ◌^◌, IfOk};
ghost use Rattle.zb_campaign.specs.Answers.{Answers, last_lines};
ghost use Rattle.zb_campaign.specs.Campaigns.{ending_of_run, endings};
ghost use Rattle.zb_player.specs.Runs.{Sums, last_line};
ghost use Rattle.zb_sched.specs.Schedules.{schedule_of};
ghost use Rattle.zb_sched.specs.Valid.{IsSchedule};

use crate::fault::CampaignFault;
use std::alloc::Global;
use zb_base::NoMemory;
use zb_gen::make;
use zb_parallel::Share;
use zb_player::{Spare, Summary, play_unread};
use zb_sched::Schedule;

/// Plays the runs of a share one after the other, and returns their ends.
///
/// Each run uses the disks of the run before it.
///
/// # Errors
///
/// `Clash` for the first run whose schedule clashes; `NoMemory`.
pub(crate) fn play_share(
    alloc: Global,
    start: u32,
    share: Share,
) -> Result<Vec<Summary>, CampaignFault>
    requires { start + share.first + share.count < 2 ^ 32 }
    ensures { Answers last_lines result (endings start share.first share.count) }
{
    let mut ends = Vec::with_capacity(alloc, share.count as usize)?;
    let mut spare = Spare::new(alloc);
    for i in 0..share.count {
        ends.push(play_run(alloc, start, share.first + i, &mut spare)?)?;
    }
    Ok(ends)
}

/// Plays the run of that number, from 0, on spare disks. Afterwards the spare disks are those that the run used and
/// those that it didn't.
fn play_run(
    alloc: Global,
    start: u32,
    run: u32,
    spare: &mut Spare,
) -> Result<Summary, CampaignFault>
    requires { start + run < 2 ^ 32 }
    ensures { Answers last_line result (ending_of_run start run) }
{
    let schedule = make(alloc, start + run, 1 + run % 8)?;
    let end = play_unwritten(alloc, &schedule, spare)?;
    Ok(end)
}

/// Plays a schedule without writing its transcript, and adds its disks to the spare ones.
fn play_unwritten(
    alloc: Global,
    schedule: &Schedule,
    spare: &mut Spare,
) -> Result<Summary, NoMemory>
    requires { IsSchedule (schedule_of schedule.now) }
    ensures { IfOk result (Sums (schedule_of schedule.now)) }
{
    let mut disks = Vec::new(alloc);
    let end = play_unread(alloc, schedule, spare, &mut disks)?;
    spare.disks.append(&mut disks)?;
    Ok(end)
}
