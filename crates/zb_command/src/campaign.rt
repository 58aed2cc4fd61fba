//! The command `campaign`.
ghost use Rattle.std.specs.Prelude.{◌≡◌, ◌≢◌, ◌≤◌, Some};
ghost use Rattle.zb_base.specs.Outside.{Unrisen};
ghost use Rattle.zb_campaign.specs.Campaigns.{campaigned};
ghost use Rattle.zb_command.specs.Answers.{campaign_answer};
ghost use Rattle.zb_command.specs.Outcomes.{Ends};
ghost use Rattle.zb_base.specs.Limits.{most_runs, last_start, most_jobs};

use crate::status::{Cause, Status};
use std::alloc::Global;
use std::thread::Threads;
use zb_base::Sink;
use zb_campaign::{CampaignFault, campaign};
use zb_parallel::NoGate;

/// Plays `count` made schedules from the start value `start` on, by `jobs` jobs.
///
/// It writes what they come to.
pub(crate) fn write_campaign<T: Threads + Sync, W: Sink>(
    rt: &T,
    alloc: Global,
    count: u32,
    start: u32,
    jobs: u32,
    output: &mut W,
) -> Status
    requires count { (1 ≤ count) × (count ≤ most_runs) }
    requires start { start ≤ last_start }
    requires jobs { (1 ≤ jobs) × (jobs ≤ most_jobs) }
    ensures ends { Ends result (Some (campaign_answer (campaigned count start))) (W.taken output.old)
        (W.taken output.new) (W.faults output.old) (W.faults output.new) }
    ensures read_fault { result ≡ Status.ReadFault → ⊥ }
    ensures no_write_fault { result ≢ Status.WriteFault → Unrisen (W.faults output.old) (W.faults output.new) }
{
    match campaign(rt, alloc, count, start, jobs, &NoGate, output) {
        Ok(()) => Status::Ok,
        Err(CampaignFault::Write) => Status::WriteFault,
        Err(CampaignFault::Clash { line, cause }) => Status::Refused {
            line,
            cause: Cause::from(cause),
        },
        Err(CampaignFault::NoMemory) => Status::NoMemory,
    }
}
