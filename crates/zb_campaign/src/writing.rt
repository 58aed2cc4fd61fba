//! Plays the runs of a campaign, and writes their ends.
ghost use Rattle.std.specs.Prelude.{◌≡◌, ◌≢◌, ◌+◌, ◌≤◌, ◌<◌, ◌^◌, ℕ, List, Result, Err};
ghost use Rattle.std.specs.List.{AllByRecursion, AllZip};
ghost use Rattle.zb_base.specs.Outside.{Unrisen};
ghost use Rattle.zb_campaign.specs.Answers.{Answers, last_lines};
ghost use Rattle.zb_campaign.specs.Campaigns.{campaigned, endings, joined};
ghost use Rattle.zb_campaign.specs.Outcomes.{Campaigns};
ghost use Rattle.zb_parallel.specs.Shares.{AreShares};
ghost use Rattle.zb_model.specs.Lines.{Line};
ghost use Rattle.zb_sched.specs.declared.error.SchedError.{SchedError};
ghost use Rattle.zb_base.specs.Limits.{most_runs, last_start, most_jobs};

use crate::fault::CampaignFault;
use crate::lines::print;
use crate::runs::play_share;
use std::alloc::Global;
use std::thread::{Threads, map_vec};
use zb_base::Sink;
use zb_parallel::{Gate, IdleThread, Share, shares};
use zb_player::Summary;

/// Plays `count` generated schedules with `jobs` jobs, and writes a line for each run and the total.
///
/// Run `i`, from 0, plays `make(start + i, 1 + i % 8)`, and its line is `i` and the words of the last line of its
/// transcript. The lines are the same for every number of jobs and every gate. All runs are played before the first
/// line is written. There must be 1 to 1,000 runs, a start value of at most 4,294,966,295, and 1 to 64 jobs.
///
/// # Errors
///
/// `Clash` if the schedule of a run clashes: the first such line of the first such run. Nothing is written then.
/// `Write` if the sink failed, which then has a prefix of the lines. `NoMemory`, and nothing is written.
pub fn campaign<T: Threads + Sync, G: Gate, W: Sink>(
    rt: &T,
    alloc: Global,
    count: u32,
    start: u32,
    jobs: u32,
    gate: &G,
    out: &mut W,
) -> Result<(), CampaignFault>
    requires count { (1 ≤ count) × (count ≤ most_runs) }
    requires start { start ≤ last_start }
    requires jobs { (1 ≤ jobs) × (jobs ≤ most_jobs) }
    ensures ends { Campaigns (campaigned count start) (W.taken out.old) (W.taken out.new) (W.faults out.old)
        (W.faults out.new) result }
    ensures later { W.faults out.old ≤ W.faults out.new }
    // No fault of the sink is reported as another one.
    ensures unrisen { result ≢ Err CampaignFault.Write → Unrisen (W.faults out.old) (W.faults out.new) }
{
    let shares = shares(alloc, count, jobs)?;
    let ends = play_all(rt, alloc, start, gate, shares)?;
    let page = print(alloc, ends.as_slice())?;
    out.write(page.as_slice())?;
    Ok(())
}

/// Plays the runs of all shares, each share in its own thread, and returns their ends.
fn play_all<T: Threads + Sync, G: Gate>(
    rt: &T,
    alloc: Global,
    start: u32,
    gate: &G,
    shares: Vec<Share>,
) -> Result<Vec<Summary>, CampaignFault>
    requires { AllByRecursion (λ share. start + share.first + share.count < 2 ^ 32) shares.items }
    ensures { (size count : ℕ) → AreShares size 0 0 count shares.items
        → Answers last_lines result (endings start 0 count) }
{
    let idle = IdleThread::start(rt, shares.len());
    let played = map_vec(
        rt,
        shares,
        &|share: Share| -> Result<Vec<Summary>, CampaignFault>
            requires { start + share.first + share.count < 2 ^ 32 }
            ensures { Answers last_lines result (endings start share.first share.count) }
        {
            gate.pass(share.number);
            play_share(alloc, start, share)
        },
    )?;
    idle.end(rt);
    gather(alloc, played.as_slice())
}

/// Joins the ends of consecutive shares. The first fault among them counts.
fn gather(
    alloc: Global,
    played: &[Result<Vec<Summary>, CampaignFault>],
) -> Result<Vec<Summary>, CampaignFault>
    ensures { (wanted : List (Result (List Line) SchedError))
        → AllZip (λ came should. Answers last_lines came should) played.now wanted
        → Answers last_lines result (joined wanted) }
{
    let mut all = Vec::new(alloc);
    for share in played {
        match share {
            Ok(ends) => all.extend_from_slice(ends.as_slice())?,
            Err(fault) => return Err(*fault),
        }
    }
    Ok(all)
}
