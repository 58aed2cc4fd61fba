//! The lines of a campaign.
ghost use Rattle.std.specs.Prelude.{◌≡◌, ◌≤◌, ◌++◌, length, map, decimal, IfOk, OnOk};
ghost use Rattle.zb_campaign.specs.Campaigns.{campaign_text, run_line, runs_text};
ghost use Rattle.zb_campaign.specs.Totals.{total_text};
ghost use Rattle.zb_player.specs.Runs.{last_line};
ghost use Rattle.zb_text.specs.Words.{then};
ghost use Rattle.zb_base.specs.Limits.{most_runs};

use crate::total::{Total, total_of};
use itoa::Buffer;
use std::alloc::{AllocError, Global};
use zb_player::Summary;
use zb_text::numbers::put_number;
use zb_text::page::{add_number, add_word, end_line, put};
use zb_trace::put_line;

/// Prints the lines of all runs, and the total. There must be at most 1,000 runs.
#[tactic(auto, using(std::proofs::Common::append_assoc))]
pub(crate) fn print(alloc: Global, ends: &[Summary]) -> Result<Vec<u8>, AllocError>
    requires { length ends.now ≤ most_runs }
    ensures { IfOk result (λ page. page.items ≡ campaign_text (map last_line ends.now)) }
{
    let mut page = Vec::new(alloc);
    put_runs(&mut page, ends)?;
    put_total(&mut page, ends.len() as u32, &total_of(ends))?;
    Ok(page)
}

// Prints the lines of runs, from number 0 on.
fn put_runs(out: &mut Vec<u8>, ends: &[Summary]) -> Result<(), AllocError>
    requires { length ends.now ≤ most_runs }
    ensures { OnOk result (out.new.items ≡ out.old.items ++ runs_text 0 (map last_line ends.now)) }
{
    let mut number: u32 = 0;
    for end in ends {
        put_run(out, number, end)?;
        number += 1;
    }
    Ok(())
}

// Prints the line of a run: its number, and the last line of its transcript.
fn put_run(out: &mut Vec<u8>, number: u32, end: &Summary) -> Result<(), AllocError>
    ensures { OnOk result (out.new.items ≡ out.old.items ++ run_line number (last_line end.now)) }
{
    put_number(out, number)?;
    put(out, b" ")?;
    put_line(out, &end.line())?;
    Ok(())
}

// Prints the line of the total of `count` runs.
#[tactic(auto, using(std::proofs::Common::append_assoc))]
fn put_total(out: &mut Vec<u8>, count: u32, total: &Total) -> Result<(), AllocError>
    ensures { OnOk result (out.new.items ≡ out.old.items ++ total_text count total.now) }
{
    put(out, b"total")?;
    add_number(out, count)?;
    add_count(out, total.seals)?;
    add_count(out, total.accepts)?;
    add_count(out, total.refusals)?;
    end_line(out)?;
    Ok(())
}

// Prints a count in decimal digits after a space.
fn add_count(out: &mut Vec<u8>, count: u64) -> Result<(), AllocError>
    ensures { OnOk result (out.new.items ≡ out.old.items ++ then (decimal count)) }
{
    let mut digits = Buffer::new();
    add_word(out, digits.format(count).as_bytes())?;
    Ok(())
}
