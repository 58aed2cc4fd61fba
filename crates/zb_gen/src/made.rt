//! A made schedule.

ghost use Rattle.std.specs.Prelude.{◌≡◌, ◌+◌, ◌*◌, ◌≤◌, IfOk, OnOk, Ok};
ghost use Rattle.zb_sched.specs.Schedules.{schedule_of};
ghost use Rattle.zb_sched.specs.Printed.{printed};
ghost use Rattle.zb_sched.specs.Reading.{schedule_in};
ghost use Rattle.zb_sched.specs.Valid.{IsSchedule};
ghost use Rattle.zb_gen.specs.Made.{made_schedule, made_lines};
ghost use Rattle.zb_gen.specs.Faults.{Makes};
ghost use Rattle.zb_gen.specs.Progress.{after_texts, Comes, declarations, events};
ghost use Rattle.zb_base.specs.Limits.{most_made};
ghost use Rattle.zb_gen.specs.Bounds.{most_declarations};

use crate::codes::Codes;
use crate::lines::{take_centre_line, take_codes, take_joins, take_nodes, take_supply};
use crate::maker::{GenFault, Maker};
use crate::steps::{take_late, take_rollover, take_steps};
use crate::words::Words;
use std::alloc::Global;
use zb_sched::Schedule;

/// Makes the schedule of a start value for `n` routers and devices. Printed, it reads as itself. Requires 1 to 60 of
/// them.
///
/// # Errors
/// `Clash` where two of the keys are equal, or one is the well-known key: the first line that is no schedule's, and
/// why. Or out of memory.
pub fn make(alloc: Global, start: u32, n: u32) -> Result<Schedule, GenFault>
    requires { (1 ≤ n) × (n ≤ most_made) }
    ensures exact { Makes result (made_schedule start n) }
    ensures valid { IfOk result (λ schedule. IsSchedule (schedule_of schedule)) }
    ensures again { IfOk result (λ schedule. schedule_in (printed (schedule_of schedule))
        ≡ Ok (schedule_of schedule)) }
{
    let mut maker = Maker::new(alloc);
    maker.reserve(81 * n + 2)?;
    take_made(alloc, &mut maker, start, n)?;
    maker.finish(alloc)
}

fn take_made(alloc: Global, maker: &mut Maker, start: u32, n: u32) -> Result<(), GenFault>
    requires { (1 ≤ n) × (n ≤ most_made) × (maker.old.line ≤ 1) }
    ensures { Comes result maker.new (after_texts maker.old (made_lines start n)) }
{
    let mut words = Words::new(start);
    let codes = Codes::take(alloc, &mut words, n)?;
    take_declarations(maker, &codes, &mut words, n)?;
    take_events(maker, &codes, &mut words, n)
}

fn take_declarations(
    maker: &mut Maker,
    codes: &Codes,
    words: &mut Words,
    n: u32,
) -> Result<(), GenFault>
    requires numbers { (n ≤ most_made) × (n ≤ codes.now.count) × (maker.old.line ≤ 1) }
    requires words { words.old ≡ record { start = codes.now.start; place = 4 * n } }
    ensures lines { Comes result maker.new (after_texts maker.old (declarations codes.now.start n)) }
    ensures count { OnOk result (maker.new.line ≤ most_declarations) }
    ensures words { OnOk result (words.new ≡ record { start = codes.now.start; place = 8 * n + 8 }) }
{
    take_centre_line(maker)?;
    take_nodes(maker, n)?;
    take_codes(maker, codes, n)?;
    take_supply(maker, words, n)
}

fn take_events(maker: &mut Maker, codes: &Codes, words: &mut Words, n: u32) -> Result<(), GenFault>
    requires numbers { (1 ≤ n) × (n ≤ most_made) × (n ≤ codes.now.count) × (maker.old.line ≤ most_declarations) }
    requires words { words.old ≡ record { start = codes.now.start; place = 8 * n + 8 } }
    ensures { Comes result maker.new (after_texts maker.old (events codes.now.start n)) }
{
    take_joins(maker, codes, n)?;
    take_steps(maker, words, n)?;
    take_rollover(maker, n)?;
    take_late(maker, words, n)
}
