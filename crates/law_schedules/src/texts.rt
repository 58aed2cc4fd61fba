//! Laws for each text. Their calls read the text line by line and keep nothing, because the call that reads a line
//! has a clause with what that line may say.

ghost use Rattle.std.specs.Prelude.{◌≡◌, Ok};
ghost use Rattle.law_schedules.specs.Schedules.{schedule_of};
ghost use Rattle.zb_sched.specs.Schedules.{Schedule};
ghost use Rattle.zb_sched.specs.Reading.{schedule_in};
ghost use Rattle.zb_sched.specs.Valid.{IsSchedule};
ghost use Rattle.law_real_runs.specs.Headline.{Holds};

use crate::laws::each_schedule_holds;
use zb_sched_line::read_line;
use zb_text::lines::next_line;

/// States that each text that is a schedule keeps what every schedule keeps.
pub fn texts_read_as_schedules(text: &[u8])
    ensures { (p : Schedule) → schedule_in text.now ≡ Ok p → IsSchedule p }
{
    let mut rest = text;
    while let Some((line, after)) = next_line(rest) {
        let _ = read_line(line);
        rest = after;
    }
}

/// States that all laws over runs hold for the run of each text that is a schedule.
pub fn each_text_holds(text: &[u8])
    ensures { (p : Schedule) → schedule_in text.now ≡ Ok p → Holds (schedule_of p) }
{
    texts_read_as_schedules(text);
    each_schedule_holds();
}
