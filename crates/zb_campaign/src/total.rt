//! The sums of the counts of runs.
ghost use Rattle.std.specs.Prelude.{◌≡◌, ◌+◌, ◌*◌, ◌≤◌, ◌<◌, ◌^◌, length, map, sum_by};
ghost use Rattle.zb_campaign.specs.Campaigns.{accepts_in, refusals_in, seals_in};
ghost use Rattle.zb_player.specs.Runs.{last_line};
ghost use Rattle.zb_base.specs.Limits.{most_lines, most_runs};

use zb_player::Summary;

/// The sums of the counts of several runs.
#[derive(Clone, Copy, Debug, PartialEq, Eq)]
pub(crate) struct Total {
    /// How many terms were sealed.
    pub seals: u64,
    /// How many terms were accepted.
    pub accepts: u64,
    /// How many events were refused.
    pub refusals: u64,
}

impl Total {
    // Adds the counts of a run.
    fn add(&mut self, end: &Summary)
        requires { (self.old.seals < 2 ^ 63) × (self.old.accepts < 2 ^ 63) × (self.old.refusals < 2 ^ 63) }
        ensures seals { self.new.seals ≡ self.old.seals + end.now.seals }
        ensures accepts { self.new.accepts ≡ self.old.accepts + end.now.accepts }
        ensures refusals { self.new.refusals ≡ self.old.refusals + end.now.refusals }
        ensures few_seals { self.new.seals ≤ self.old.seals + most_lines }
        ensures few_accepts { self.new.accepts ≤ self.old.accepts + most_lines }
        ensures few_refusals { self.new.refusals ≤ self.old.refusals + most_lines }
    {
        self.seals += end.seals as u64;
        self.accepts += end.accepts as u64;
        self.refusals += end.refusals as u64;
    }
}

/// Adds up the counts of runs. There must be at most 1,000 of them.
pub(crate) fn total_of(ends: &[Summary]) -> Total
    requires { length ends.now ≤ most_runs }
    ensures seals { result.seals ≡ sum_by seals_in (map last_line ends.now) }
    ensures accepts { result.accepts ≡ sum_by accepts_in (map last_line ends.now) }
    ensures refusals { result.refusals ≡ sum_by refusals_in (map last_line ends.now) }
{
    let mut total = Total {
        seals: 0,
        accepts: 0,
        refusals: 0,
    };
    for end in ends {
        total.add(end);
    }
    total
}
