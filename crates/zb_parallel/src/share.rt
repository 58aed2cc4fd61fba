//! Cutting work into the shares of several jobs.
ghost use Rattle.std.specs.Prelude.{◌≤◌, length, IfOk};
ghost use Rattle.std.specs.Int.{div_ceil};
ghost use Rattle.zb_parallel.specs.Shares.{AreShares};

use std::alloc::Global;
use zb_base::NoMemory;

/// The work of one job: `count` consecutive items.
#[derive(Clone, Copy, Debug, PartialEq, Eq)]
pub struct Share {
    /// The number of the share, from 0.
    pub number: u32,
    /// The place of its first item, from 0.
    pub first: u32,
    /// How many items it has.
    pub count: u32,
}

/// Cuts `total` items into consecutive shares, at most one for each job.
///
/// Requires at least one job. Each share except the last has the number of items per job, rounded up.
///
/// # Errors
/// `NoMemory`.
pub fn shares(alloc: Global, total: u32, jobs: u32) -> Result<Vec<Share>, NoMemory>
    requires { 1 ≤ jobs }
    ensures cut { IfOk result (λ v. AreShares (div_ceil total jobs) 0 0 total v.items) }
    ensures few { IfOk result (λ v. length v.items ≤ jobs) }
{
    let size = total.div_ceil(jobs);
    let mut shares = Vec::new(alloc);
    let mut number: u32 = 0;
    let mut first: u32 = 0;
    while first < total {
        let count = size.min(total - first);
        shares.push(Share {
            number,
            first,
            count,
        })?;
        number += 1;
        first += count;
    }
    Ok(shares)
}
