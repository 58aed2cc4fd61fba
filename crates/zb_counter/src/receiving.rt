//! Incoming counters: the floor below which a sender's numbers are refused.
ghost use Rattle.std.specs.Prelude.{◌≡◌, ◌<◌, ◌≤◌, ◌+◌};

/// The floor of one sender under one key.
#[derive(Clone, Copy, Debug, PartialEq, Eq)]
pub struct Floor {
    /// The least number that is taken now.
    pub kept: u32,
    /// The least number that is taken after a boot. This is the stored floor.
    pub stored: u32,
}

/// The answer to a received number.
#[derive(Clone, Copy, Debug, PartialEq, Eq)]
pub enum Judge {
    /// It may be accepted. If `store_to` is present, it must be stored as the floor first.
    Fresh {
        /// The floor to be stored first, if the number isn't below the stored floor.
        store_to: Option<u32>,
    },
    /// It is below the floor, which is shown.
    Stale {
        /// The floor now.
        floor: u32,
    },
    /// It is 2^32 - 1, which is never accepted.
    Max,
}

impl Floor {
    ghost use Rattle.zb_counter.specs.Outgoing.{last_counter};
    ghost use Rattle.zb_counter.specs.Floor.{judge_of};

    /// Makes a floor as a boot finds it: at the stored one.
    ///
    /// Any number below may have been accepted.
    pub fn after_boot(stored: u32) -> Floor
        ensures { result ≡ record { kept = stored; stored = stored } }
    {
        Floor {
            kept: stored,
            stored,
        }
    }

    /// Checks a received number.
    ///
    /// A new stored floor is `block` above the number.
    pub fn judge(&self, counter: u32, block: u32) -> Judge
        ensures { result ≡ judge_of self.now counter block }
    {
        if counter == u32::MAX {
            return Judge::Max;
        }
        if counter < self.kept {
            return Judge::Stale { floor: self.kept };
        }
        if counter < self.stored {
            return Judge::Fresh { store_to: None };
        }
        let store_to = Some(counter.saturating_add(block));
        Judge::Fresh { store_to }
    }

    /// Takes a number: this number and those below it are refused from now on.
    ///
    /// Requires that `judge` found the number fresh. Call it once the floor that `judge` returned is stored.
    pub fn accepted(&mut self, counter: u32)
        requires below_last { counter < last_counter }
        requires not_stale { self.old.kept ≤ counter }
        ensures { self.new ≡ record self.old { kept = counter + 1 } }
    {
        self.kept = counter + 1;
    }
}
