//! Values as they were before a group of lines, and as they are now.
ghost use Rattle.std.specs.Prelude.{◌≡◌};
ghost use Rattle.zb_audit_counters.specs.Standing.{before_of, set_in};

/// A value as it was before the group in which it was last set, and as it is now.
#[derive(Clone, Copy)]
pub struct Versioned<T> {
    /// What it was before that group.
    pub earlier: T,
    /// What it is now.
    pub latest: T,
    /// The number of that group's first line.
    pub group: u32,
}

impl<T: Copy> Versioned<T> {
    /// Makes a value that was never set.
    pub fn new(value: T) -> Versioned<T>
        ensures { result ≡ record { earlier = value; latest = value; group = 0 } }
    {
        Versioned {
            earlier: value,
            latest: value,
            group: 0,
        }
    }

    /// Returns the value before a group, if no later group has set it.
    pub fn before(&self, group: u32) -> T
        ensures { result ≡ before_of group self.now }
    {
        if self.group < group {
            self.latest
        } else {
            self.earlier
        }
    }

    /// Sets the value in a group.
    pub fn set(&mut self, group: u32, value: T)
        ensures { self.new ≡ set_in group value self.old }
    {
        self.earlier = self.before(group);
        self.latest = value;
        self.group = group;
    }
}
