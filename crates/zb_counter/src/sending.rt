//! Outgoing counters: numbers from a block whose end was stored.
ghost use Rattle.std.specs.Prelude.{◌≡◌, ◌≤◌};

/// An outgoing frame counter.
///
/// The numbers from `next` up to `limit`, without `limit` itself, are reserved.
#[derive(Clone, Copy, Debug, PartialEq, Eq)]
pub struct Outgoing {
    /// The number of the next frame.
    pub next: u32,
    /// The first number that isn't reserved. This is the stored limit.
    pub limit: u32,
    /// How many numbers a reservation takes.
    pub block: u32,
}

/// The answer to a draw.
#[derive(Clone, Copy, Debug, PartialEq, Eq)]
pub enum Draw {
    /// The number for a frame.
    Ready(u32),
    /// No number is reserved: store this limit, call `reserved`, and draw again.
    Reserve {
        /// The limit to be stored.
        limit: u32,
    },
    /// All numbers are used up. The last one, 2^32 - 1, is never sent.
    Spent,
}

impl Outgoing {
    ghost use Rattle.zb_counter.specs.Outgoing.{draw_of, after_draw};

    /// Makes a counter as a boot finds it: it continues from the stored limit.
    ///
    /// Any number below may have been used.
    pub fn after_boot(limit: u32, block: u32) -> Outgoing
        ensures { result ≡ record { next = limit; limit = limit; block = block } }
    {
        Outgoing {
            next: limit,
            limit,
            block,
        }
    }

    /// Draws the next number, if it is reserved.
    ///
    /// Otherwise the counter stays as it is.
    pub fn draw(&mut self) -> Draw
        ensures answer { result ≡ draw_of self.old }
        ensures after { self.new ≡ after_draw self.old }
    {
        if self.next == u32::MAX {
            return Draw::Spent;
        }
        if self.next == self.limit {
            let limit = self.next.saturating_add(self.block);
            return Draw::Reserve { limit };
        }
        let number = self.next;
        self.next += 1;
        Draw::Ready(number)
    }

    /// Raises the limit to one that has been stored.
    ///
    /// Requires that it isn't below the limit so far.
    pub fn reserved(&mut self, limit: u32)
        requires { self.old.limit ≤ limit }
        ensures { self.new ≡ record self.old { limit = limit } }
    {
        self.limit = limit;
    }
}
