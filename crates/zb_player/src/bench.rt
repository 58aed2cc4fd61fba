//! What may put another disk under a node.
ghost use Rattle.std.specs.Prelude.{◌≡◌, ℕ, true, Bool, List, [], ◌∷◌, Option, None};
ghost use Rattle.zb_disk.specs.Memory.{Medium};
ghost use Rattle.zb_player.specs.Benches.{Asks, Gave, Question};

use zb_disk::MemDisk;

/// What may put other disks under the nodes of a run.
///
/// It is asked once before each event of a node, and before what is armed counts. A bench that is still gives none,
/// and stays still.
pub trait Bench {
    /// Whether it leaves each node its disk, now and later.
    ghost still: { Self → Bool };

    /// The questions so far, where it tells them.
    ghost asked: { Self → Option (List Question) };

    /// What it gives at the next question.
    ghost gives: { Self → ℕ → ℕ → Option Medium };

    /// What it gave before the event of each number, where it tells it.
    ghost gave: { Self → Option (ℕ → Option Medium) };

    /// Returns the disk that takes the place of the node's, or none where that one stays.
    ///
    /// The event has the number `event`, from 1; the node is the one at the place `node`, from 0.
    fn swap(&mut self, event: u32, node: u8) -> Option<MemDisk>
        ensures none { still self.old ≡ true → result ≡ None }
        ensures stays { still self.old ≡ true → still self.new ≡ true }
        ensures asked { Asks (asked self.old) (asked self.new) (record { event = event; place = node } ∷ []) }
        ensures gives { result ≡ gives self.old event node }
        ensures gave { Gave (gave self.old) (gave self.new) event (gives self.old event node) };
}

/// A bench that leaves each node its disk.
#[derive(Clone, Copy, Debug, PartialEq, Eq)]
pub struct Still;

impl Bench for Still {
    ghost still = { λ bench. true };

    ghost asked = { λ bench. None };

    ghost gives = { λ bench event node. None };

    ghost gave = { λ bench. None };

    fn swap(&mut self, _event: u32, _node: u8) -> Option<MemDisk> {
        None
    }
}
