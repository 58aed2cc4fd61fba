//! Why an event of a node is refused.
use zb_base::{Eui, Place};

/// Why an event is refused, and where.
///
/// The reasons stand in the order in which they are tried, but for `NoFrame`, which is tried right after `Down`.
#[derive(Clone, Copy, Debug, PartialEq, Eq)]
pub enum Refusal {
    /// The node is down.
    Down { place: Place },
    /// The bytes are no frame, or no command that a node reads.
    Malformed { place: Place },
    /// The frame is from this node, or for another.
    NotForMe { place: Place },
    /// The network layer has no security where it needs it.
    Unsecured { place: Place },
    /// There is no key to open, or to seal, with.
    NoKey { place: Place },
    /// The frame has the greatest counter, which is never used.
    CounterMax { place: Place },
    /// The frame's counter is below the sender's floor, which is shown.
    Stale { place: Place, floor: u32 },
    /// The MIC doesn't match.
    BadMic { place: Place },
    /// No node of this role takes such a command in that form.
    Policy { place: Place },
    /// The sender, or the device that is spoken of, isn't admitted.
    NotMember { place: Place },
    /// The node isn't in a state for it.
    WrongState { place: Place },
    /// The network key was dropped before; `at` is the place of its row, from 0.
    KeyOld { place: Place, at: u32 },
    /// There is no room for another network key.
    KeysFull { place: Place },
    /// There is no room for another link key, pair or floor.
    RowsFull { place: Place },
    /// The link key is that of another partner, which is shown.
    KeyInUse { place: Place, partner: Eui },
    /// The supply of keys is used up.
    NoDraw { place: Place },
    /// An outgoing counter is used up.
    CounterSpent { place: Place },
    /// The hash is that of no key of the device.
    WrongHash { place: Place },
    /// No frame of that number went on the air.
    NoFrame { place: Place },
}

/// What is reported beside the word of a refusal's reason.
#[derive(Clone, Copy, Debug, PartialEq, Eq)]
pub enum Detail {
    /// Nothing.
    Nothing,
    /// A sender's floor, or the place of a row, from 0.
    Number(u32),
    /// The partner that has the key.
    Partner(Eui),
}

impl Refusal {
    ghost use Rattle.std.specs.Prelude.{◌≡◌};
    ghost use Rattle.zb_node_types.specs.Changes.{place_of, reason};
    ghost use Rattle.zb_node_types.specs.Reasons.{reason_detail, reason_word};

    /// Returns where the event is refused.
    pub fn place(&self) -> Place
        ensures { result ≡ place_of self.now }
    {
        match *self {
            Refusal::Down { place } => place,
            Refusal::Malformed { place } => place,
            Refusal::NotForMe { place } => place,
            Refusal::Unsecured { place } => place,
            Refusal::NoKey { place } => place,
            Refusal::CounterMax { place } => place,
            Refusal::Stale { place, floor: _ } => place,
            Refusal::BadMic { place } => place,
            Refusal::Policy { place } => place,
            Refusal::NotMember { place } => place,
            Refusal::WrongState { place } => place,
            Refusal::KeyOld { place, at: _ } => place,
            Refusal::KeysFull { place } => place,
            Refusal::RowsFull { place } => place,
            Refusal::KeyInUse { place, partner: _ } => place,
            Refusal::NoDraw { place } => place,
            Refusal::CounterSpent { place } => place,
            Refusal::WrongHash { place } => place,
            Refusal::NoFrame { place } => place,
        }
    }

    /// Returns the word of the reason, as transcripts and a store's answers have it.
    pub fn word(&self) -> &'static [u8]
        ensures { result.now ≡ reason_word (reason self.now) }
    {
        match self {
            Refusal::Down { .. } => b"down",
            Refusal::Malformed { .. } => b"malformed",
            Refusal::NotForMe { .. } => b"not-for-me",
            Refusal::Unsecured { .. } => b"unsecured",
            Refusal::NoKey { .. } => b"no-key",
            Refusal::CounterMax { .. } => b"counter-max",
            Refusal::Stale { .. } => b"stale",
            Refusal::BadMic { .. } => b"bad-mic",
            Refusal::Policy { .. } => b"policy",
            Refusal::NotMember { .. } => b"not-member",
            Refusal::WrongState { .. } => b"wrong-state",
            Refusal::KeyOld { .. } => b"key-old",
            Refusal::KeysFull { .. } => b"keys-full",
            Refusal::RowsFull { .. } => b"rows-full",
            Refusal::KeyInUse { .. } => b"key-in-use",
            Refusal::NoDraw { .. } => b"no-draw",
            Refusal::CounterSpent { .. } => b"counter-spent",
            Refusal::WrongHash { .. } => b"wrong-hash",
            Refusal::NoFrame { .. } => b"no-frame",
        }
    }

    /// Returns what is reported beside the word of the reason.
    pub fn detail(&self) -> Detail
        ensures { result ≡ reason_detail (reason self.now) }
    {
        match *self {
            Refusal::Stale { place: _, floor } => Detail::Number(floor),
            Refusal::KeyOld { place: _, at } => Detail::Number(at),
            Refusal::KeyInUse { place: _, partner } => Detail::Partner(partner),
            _ => Detail::Nothing,
        }
    }
}
