//! The states of a node, of a link key and of a rollover.

/// How far a router or device is in joining the network. The centre stays in `Fresh`.
#[derive(Clone, Copy, Debug, Default, PartialEq, Eq, PartialOrd, Ord, Hash)]
pub enum State {
    /// It holds no network key.
    #[default]
    Fresh,
    /// It asked to join and waits for the network key.
    Knocked,
    /// It holds the network key.
    Joined,
    /// It was also given a link key of its own, which isn't verified yet.
    Offered,
    /// The centre confirmed its own link key.
    Confirmed,
    /// It asked to rejoin and waits for the network key.
    Rejoining,
    /// It was told to leave.
    Gone,
}

/// The attribute of a link key (05-3474-21, 4.7.4.1).
#[derive(Clone, Copy, Debug, Default, PartialEq, Eq, PartialOrd, Ord, Hash)]
pub enum Attribute {
    /// The key comes from an install code.
    #[default]
    Provisional,
    /// The centre made the key, and the device hasn't proved yet that it holds it.
    Unverified,
    /// Both sides proved that they hold the key.
    Verified,
}

/// Whether the centre is giving a new network key to its devices.
#[derive(Clone, Copy, Debug, Default, PartialEq, Eq, PartialOrd, Ord, Hash)]
pub enum Rollover {
    /// All devices hold the active network key, or none was told of another.
    #[default]
    Idle,
    /// The newest network key is being sent to one device after the other.
    Sending,
}
