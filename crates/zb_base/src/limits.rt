//! The limits of this profile: on frames, captures, schedules, scripts and campaigns.

/// The longest frame, in bytes (IEEE 802.15.4: aMaxPHYPacketSize).
pub const LONGEST_FRAME: usize = 127;

/// The most frames of a capture, and records of a capture file.
pub const MOST_FRAMES: usize = 100_000;

/// The most keys that a capture gives, and that a command line may have.
pub const MOST_KEYS: usize = 256;

/// The most events of a schedule.
pub const MOST_EVENTS: usize = 100_000;

/// The most nodes of a schedule or script.
pub const MOST_NODES: usize = 64;

/// The most steps of a script.
pub const MOST_STEPS: usize = 10_000;

/// The most outgoing counters that a node reserves at once.
pub const MOST_OUT_BLOCK: u32 = 65_536;

/// The most incoming counters that a node takes before it stores its floor.
pub const MOST_IN_BLOCK: u32 = 1024;

/// The most routers and devices of a generated schedule.
pub const MOST_MADE: u32 = 60;

/// The most jobs that share the work of a report or campaign.
pub const MOST_JOBS: u32 = 64;

/// The most runs of a campaign.
pub const MOST_RUNS: u32 = 1000;

/// The greatest start value of a campaign: its last run still has a start value below 2^32.
pub const LAST_START: u32 = 4_294_966_295;
