//! A script.

use zb_base::{Config, Eui, Key, List};
use zb_install::InstallCode;

/// What is to be done with a centre's store.
#[derive(Drop)]
pub enum Order {
    /// A new store is made, of a centre with this network key.
    Init {
        /// The network key, which has the sequence number 0.
        key: Key,
    },
    /// A device is admitted by the install code that is printed on it.
    Provision {
        /// The device.
        device: Eui,
        /// Its install code.
        code: InstallCode,
    },
    /// A device is removed.
    Remove {
        /// The device.
        device: Eui,
        /// Its parent, or the centre itself.
        via: Eui,
    },
    /// The network keys and link keys are shown.
    List,
    /// The backup is shown.
    Backup,
    /// A new store is made of a backup.
    Restore {
        /// How far all limits are raised above those of the backup.
        skip: u32,
        /// The record of the tables that the backup gives.
        bytes: List<u8>,
    },
}

/// An order with the number of its line, from 1.
#[derive(Drop)]
pub struct Step {
    /// The number of the line.
    pub line: u32,
    /// What is to be done.
    pub order: Order,
}

/// The centre's configuration, in which it is the first node, and the steps in their order.
#[derive(Drop)]
pub struct Script {
    /// The configuration.
    pub config: Config,
    /// The steps, at most 10,000.
    pub steps: List<Step>,
}
