//! The node of a line.
use zb_base::Eui;

/// The node of a line, as far as the two words of the end line need it.
#[derive(Clone, Copy)]
pub struct Speaker {
    /// The number under which its own keys are kept, if any: its EUI or the place of its name.
    pub number: Option<u64>,
    /// That number, if the node is a router or device.
    pub joiner: Option<u64>,
    /// Its EUI, if it was declared.
    pub address: Option<Eui>,
    /// Whether it is the centre.
    pub is_centre: bool,
}

/// The node of a line about which the two words need nothing.
pub const NOBODY: Speaker = Speaker {
    number: None,
    joiner: None,
    address: None,
    is_centre: false,
};
