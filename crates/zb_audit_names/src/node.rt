//! What is known about a node.
use zb_base::{Eui, Role};

/// What the first `0 node` line of a name declares.
#[derive(Clone, Copy)]
pub struct Node {
    /// The EUI.
    pub eui: Eui,
    /// The role.
    pub role: Role,
    /// How many outgoing frame counters are reserved at once.
    pub out_block: u32,
    /// How far ahead a floor for incoming frame counters is stored.
    pub in_block: u32,
}

/// The node of a line, by the lines before it.
#[derive(Clone, Copy)]
pub struct Who {
    /// The place of its name among all names, in the order of their first occurrences.
    pub place: usize,
    /// What was declared about it, if anything.
    pub node: Option<Node>,
    /// Whether it is the first declared centre.
    pub is_centre: bool,
}

/// The node of a line that names none.
pub const NOBODY: Who = Who {
    place: 0,
    node: None,
    is_centre: false,
};
