//! What one node knows of its network, made once from its configuration: which nodes are declared, which one is the
//! centre, and the node's own addresses, role and blocks of counters.
#![tactic(auto)]

mod network;
mod peers;

pub use network::Network;
