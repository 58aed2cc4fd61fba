//! What a node knows when it judges a frame.
use zb_keys::Tables;
use zb_seal::KeyMemo;
use zb_setting::Network;

/// What a node knows when it judges a frame: its network, its tables and the keys that it has expanded.
#[derive(Drop)]
pub struct Known<'a> {
    /// The network that it is configured for.
    pub network: &'a Network,
    /// What it keeps.
    pub tables: &'a Tables,
    /// The keys that it has expanded. A key that isn't among them is expanded when it is used.
    pub memo: &'a KeyMemo,
}
