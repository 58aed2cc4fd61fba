//! The network of the example: its centre and one device, and what the centre begins with.
ghost use Rattle.std.specs.Prelude.{◌≡◌, ◌≤◌, length};
ghost use Rattle.zb_base.specs.Config.{IsConfig};
ghost use Rattle.zb_model.specs.Data as model;
ghost use Rattle.zb_stored_tables.specs.Cores.{IsOfRole};

use arrayvec::ArrayVec;
use zb_base::{Config, Eui, Key, Name, Peer, Role, Short};
use zb_keys::{Declaration, HeldNetwork};

/// The address of the device.
pub(crate) const DEVICE: Eui = Eui(0x0012_4B00_0000_0002);

/// The first network key. A real hub draws its own, at random.
const NETWORK: Key = Key([0, 1, 2, 3, 4, 5, 6, 7, 8, 9, 10, 11, 12, 13, 14, 15]);

/// Returns the configuration of the centre: the declared nodes, and its blocks of counters.
#[tactic(auto, unfolding(zb_setting::specs::Settings::setting_for))]
pub(crate) fn config() -> Config
    ensures config { IsConfig result }
    ensures role { IsOfRole model.Centre result }
{
    let mut peers = ArrayVec::new();
    peers.push(peer("c", Eui(0x0012_4B00_0000_0001), 0, Role::Centre));
    peers.push(peer("d", DEVICE, 0x1A2B, Role::Device));
    Config {
        me: 0,
        peers,
        out_block: 1_000,
        in_block: 4,
    }
}

/// Returns what the centre begins with: a network key of sequence 0.
pub(crate) fn first_keys() -> Declaration {
    Declaration {
        role: Role::Centre,
        network: Some(HeldNetwork {
            key: NETWORK,
            sequence: 0,
        }),
        code: None,
        nwk: 0,
        aps: 0,
    }
}

/// Returns a declared node. The name must have at most 16 bytes.
fn peer(name: &str, eui: Eui, short: u16, role: Role) -> Peer
    requires { length name.now ≤ 16 }
    ensures name { result.name.bytes ≡ name.now }
    ensures eui { result.eui ≡ eui }
    ensures short { result.short.0 ≡ short }
    ensures role { result.role ≡ role }
{
    Peer {
        name: Name::from(name).unwrap(),
        eui,
        short: Short(short),
        role,
    }
}
