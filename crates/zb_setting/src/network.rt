//! A network as one of its nodes knows it.
ghost use Rattle.std.specs.Prelude.{◌≡◌, ◌≤◌, ◌<◌, ◌^◌, ◌||◌, nat_eq, option_map, IfOk};
ghost use Rattle.zb_base.specs.Config.{IsConfig};
ghost use Rattle.zb_model.specs.Commands.{eui_of};
ghost use Rattle.zb_model.specs.Judging.{hears};
ghost use Rattle.zb_model.specs.Rules.{acts_as_router, centre_of, from_centre, is_declared, is_router, short_of, station_at};
ghost use Rattle.zb_model.specs.State.{is_centre};
ghost use Rattle.zb_node_types.specs.Changes.{model_role};
ghost use Rattle.zb_setting.specs.Settings.{setting_for};
ghost use Rattle.zb_base.specs.Limits.{most_out_block, most_in_block};

use crate::peers;
use std::alloc::{AllocError, Global};
use std::marker::Model;
use zb_base::{Config, Eui, Peer, Role, Short};

/// What one node knows of its network.
///
/// A contract sees it as the model's setting: the node itself, and the declared nodes without their blocks.
#[derive(Debug, Drop)]
pub struct Network {
    me: Peer,
    peers: Vec<Peer>,
    centre: Eui,
    out_block: u32,
    in_block: u32,
}

impl Model for Network {
    ghost use Rattle.std.specs.Prelude.{◌≡◌, ◌≤◌, map};
    ghost use Rattle.zb_model.specs.Rules.{Setting, centre_of};
    ghost use Rattle.zb_base.specs.Limits.{most_out_block, most_in_block};
    ghost use Rattle.zb_setting.specs.Settings.{known, station};

    ghost Value = { Setting };

    ghost view = { λ network. record {
      me = station network.out_block network.in_block network.me;
      stations = map known network.peers.items;
    } };

    ghost invariant = { λ network. (network.centre.0 ≡ centre_of (map known network.peers.items))
        × (1 ≤ network.out_block) × (network.out_block ≤ most_out_block) × (1 ≤ network.in_block)
        × (network.in_block ≤ most_in_block) };
}

impl Network {
    /// Makes what the node of this configuration knows.
    ///
    /// # Errors
    /// `AllocError`, if memory runs out.
    #[tactic(auto, unfolding(crate::specs::Settings::setting_for))]
    pub fn new(alloc: Global, config: &Config) -> Result<Network, AllocError>
        requires { IsConfig config.now }
        ensures { IfOk result (λ network. network ≡ setting_for config.now) }
    {
        Ok(Network {
            me: config.peers[config.me as usize],
            peers: Vec::from_slice(alloc, config.peers.as_slice())?,
            centre: peers::centre_among(config.peers.as_slice()),
            out_block: config.out_block,
            in_block: config.in_block,
        })
    }

    /// Returns the node's own EUI.
    pub fn eui(&self) -> Eui
        ensures { result.0 ≡ self.now.me.eui }
    {
        self.me.eui
    }

    /// Returns the node's own short address.
    pub fn short(&self) -> Short
        ensures { result.0 ≡ self.now.me.short }
    {
        self.me.short
    }

    /// Returns the node's role.
    pub fn role(&self) -> Role
        ensures { model_role result ≡ self.now.me.role }
    {
        self.me.role
    }

    /// Returns whether the node is the trust centre.
    pub fn is_centre(&self) -> bool
        ensures { result ≡ is_centre self.now.me.role }
    {
        peers::is_centre(self.me.role)
    }

    /// Returns whether the node is a router.
    pub fn is_router(&self) -> bool
        ensures { result ≡ is_router self.now.me.role }
    {
        peers::is_router(self.me.role)
    }

    /// Returns how many outgoing frame counters are reserved at once.
    pub fn out_block(&self) -> u32
        ensures value { result ≡ self.now.me.out_block }
        ensures least { 1 ≤ result }
        ensures most { result ≤ most_out_block }
    {
        self.out_block
    }

    /// Returns how far ahead a floor for incoming frame counters is stored.
    pub fn in_block(&self) -> u32
        ensures value { result ≡ self.now.me.in_block }
        ensures least { 1 ≤ result }
        ensures most { result ≤ most_in_block }
    {
        self.in_block
    }

    /// Returns the EUI of the trust centre.
    pub fn centre(&self) -> Eui
        ensures value { result.0 ≡ centre_of self.now.stations }
        ensures in_range { result.0 < 2 ^ 64 }
    {
        peers::in_range(self.centre)
    }

    /// Returns whether an EUI is that of the trust centre.
    pub fn from_centre(&self, source: Eui) -> bool
        ensures { result ≡ from_centre self.now source.0 }
    {
        source.0 == self.centre.0
    }

    /// Returns the short address of a declared node, or FFFF if none has this EUI.
    #[tactic(auto, unfolding(zb_model::specs::Rules::short_of))]
    pub fn short_of(&self, eui: Eui) -> Short
        ensures { result.0 ≡ short_of self.now eui.0 }
    {
        match peers::peer_of(self.peers.as_slice(), eui) {
            Some(peer) => peer.short,
            None => Short(0xffff),
        }
    }

    /// Returns the short address of the source of a frame, or FFFF if it is unknown or not declared.
    #[tactic(auto, unfolding(zb_model::specs::Rules::short_of))]
    pub fn short_of_source(&self, source: Option<Eui>) -> Short
        ensures { result.0 ≡ short_of self.now (eui_of (option_map (λ e. e.0) source)) }
    {
        match source {
            Some(eui) => self.short_of(eui),
            None => {
                peers::nobody_among(self.peers.as_slice());
                Short(0xffff)
            }
        }
    }

    /// Returns whether a node of this EUI is declared.
    pub fn is_declared(&self, eui: Eui) -> bool
        ensures { result ≡ is_declared self.now eui.0 }
    {
        peers::peer_of(self.peers.as_slice(), eui).is_some()
    }

    /// Returns whether a router of this EUI is declared.
    pub fn acts_as_router(&self, eui: Eui) -> bool
        ensures { result ≡ acts_as_router self.now eui.0 }
    {
        peers::router_of(self.peers.as_slice(), eui).is_some()
    }

    /// Returns the EUI of the declared node with this short address.
    pub fn eui_at(&self, short: Short) -> Option<Eui>
        ensures { option_map (λ e. e.0) result ≡ option_map (λ p. p.eui) (station_at self.now.stations short.0) }
    {
        match peers::peer_at(self.peers.as_slice(), short) {
            Some(peer) => Some(peer.eui),
            None => None,
        }
    }

    /// Returns whether a frame to this short address is for the node (05-3474-21, 3.6.5).
    ///
    /// The address is the node's own, or a broadcast that includes it: all (FFFF), all that listen (FFFD), or the
    /// centre and the routers (FFFC).
    pub fn hears(&self, to: Short) -> bool
        ensures { result ≡ hears self.now to.0 }
    {
        match self.me.role {
            Role::Centre => self.is_for(to) || to.0 == 0xfffc,
            Role::Router => self.is_for(to) || to.0 == 0xfffc,
            Role::Device => self.is_for(to),
        }
    }

    // Returns whether an address is the node's own, that of all nodes (FFFF), or that of all that listen (FFFD).
    fn is_for(&self, to: Short) -> bool
        ensures { result ≡ (nat_eq to.0 self.now.me.short || (nat_eq to.0 0xffff || nat_eq to.0 0xfffd)) }
    {
        to.0 == self.me.short.0 || to.0 == 0xffff || to.0 == 0xfffd
    }
}
