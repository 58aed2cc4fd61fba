//! Look-ups of a node among those that are declared.
ghost use Rattle.std.specs.Prelude.{None, false, ◌≡◌, ◌&&◌, ◌<◌, ◌^◌, count_by, find, map, nat_eq, option_map};
ghost use Rattle.std.specs.Option.{option_copied};
ghost use Rattle.zb_base.specs.Config.{is_centre};
ghost use Rattle.zb_model.specs.Data.{nobody};
ghost use Rattle.zb_model.specs.Rules.{centre_of, is_router, station_at, station_of};
ghost use Rattle.zb_model.specs.State.{is_centre as is_the_centre};
ghost use Rattle.zb_node_types.specs.Changes.{model_role};
ghost use Rattle.zb_setting.specs.Settings.{known};

use zb_base::{Eui, Peer, Role, Short};

/// Returns whether a role is that of the trust centre.
pub(crate) fn is_centre(role: Role) -> bool
    ensures { result ≡ is_the_centre (model_role role) }
{
    match role {
        Role::Centre => true,
        Role::Router => false,
        Role::Device => false,
    }
}

/// Returns whether a role is that of a router.
pub(crate) fn is_router(role: Role) -> bool
    ensures { result ≡ is_router (model_role role) }
{
    match role {
        Role::Centre => false,
        Role::Router => true,
        Role::Device => false,
    }
}

/// Returns the declared node of an EUI.
#[tactic(auto, unfolding(zb_model::specs::Rules::station_of), using(crate::proofs::Looking::find_map))]
pub(crate) fn peer_of<'a>(peers: &'a [Peer], eui: Eui) -> Option<&'a Peer>
    ensures { option_map known (option_copied result) ≡ station_of (map known peers.now) eui.0 }
{
    with_eui(peers, eui)
}

/// Returns the first node that has the EUI.
fn with_eui<'a>(peers: &'a [Peer], eui: Eui) -> Option<&'a Peer>
    ensures { option_copied result ≡ find (λ peer. nat_eq (known peer).eui eui.0) peers.now }
{
    peers.iter().find(|peer| peer.eui.0 == eui.0)
}

/// Returns the declared node of a short address.
#[tactic(auto, unfolding(zb_model::specs::Rules::station_at), using(crate::proofs::Looking::find_map))]
pub(crate) fn peer_at<'a>(peers: &'a [Peer], short: Short) -> Option<&'a Peer>
    ensures { option_map known (option_copied result) ≡ station_at (map known peers.now) short.0 }
{
    with_short(peers, short)
}

/// Returns the first node that has the short address.
fn with_short<'a>(peers: &'a [Peer], short: Short) -> Option<&'a Peer>
    ensures { option_copied result ≡ find (λ peer. nat_eq (known peer).short short.0) peers.now }
{
    peers.iter().find(|peer| peer.short.0 == short.0)
}

/// Returns the declared router of an EUI.
#[tactic(auto, using(crate::proofs::Looking::find_map))]
pub(crate) fn router_of<'a>(peers: &'a [Peer], eui: Eui) -> Option<&'a Peer>
    ensures { option_map known (option_copied result)
        ≡ find (λ p. nat_eq p.eui eui.0 && is_router p.role) (map known peers.now) }
{
    router_with_eui(peers, eui)
}

/// Returns the first router that has the EUI.
fn router_with_eui<'a>(peers: &'a [Peer], eui: Eui) -> Option<&'a Peer>
    ensures { option_copied result
        ≡ find (λ peer. nat_eq (known peer).eui eui.0 && is_router (known peer).role) peers.now }
{
    peers
        .iter()
        .find(|peer| peer.eui.0 == eui.0 && is_router(peer.role))
}

/// Returns the first centre among the declared nodes.
fn first_centre<'a>(peers: &'a [Peer]) -> Option<&'a Peer>
    ensures { option_copied result ≡ find (λ peer. is_the_centre (known peer).role) peers.now }
{
    peers.iter().find(|peer| is_centre(peer.role))
}

/// Returns an EUI unchanged. The contract says that it has 64 bits.
pub(crate) fn in_range(eui: Eui) -> Eui
    ensures same { result ≡ eui }
    ensures bits { result.0 < 2 ^ 64 }
{
    eui
}

/// Returns the EUI of the centre. There must be one.
#[tactic(auto, unfolding(zb_model::specs::Rules::centre_of), using(crate::proofs::Looking::find_map))]
pub(crate) fn centre_among(peers: &[Peer]) -> Eui
    requires { count_by (λ peer. is_centre peer.role) peers.now ≡ 1 }
    ensures { result.0 ≡ centre_of (map known peers.now) }
{
    match first_centre(peers) {
        Some(peer) => peer.eui,
        None => Eui(0),
    }
}

/// Returns whether a node represents nobody. None does, because the number of nobody isn't an EUI.
fn is_nobody(peer: &Peer) -> bool
    ensures is { result ≡ nat_eq (known peer.now).eui nobody }
    ensures never { result ≡ false }
{
    let _eui = in_range(peer.eui);
    false
}

/// Returns the first node that represents nobody.
fn first_nobody(peers: &[Peer]) -> Option<&Peer>
    ensures { option_copied result ≡ find (λ peer. nat_eq (known peer).eui nobody) peers.now }
{
    peers.iter().find(|peer| is_nobody(peer))
}

/// States that nobody is declared. It does nothing.
#[tactic(auto, unfolding(zb_model::specs::Rules::station_of), using(crate::proofs::Looking::find_map))]
pub(crate) fn nobody_among(peers: &[Peer])
    ensures { station_of (map known peers.now) nobody ≡ None }
{
    if let Some(peer) = first_nobody(peers) {
        let _never = is_nobody(peer);
    }
}
