//! What a frame shows when more keys are known. Only the layers that are still closed are tried, and only under the
//! new keys.
ghost use Rattle.std.specs.Prelude.{◌≡◌, ◌<◌, ◌≤◌, ◌^◌, take, drop, length, IfSome};
ghost use Rattle.std.specs.Bool.{OnTrue};
ghost use Rattle.std.specs.Option.{option_map};
ghost use Rattle.zb_aps.specs.Reading as reading;
ghost use Rattle.zb_nwk.specs.Reading as nwk_reading;
ghost use Rattle.zb_inspect_frame.specs.Layers.{found_aps, tried};
ghost use Rattle.zb_inspect_frame.specs.Settling.{ShowsOn};
ghost use Rattle.zb_inspect_frame.specs.Shows.{payload_in, given_in, tunnelled, below, frame_shown, with_nwk};

use crate::addresses::Addresses;
use crate::layer::{Finding, is_closed, try_keys};
use crate::shown::{Below, Shown, data_in, find_inner, show_under, source_known, tunnelled_in};
use std::mem;
use zb_base::Frame;
use zb_seal::SealingKeys;

/// Tries the keys after the first `known` on the NWK layer of a frame, and returns whether it stays closed.
///
/// A frame whose NWK layer stays closed shows nothing more, whatever its bytes are. For other frames `show_below`
/// shows the rest.
pub fn stays_closed(keys: &[SealingKeys], known: u32, seen: &mut Shown) -> bool
    requires within { known ≤ length keys.now }
    requires fits { length keys.now < 2 ^ 32 }
    ensures tried { seen.new ≡ with_nwk (tried known (drop known keys.now)) seen.old }
    ensures closed { OnTrue result (ShowsOn known keys.now seen.old seen.new) }
{
    try_further(keys, known, &mut seen.nwk);
    is_closed(&seen.nwk)
}

/// Shows what is below the NWK layer of a frame under all keys. It is known under the first `known` of them.
///
/// There must be fewer than 2^32 keys, because the number of a key has 32 bits.
#[tactic(auto, using(crate::proofs::MoreKeys::frame_anew))]
pub fn show_below(
    addrs: &Addresses<'_>,
    keys: &[SealingKeys],
    known: u32,
    frame: &Frame,
    seen: &mut Shown,
)
    requires within { known ≤ length keys.now }
    requires fits { length keys.now < 2 ^ 32 }
    requires before { seen.old ≡ with_nwk (tried known (drop known keys.now))
        (frame_shown addrs.now (take known keys.now) frame.now.items) }
    ensures { seen.new ≡ frame_shown addrs.now keys.now frame.now.items }
{
    let nothing = Shown {
        nwk: Finding::Malformed,
        below: None,
    };
    let Shown { nwk, below } = mem::replace(seen, nothing);
    match below {
        None => *seen = show_under(addrs, keys, nwk, frame),
        Some(below) => {
            let below = look_further(addrs, keys, known, frame, &nwk, below);
            *seen = Shown {
                nwk,
                below: Some(below),
            };
        }
    }
}

/// Tries the keys after the first `known` on a layer.
fn try_further(keys: &[SealingKeys], known: u32, finding: &mut Finding)
    requires within { known ≤ length keys.now }
    requires fits { length keys.now < 2 ^ 32 }
    ensures { finding.new ≡ tried known (drop known keys.now) finding.old }
{
    try_keys(finding, known, &keys[known as usize..]);
}

/// Shows the payload of a data frame under all keys, if it was known under the first `known`.
#[tactic(auto, using(crate::proofs::MoreKeys::aps_further, crate::proofs::MoreKeys::below_further))]
fn look_further(
    addrs: &Addresses<'_>,
    keys: &[SealingKeys],
    known: u32,
    frame: &Frame,
    nwk: &Finding,
    seen: Below,
) -> Below
    requires within { known ≤ length keys.now }
    requires fits { length keys.now < 2 ^ 32 }
    requires before { IfSome (payload_in nwk.now (nwk_reading.frame_of frame.now.items))
        (λ payload. seen ≡ below (take known keys.now)
        (given_in addrs.now (nwk_reading.frame_of frame.now.items)) payload) }
    ensures { IfSome (payload_in nwk.now (nwk_reading.frame_of frame.now.items))
        (λ payload. result ≡ below keys.now (given_in addrs.now (nwk_reading.frame_of frame.now.items)) payload) }
{
    let Below { mut aps, inner } = seen;
    try_further(keys, known, &mut aps);
    match inner {
        Some(mut inner) => {
            try_further(keys, known, &mut inner);
            Below {
                aps,
                inner: Some(inner),
            }
        }
        None => {
            let inner = look_inner(addrs, keys, frame, nwk, &aps);
            Below { aps, inner }
        }
    }
}

/// Shows the frame in a Tunnel, if the payload of a data frame is a Tunnel.
fn look_inner(
    addrs: &Addresses<'_>,
    keys: &[SealingKeys],
    frame: &Frame,
    nwk: &Finding,
    aps: &Finding,
) -> Option<Finding>
    requires { length keys.now < 2 ^ 32 }
    ensures { IfSome (payload_in nwk.now (nwk_reading.frame_of frame.now.items))
        (λ payload. result ≡ option_map
        (λ inner. found_aps keys.now (given_in addrs.now (nwk_reading.frame_of frame.now.items)) inner.items)
        (tunnelled aps.now (reading.frame_of payload))) }
{
    let read = zb_nwk::read(frame.as_slice()).ok()?;
    let payload = data_in(nwk, &read)?;
    find_inner(
        keys,
        source_known(addrs, &read.header),
        tunnelled_in(aps, payload),
    )
}
