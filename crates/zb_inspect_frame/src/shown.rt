//! A frame, layer by layer.
ghost use Rattle.std.specs.Prelude.{◌≡◌, ◌<◌, ◌≤◌, ◌^◌, length, IfSome, Ok};
ghost use Rattle.std.specs.Option.{option_map, option_copied};
ghost use Rattle.zb_aps.specs.Reading as reading;
ghost use Rattle.zb_nwk.specs.Reading as nwk_reading;
ghost use Rattle.zb_nwk.specs.Shape.{Spells as SpellsNwk};
ghost use Rattle.zb_aps.specs.Shape.{Spells as SpellsAps};
ghost use Rattle.zb_seal.specs.Opening.{aps_envelope, nwk_envelope};
ghost use Rattle.zb_inspect_frame.specs.Layers.{found_aps, looked, tried};
ghost use Rattle.zb_inspect_frame.specs.Shows.{source_known, data_in, command_in, tunnelled, tunnel_of, below, shown_under, frame_shown};
ghost use Rattle.zb_base.specs.Limits.{longest_frame};

use crate::addresses::Addresses;
use crate::layer::{Finding, clear, is_closed, look, try_keys};
use zb_aps::ApsFrame;
use zb_base::{Eui, Frame};
use zb_cmd::{Command, read_command};
use zb_nwk::{NwkFrame, NwkHeader};
use zb_seal::{Envelope, OpenError, SealingKeys, envelope_aps, envelope_nwk, look_aps};

/// What a NWK frame shows.
#[derive(Debug, Drop)]
pub struct Shown {
    /// The NWK layer.
    pub nwk: Finding,
    /// What is below the NWK layer, in a data frame whose payload is known.
    pub below: Option<Below>,
}

/// What the payload of a NWK data frame shows.
#[derive(Debug, Drop)]
pub struct Below {
    /// The APS layer.
    pub aps: Finding,
    /// The APS layer of the frame in a Tunnel, if the payload is a Tunnel command known in clear.
    pub inner: Option<Finding>,
}

/// Shows a frame under the keys of a ring. `addrs` has the known EUIs.
///
/// There must be fewer than 2^32 keys, because the number of a key has 32 bits.
#[tactic(auto, using(crate::proofs::ReadOnce::frame_read, crate::proofs::ReadOnce::frame_bad))]
pub fn show(addrs: &Addresses<'_>, keys: &[SealingKeys], frame: &Frame) -> Shown
    requires { length keys.now < 2 ^ 32 }
    ensures { result ≡ frame_shown addrs.now keys.now frame.now.items }
{
    match zb_nwk::read(frame.as_slice()) {
        Err(_) => Shown {
            nwk: Finding::Malformed,
            below: None,
        },
        Ok(read) => {
            let nwk = find_nwk(keys, frame.as_slice(), &read);
            look_below(addrs, keys, nwk, &read)
        }
    }
}

/// Shows a frame whose NWK layer is already found.
#[tactic(auto, using(crate::proofs::MoreKeys::closed_frame))]
pub(crate) fn show_under(
    addrs: &Addresses<'_>,
    keys: &[SealingKeys],
    nwk: Finding,
    frame: &Frame,
) -> Shown
    requires { length keys.now < 2 ^ 32 }
    ensures { result ≡ shown_under addrs.now keys.now nwk (nwk_reading.frame_of frame.now.items) }
{
    if is_closed(&nwk) {
        return Shown { nwk, below: None };
    }
    match zb_nwk::read(frame.as_slice()) {
        Err(_) => Shown { nwk, below: None },
        Ok(read) => look_below(addrs, keys, nwk, &read),
    }
}

/// Finds what the NWK layer of a parsed frame is.
fn find_nwk(keys: &[SealingKeys], bytes: &[u8], frame: &NwkFrame) -> Finding
    requires keys { length keys.now < 2 ^ 32 }
    requires spells { SpellsNwk bytes.now frame.now }
    ensures { result ≡ tried 0 keys.now (looked (nwk_envelope frame.now frame.now.aux) None) }
{
    let mut nwk = look(look_nwk(bytes, frame), None);
    try_keys(&mut nwk, 0, keys);
    nwk
}

/// Returns the envelope of a parsed NWK frame.
fn look_nwk(bytes: &[u8], frame: &NwkFrame) -> Result<Envelope, OpenError>
    requires { SpellsNwk bytes.now frame.now }
    ensures { result ≡ nwk_envelope frame.now frame.now.aux }
{
    match envelope_nwk(bytes, frame) {
        Ok(closed) => Ok(closed.envelope),
        Err(fault) => Err(fault),
    }
}

/// Finds what the APS layer of a parsed frame is.
fn find_aps(keys: &[SealingKeys], given: Option<Eui>, bytes: &[u8], frame: &ApsFrame) -> Finding
    requires keys { length keys.now < 2 ^ 32 }
    requires spells { SpellsAps bytes.now frame.now }
    ensures { result ≡ tried 0 keys.now (looked (aps_envelope frame.now frame.now.aux) given) }
{
    let mut aps = look(envelope_aps(bytes, frame), given);
    try_keys(&mut aps, 0, keys);
    aps
}

fn look_below(addrs: &Addresses<'_>, keys: &[SealingKeys], nwk: Finding, frame: &NwkFrame) -> Shown
    requires { length keys.now < 2 ^ 32 }
    ensures { result ≡ shown_under addrs.now keys.now nwk (Ok frame.now) }
{
    let Some(payload) = data_in(&nwk, frame) else {
        return Shown { nwk, below: None };
    };
    let below = show_payload(keys, source_known(addrs, &frame.header), payload);
    Shown {
        nwk,
        below: Some(below),
    }
}

/// Returns the payload of a data frame, if it is known.
pub(crate) fn data_in<'a>(nwk: &'a Finding, frame: &'a NwkFrame) -> Option<&'a [u8]>
    ensures { option_copied result ≡ data_in nwk.now frame.now }
{
    if frame.header.control & 3 == 0 {
        clear(nwk, &frame.body)
    } else {
        None
    }
}

/// Returns the source of an APS frame that names none: the EUI of the NWK source, if it is known.
pub(crate) fn source_known(addrs: &Addresses<'_>, header: &NwkHeader) -> Option<Eui>
    ensures { result ≡ source_known addrs.now header.now }
{
    match header.source_eui {
        Some(eui) => Some(eui),
        None => addrs.of(header.source),
    }
}

#[tactic(auto, using(crate::proofs::ReadOnce::payload_bad))]
fn show_payload(keys: &[SealingKeys], given: Option<Eui>, payload: &[u8]) -> Below
    requires { length keys.now < 2 ^ 32 }
    ensures { result ≡ below keys.now given payload.now }
{
    match zb_aps::read(payload) {
        Err(_) => Below {
            aps: Finding::Malformed,
            inner: None,
        },
        Ok(frame) => {
            let aps = find_aps(keys, given, payload, &frame);
            let inner = find_inner(keys, given, tunnelled(&aps, &frame));
            Below { aps, inner }
        }
    }
}

/// Shows the frame in a Tunnel, if there is one.
pub(crate) fn find_inner(
    keys: &[SealingKeys],
    given: Option<Eui>,
    frame: Option<Frame>,
) -> Option<Finding>
    requires { length keys.now < 2 ^ 32 }
    ensures { result ≡ option_map (λ inner. found_aps keys.now given inner.items) frame }
{
    match frame {
        None => None,
        Some(frame) => Some(find_inner_aps(keys, given, frame.as_slice())),
    }
}

#[tactic(auto, unfolding(crate::specs::Layers::found_aps))]
fn find_inner_aps(keys: &[SealingKeys], given: Option<Eui>, bytes: &[u8]) -> Finding
    requires { length keys.now < 2 ^ 32 }
    ensures { result ≡ found_aps keys.now given bytes.now }
{
    let mut inner = look(look_aps(bytes), given);
    try_keys(&mut inner, 0, keys);
    inner
}

/// Returns the frame in a Tunnel, if a payload is an APS Tunnel command known in clear.
pub(crate) fn tunnelled_in(aps: &Finding, payload: &[u8]) -> Option<Frame>
    ensures { result ≡ tunnelled aps.now (reading.frame_of payload.now) }
{
    match zb_aps::read(payload) {
        Err(_) => None,
        Ok(frame) => tunnelled(aps, &frame),
    }
}

/// Returns the frame in a Tunnel, if an APS command is a Tunnel and known in clear.
fn tunnelled(aps: &Finding, frame: &ApsFrame) -> Option<Frame>
    ensures { result ≡ tunnelled aps.now (Ok frame.now) }
{
    match command_in(aps, frame) {
        None => None,
        Some(content) => tunnel(content),
    }
}

fn tunnel(content: &[u8]) -> Option<Frame>
    requires { length content.now ≤ longest_frame }
    ensures { result ≡ tunnel_of content.now }
{
    match read_command(content) {
        Ok(Command::Tunnel { inner, .. }) => Some(inner),
        _ => None,
    }
}

/// Returns the payload of an APS command, if it is known.
fn command_in<'a>(aps: &'a Finding, frame: &'a ApsFrame) -> Option<&'a [u8]>
    ensures value { option_copied result ≡ command_in aps.now frame.now }
    ensures fits { IfSome result (λ content. length content.now ≤ longest_frame) }
{
    if frame.header.control & 3 == 1 {
        clear(aps, &frame.body)
    } else {
        None
    }
}
