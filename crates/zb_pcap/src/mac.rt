//! The MAC header of a packet (IEEE 802.15.4).
ghost use Rattle.std.specs.Prelude.{◌≡◌, ◌+◌, ◌≤◌, ◌<◌, ◌^◌, ◌==◌, not, length};
ghost use Rattle.zb_pcap.specs.Mac.{number16 as number_at, is_plain_data as is_data, address_size as size_of_address, network_size as size_of_network, header_size as size_of_header, body as body_of, has_wrong_check as has_wrong, is_wrong as wrong, payload_of, mac_of, IsWithin};
ghost use Rattle.zb_base.specs.Limits.{longest_frame};

use crate::check::fcs;
use zb_base::LONGEST_FRAME;

/// What a packet is.
#[derive(Clone, Copy, Debug, PartialEq, Eq)]
pub enum Mac {
    /// A plain data frame, whose payload has `len` bytes from `at` on.
    Payload {
        /// Where the payload begins, from 0.
        at: u32,
        /// How many bytes it has.
        len: u32,
    },
    /// The last two bytes aren't the check sequence of the others.
    BadCheck,
    /// Any other packet.
    Other,
}

/// Returns what a packet is. `check` says whether it ends with its check sequence, low byte first.
#[tactic(auto, unfolding(crate::specs::Mac::mac_of))]
pub fn classify(packet: &[u8], check: bool) -> Mac
    ensures value { result ≡ mac_of check packet.now }
    ensures within { IsWithin result (length packet.now) }
{
    if has_wrong_check(packet, check) {
        return Mac::BadCheck;
    }
    if packet.len() > LONGEST_FRAME {
        return Mac::Other;
    }
    payload(body(packet, check))
}

fn has_wrong_check(packet: &[u8], check: bool) -> bool
    ensures { result ≡ has_wrong check packet.now }
{
    check && packet.len() >= 2 && is_wrong(packet)
}

fn is_wrong(packet: &[u8]) -> bool
    requires { 2 ≤ length packet.now }
    ensures { result ≡ wrong packet.now }
{
    let end = packet.len() - 2;
    number16(packet, end) != fcs(&packet[..end])
}

fn number16(bytes: &[u8], at: usize) -> u16
    requires { at + 2 ≤ length bytes.now }
    ensures { result ≡ number_at bytes.now at }
{
    bytes[at] as u16 + 256 * bytes[at + 1] as u16
}

/// Returns a packet without its check sequence.
fn body(packet: &[u8], check: bool) -> &[u8]
    ensures value { result.now ≡ body_of check packet.now }
    ensures shorter { length result.now ≤ length packet.now }
{
    if check {
        &packet[..packet.len().saturating_sub(2)]
    } else {
        packet
    }
}

#[tactic(auto, using(crate::proofs::Headers::too_short))]
fn payload(body: &[u8]) -> Mac
    requires { length body.now ≤ longest_frame }
    ensures value { result ≡ payload_of body.now }
    ensures within { IsWithin result (length body.now) }
{
    if body.len() < 3 {
        return Mac::Other;
    }
    let control = number16(body, 0);
    let size = header_size(control);
    if is_plain_data(control) && (size as usize) < body.len() {
        Mac::Payload {
            at: size,
            len: body.len() as u32 - size,
        }
    } else {
        Mac::Other
    }
}

#[tactic(auto, unfolding(crate::specs::Mac::is_plain_data))]
fn is_plain_data(control: u16) -> bool
    ensures { result ≡ is_data control }
{
    control % 8 == 1
        && control / 8 % 2 == 0
        && control / 4096 % 4 < 2
        && control / 1024 % 4 != 1
        && control / 16_384 % 4 != 1
}

#[tactic(auto, unfolding(crate::specs::Mac::header_size))]
fn header_size(control: u16) -> u32
    ensures { result ≡ size_of_header control }
{
    let destination = control / 1024 % 4;
    let source = control / 16_384 % 4;
    let source_network = if control / 64 % 2 == 1 {
        0
    } else {
        network_size(source)
    };
    3 + (network_size(destination) + address_size(destination))
        + (source_network + address_size(source))
}

fn network_size(mode: u16) -> u32
    ensures size { result ≡ size_of_network mode }
    ensures small { result ≤ 2 }
{
    if mode == 0 { 0 } else { 2 }
}

fn address_size(mode: u16) -> u32
    ensures size { result ≡ size_of_address mode }
    ensures small { result ≤ 8 }
{
    if mode == 0 {
        0
    } else if mode == 2 {
        2
    } else {
        8
    }
}
