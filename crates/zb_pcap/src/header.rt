//! The header of a capture file.
ghost use Rattle.std.specs.Prelude.{◌≡◌, ◌+◌, ◌≤◌, ◌==◌, ◌&&◌, length, IfOk};
ghost use Rattle.zb_pcap.specs.Files.{number16_at, number32_at, order_of as order_in, link_of as link_in, header_of, file_header_size};

use crate::fault::PcapCause;

/// The order of the bytes of a number.
#[derive(Clone, Copy, Debug, PartialEq, Eq)]
pub(crate) enum Order {
    /// The highest byte comes first.
    Big,
    /// The lowest byte comes first.
    Little,
}

/// What a header says.
#[derive(Clone, Copy, Debug, PartialEq, Eq)]
pub(crate) struct Form {
    /// The order of the bytes of its numbers, and of those of records.
    pub order: Order,
    /// Whether packets end with their check sequence.
    pub check: bool,
}

/// Reads the header: 24 bytes.
///
/// # Errors
/// The first of these: `Magic` if there are fewer than 24 bytes or another magic number, `Version` if it isn't 2.4,
/// `Link` if the link type is unknown.
#[tactic(auto, unfolding(crate::specs::Files::header_of))]
pub(crate) fn read_header(bytes: &[u8]) -> Result<Form, PcapCause>
    ensures value { result ≡ header_of bytes.now }
    ensures long { IfOk result (λ form. file_header_size ≤ length bytes.now) }
{
    if bytes.len() < 24 {
        return Err(PcapCause::Magic);
    }
    let Some(order) = order_of(&bytes[..4]) else {
        return Err(PcapCause::Magic);
    };
    if !is_version(order, bytes) {
        return Err(PcapCause::Version);
    }
    match link_of(number32(order, bytes, 20)) {
        None => Err(PcapCause::Link),
        Some(check) => Ok(Form { order, check }),
    }
}

fn order_of(magic: &[u8]) -> Option<Order>
    ensures { result ≡ order_in magic.now }
{
    if magic == [0xa1, 0xb2, 0xc3, 0xd4].as_slice()
        || magic == [0xa1, 0xb2, 0x3c, 0x4d].as_slice()
    {
        Some(Order::Big)
    } else if magic == [0xd4, 0xc3, 0xb2, 0xa1].as_slice()
        || magic == [0x4d, 0x3c, 0xb2, 0xa1].as_slice()
    {
        Some(Order::Little)
    } else {
        None
    }
}

/// Returns whether the version is 2.4.
fn is_version(order: Order, bytes: &[u8]) -> bool
    requires { file_header_size ≤ length bytes.now }
    ensures { result ≡ (number16_at order bytes.now 4 == 2 && number16_at order bytes.now 6 == 4) }
{
    number16(order, bytes, 4) == 2 && number16(order, bytes, 6) == 4
}

/// Returns whether packets of a link type end with their check sequence; `None` if the link type is unknown.
fn link_of(link: u32) -> Option<bool>
    ensures { result ≡ link_in link }
{
    match link % 65_536 {
        195 => Some(true),
        230 => Some(false),
        _ => None,
    }
}

fn number16(order: Order, bytes: &[u8], at: usize) -> u16
    requires { at + 2 ≤ length bytes.now }
    ensures { result ≡ number16_at order bytes.now at }
{
    let field = [bytes[at], bytes[at + 1]];
    match order {
        Order::Big => u16::from_be_bytes(field),
        Order::Little => u16::from_le_bytes(field),
    }
}

/// Reads the number of four bytes at a place.
pub(crate) fn number32(order: Order, bytes: &[u8], at: usize) -> u32
    requires { at + 4 ≤ length bytes.now }
    ensures { result ≡ number32_at order bytes.now at }
{
    let field = [bytes[at], bytes[at + 1], bytes[at + 2], bytes[at + 3]];
    match order {
        Order::Big => u32::from_be_bytes(field),
        Order::Little => u32::from_le_bytes(field),
    }
}
