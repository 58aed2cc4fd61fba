//! The header of a NWK frame, read and written.
ghost use Rattle.std.specs.Prelude.{◌≡◌, ◌+◌, ◌≤◌, ◌^◌, ◌<◌, ◌++◌, length, IfOk, OnOk, IfSome, IsTrue, ◌↔◌, is_some, true, None};
ghost use Rattle.std.specs.Int.{w16};
ghost use Rattle.zb_cursor.specs.Spelling.{number, short, optional, bit};
ghost use Rattle.zb_cursor.specs.Reading.{Gives, read_into, optional_at};
ghost use Rattle.zb_cursor.specs.Writing.{Appends};
ghost use Rattle.zb_nwk.specs.Spelling.{route as route_of, addresses, header as header_of};
ghost use Rattle.zb_nwk.specs.Shape.{IsControl, IsHeader, RouteInRange, HeaderInRange};
ghost use Rattle.zb_nwk.specs.Reading.{control_at, route_at, fields_at, header_at};
ghost use Rattle.zb_base.specs.Limits.{longest_frame};

use crate::fault::NwkError;
use arrayvec::ArrayVec;
use zb_base::{Eui, Frame, Short};
use zb_cursor::{
    Reader, TooLong, has_bit, put, put_byte, put_number16, put_optional_byte, put_optional_eui,
    put_short, put_shorts,
};

/// A source route (05-3474-21, 3.3.1.9): the relays that the frame passes.
#[derive(Debug, Drop, PartialEq, Eq)]
pub struct Route {
    /// The place of the next relay.
    pub index: u8,
    /// The short addresses of the relays.
    pub relays: ArrayVec<Short, 60>,
}

/// The header of a NWK frame (05-3474-21, 3.3.1). The control word says which of the last four fields are present.
#[derive(Debug, Drop, PartialEq, Eq)]
pub struct NwkHeader {
    /// The control word. The bits that aren't in this list are free.
    ///
    /// - 0 and 1: frame type
    /// - 2 to 5: version
    /// - 6 and 7: discover route
    /// - 8: multicast
    /// - 9: security
    /// - 10: source route
    /// - 11: the EUI of the destination is present
    /// - 12: the EUI of the source is present
    /// - 13: end device initiator
    pub control: u16,
    /// The short address that the frame goes to.
    pub destination: Short,
    /// The short address that the frame comes from.
    pub source: Short,
    /// How many hops are left.
    pub radius: u8,
    /// The sequence number that the source gave to the frame.
    pub sequence: u8,
    /// The EUI of the destination.
    pub destination_eui: Option<Eui>,
    /// The EUI of the source.
    pub source_eui: Option<Eui>,
    /// The multicast control byte.
    pub multicast: Option<u8>,
    /// The source route.
    pub route: Option<Route>,
}

impl NwkHeader {
    /// Makes a header into which others may be read.
    pub(crate) fn blank() -> NwkHeader {
        NwkHeader {
            control: 0,
            destination: Short(0),
            source: Short(0),
            radius: 0,
            sequence: 0,
            destination_eui: None,
            source_eui: None,
            multicast: None,
            route: None,
        }
    }

    /// Returns whether the reader accepts type and version, and the options are those of the control word.
    pub fn shape_ok(&self) -> bool
        ensures { IsTrue result ↔ IsHeader self.now }
    {
        self.control & 3 < 2
            && (self.control >> 2) & 15 == 2
            && self.destination_eui.is_some() == has_bit(self.control, 11)
            && self.source_eui.is_some() == has_bit(self.control, 12)
            && self.multicast.is_some() == has_bit(self.control, 8)
            && self.route.is_some() == has_bit(self.control, 10)
    }
}

/// Reads the control word of a data or command frame of version 2.
#[tactic(auto, unfolding(crate::specs::Reading::control_at))]
fn read_control(reader: &mut Reader<NwkError>) -> Result<u16, NwkError>
    ensures exact { Gives result reader.new.rest.now (control_at reader.old.cut reader.old.rest.now) }
    ensures spelled { IfOk result (λ x. reader.old.rest.now ≡ number w16 x ++ reader.new.rest.now) }
    ensures shaped { IfOk result (λ x. IsControl x) }
    ensures in_range { IfOk result (λ x. x < 2 ^ 16) }
    ensures used { OnOk result (length reader.new.rest.now + 2 ≡ length reader.old.rest.now) }
    ensures shorter { length reader.new.rest.now ≤ length reader.old.rest.now }
    ensures cut { reader.new.cut ≡ reader.old.cut }
{
    let control = reader.number16()?;
    let kind = (control & 3) as u8;
    if kind >= 2 {
        return Err(NwkError::FrameType { found: kind });
    }
    let version = ((control >> 2) & 15) as u8;
    if version != 2 {
        return Err(NwkError::Version { found: version });
    }
    Ok(control)
}

#[tactic(auto, unfolding(crate::specs::Reading::route_at))]
fn read_route(reader: &mut Reader<NwkError>) -> Result<Route, NwkError>
    requires { length reader.old.rest.now + 4 ≤ longest_frame }
    ensures exact { Gives result reader.new.rest.now (route_at reader.old.cut reader.old.rest.now) }
    ensures spelled { IfOk result (λ x. reader.old.rest.now ≡ route_of x ++ reader.new.rest.now) }
    ensures in_range { IfOk result (λ x. RouteInRange x) }
    ensures shorter { length reader.new.rest.now ≤ length reader.old.rest.now }
    ensures cut { reader.new.cut ≡ reader.old.cut }
{
    let number = reader.byte()?;
    let index = reader.byte()?;
    let relays = reader.shorts(number)?;
    Ok(Route { index, relays })
}

// Reads a source route into an optional existing one.
fn read_some_route(reader: &mut Reader<NwkError>, route: &mut Option<Route>) -> Result<(), NwkError>
    requires { length reader.old.rest.now + 4 ≤ longest_frame }
    ensures exact { Gives (read_into result route.new) reader.new.rest.now
        (optional_at true route_at reader.old.cut reader.old.rest.now) }
    ensures spelled { OnOk result (reader.old.rest.now ≡ optional route_of route.new ++ reader.new.rest.now) }
    ensures present { OnOk result (is_some route.new ≡ true) }
    ensures in_range { OnOk result (IfSome route.new RouteInRange) }
    ensures shorter { length reader.new.rest.now ≤ length reader.old.rest.now }
    ensures cut { reader.new.cut ≡ reader.old.cut }
{
    let found = read_route(reader)?;
    *route = Some(found);
    Ok(())
}

// Removes a source route, if there is one.
fn forget_route(route: &mut Option<Route>)
    ensures { route.new ≡ None }
{
    if route.is_some() {
        *route = None;
    }
}

fn read_optional_route(
    reader: &mut Reader<NwkError>,
    present: bool,
    route: &mut Option<Route>,
) -> Result<(), NwkError>
    requires { length reader.old.rest.now + 4 ≤ longest_frame }
    ensures exact { Gives (read_into result route.new) reader.new.rest.now
        (optional_at present route_at reader.old.cut reader.old.rest.now) }
    ensures spelled { OnOk result (reader.old.rest.now ≡ optional route_of route.new ++ reader.new.rest.now) }
    ensures present { OnOk result (is_some route.new ≡ present) }
    ensures in_range { OnOk result (IfSome route.new RouteInRange) }
    ensures shorter { length reader.new.rest.now ≤ length reader.old.rest.now }
    ensures cut { reader.new.cut ≡ reader.old.cut }
{
    if present {
        read_some_route(reader, route)?;
    } else {
        forget_route(route);
    }
    Ok(())
}

/// Reads the fields after a control word into an existing header.
#[tactic(auto, unfolding(crate::specs::Reading::fields_at))]
fn read_fields(
    reader: &mut Reader<NwkError>,
    control: u16,
    header: &mut NwkHeader,
) -> Result<(), NwkError>
    requires room { length reader.old.rest.now + 2 ≤ longest_frame }
    requires shaped { IsControl control }
    ensures exact { Gives (read_into result header.new) reader.new.rest.now
        (fields_at control reader.old.cut reader.old.rest.now) }
    ensures spelled { OnOk result
        (number w16 control ++ reader.old.rest.now ≡ header_of header.new ++ reader.new.rest.now) }
    ensures shaped { OnOk result (IsHeader header.new) }
    ensures in_range { OnOk result (HeaderInRange header.new) }
    ensures control { OnOk result (header.new.control ≡ control) }
    ensures shorter { length reader.new.rest.now ≤ length reader.old.rest.now }
    ensures cut { reader.new.cut ≡ reader.old.cut }
{
    header.control = control;
    header.destination = reader.short()?;
    header.source = reader.short()?;
    header.radius = reader.byte()?;
    header.sequence = reader.byte()?;
    header.destination_eui = reader.optional_eui(has_bit(control, 11))?;
    header.source_eui = reader.optional_eui(has_bit(control, 12))?;
    header.multicast = reader.optional_byte(has_bit(control, 8))?;
    read_optional_route(reader, has_bit(control, 10), &mut header.route)?;
    Ok(())
}

/// Reads a header into an existing one.
///
/// # Errors
///
/// The first fault of the bytes. The fields of the existing header then mean nothing.
#[tactic(auto, unfolding(crate::specs::Reading::header_at))]
pub(crate) fn read_header(
    reader: &mut Reader<NwkError>,
    header: &mut NwkHeader,
) -> Result<(), NwkError>
    requires { length reader.old.rest.now ≤ longest_frame }
    ensures exact { Gives (read_into result header.new) reader.new.rest.now
        (header_at reader.old.cut reader.old.rest.now) }
    ensures spelled { OnOk result (reader.old.rest.now ≡ header_of header.new ++ reader.new.rest.now) }
    ensures shaped { OnOk result (IsHeader header.new) }
    ensures in_range { OnOk result (HeaderInRange header.new) }
    ensures shorter { length reader.new.rest.now ≤ length reader.old.rest.now }
    ensures cut { reader.new.cut ≡ reader.old.cut }
{
    let control = read_control(reader)?;
    read_fields(reader, control, header)?;
    Ok(())
}

fn put_route(out: &mut Frame, value: &Route) -> Result<(), TooLong>
    ensures { Appends out.old.items (route_of value.now) out.new.items result }
{
    put_byte(out, value.relays.len() as u8)?;
    put_byte(out, value.index)?;
    put_shorts(out, &value.relays)?;
    Ok(())
}

fn put_optional_route(out: &mut Frame, value: &Option<Route>) -> Result<(), TooLong>
    ensures { Appends out.old.items (optional route_of value.now) out.new.items result }
{
    match value {
        None => put(out, &[])?,
        Some(route) => put_route(out, route)?,
    }
    Ok(())
}

/// Writes the fields that each header has.
fn put_addresses(out: &mut Frame, value: &NwkHeader) -> Result<(), TooLong>
    ensures { Appends out.old.items (addresses value.now) out.new.items result }
{
    put_number16(out, value.control)?;
    put_short(out, value.destination)?;
    put_short(out, value.source)?;
    put_byte(out, value.radius)?;
    put_byte(out, value.sequence)?;
    Ok(())
}

/// Writes a header at the end.
///
/// # Errors
///
/// `TooLong` if there is no room for the bytes.
pub(crate) fn put_header(out: &mut Frame, value: &NwkHeader) -> Result<(), TooLong>
    ensures { Appends out.old.items (header_of value.now) out.new.items result }
{
    put_addresses(out, value)?;
    put_optional_eui(out, value.destination_eui)?;
    put_optional_eui(out, value.source_eui)?;
    put_optional_byte(out, value.multicast)?;
    put_optional_route(out, &value.route)?;
    Ok(())
}
