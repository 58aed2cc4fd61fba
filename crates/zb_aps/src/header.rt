//! The header of an APS frame, read and written.
ghost use Rattle.std.specs.Prelude.{◌≡◌, ◌+◌, ◌≤◌, ◌^◌, ◌<◌, ◌∷◌, ◌++◌, ◌&&◌, not, length, IfOk, IfSome, IsTrue, ◌↔◌, is_some};
ghost use Rattle.std.specs.Int.{w16};
ghost use Rattle.zb_cursor.specs.Spelling.{byte, number, optional, bit};
ghost use Rattle.zb_cursor.specs.Reading.{Gives, optional_at};
ghost use Rattle.zb_cursor.specs.Writing.{Appends};
ghost use Rattle.zb_aps.specs.Spelling.{extended, addressing, header};
ghost use Rattle.zb_aps.specs.Shape.{kind, is_ack as ack, is_addressed as addressed, to_group as grouped, is_block as block, IsControl, IsExtended, AddressesAgree, IsHeader, ExtendedInRange, HeaderInRange};
ghost use Rattle.zb_aps.specs.Reading.{control_at, extended_at, fields_at, header_at};

use crate::fault::ApsError;
use zb_base::Frame;
use zb_cursor::{
    Reader, TooLong, has_bit, put, put_byte, put_optional_byte, put_optional_number16,
};

/// The extended header of a fragment (05-3474-21, 2.2.5.1.8). Fragments are shown but not put together.
#[derive(Clone, Copy, Debug, PartialEq, Eq)]
pub struct Extended {
    /// The control byte. Bits 0 and 1: fragmentation; the others are free.
    pub control: u8,
    /// The number of the block, if the frame is a fragment.
    pub block: Option<u8>,
    /// Which blocks arrived, in the ack of a fragment.
    pub bits: Option<u8>,
}

/// The header of an APS frame (05-3474-21, 2.2.5.1). The control byte says which fields are present.
#[derive(Clone, Copy, Debug, PartialEq, Eq)]
pub struct ApsHeader {
    /// The control byte. Bits 0 and 1: frame type; 2 and 3: delivery mode; 4: ack format; 5: security; 6: ack request;
    /// 7: extended header.
    pub control: u8,
    /// The endpoint that the frame goes to, unless it goes to a group.
    pub endpoint: Option<u8>,
    /// The group that the frame goes to.
    pub group: Option<u16>,
    /// The cluster of the frame.
    pub cluster: Option<u16>,
    /// The profile of the frame.
    pub profile: Option<u16>,
    /// The endpoint that the frame comes from.
    pub source_endpoint: Option<u8>,
    /// The APS counter that the source gave to the frame.
    pub counter: u8,
    /// The extended header.
    pub extended: Option<Extended>,
}

fn is_ack(control: u8) -> bool
    ensures { result ≡ ack control }
{
    control & 3 == 2
}

fn to_group(control: u8) -> bool
    ensures { result ≡ grouped control }
{
    (control >> 2) & 3 == 3
}

/// Returns whether the frame has endpoints, cluster and profile: data, and an ack whose ack format is 0.
fn is_addressed(control: u8) -> bool
    ensures { result ≡ addressed control }
{
    control & 3 == 0 || (is_ack(control) && !has_bit(u16::from(control), 4))
}

/// Returns whether an extended header has a block number.
fn is_block(control: u8) -> bool
    ensures { result ≡ block control }
{
    control & 3 != 0
}

impl Extended {
    fn shape_ok(&self, in_ack: bool) -> bool
        ensures { IsTrue result ↔ IsExtended in_ack self.now }
    {
        self.block.is_some() == is_block(self.control)
            && self.bits.is_some() == (is_block(self.control) && in_ack)
    }
}

impl ApsHeader {
    /// Makes a header into which others may be read.
    pub(crate) fn blank() -> ApsHeader {
        ApsHeader {
            control: 0,
            endpoint: None,
            group: None,
            cluster: None,
            profile: None,
            source_endpoint: None,
            counter: 0,
            extended: None,
        }
    }

    fn addresses_ok(&self) -> bool
        ensures { IsTrue result ↔ AddressesAgree self.now }
    {
        let addressed = is_addressed(self.control);
        self.endpoint.is_some() == (addressed && !to_group(self.control))
            && self.group.is_some() == (addressed && to_group(self.control))
            && self.cluster.is_some() == addressed
            && self.profile.is_some() == addressed
            && self.source_endpoint.is_some() == addressed
    }

    /// Returns whether the reader accepts type and delivery mode, and the options are those of the control byte.
    pub fn shape_ok(&self) -> bool
        ensures { IsTrue result ↔ IsHeader self.now }
    {
        self.control & 3 < 3
            && (self.control >> 2) & 3 != 1
            && self.addresses_ok()
            && self.extended.is_some() == has_bit(u16::from(self.control), 7)
            && match &self.extended {
                None => true,
                Some(extended) => extended.shape_ok(is_ack(self.control)),
            }
    }
}

/// Reads the control byte of a frame of a known type and delivery mode.
#[tactic(auto, unfolding(crate::specs::Reading::control_at))]
fn read_control(reader: &mut Reader<ApsError>) -> Result<u8, ApsError>
    ensures exact { Gives result reader.new.rest.now (control_at reader.old.cut reader.old.rest.now) }
    ensures spelled { IfOk result (λ x. reader.old.rest.now ≡ byte x ++ reader.new.rest.now) }
    ensures shaped { IfOk result (λ x. IsControl x) }
    ensures in_range { IfOk result (λ x. x < 2 ^ 8) }
    ensures shorter { length reader.new.rest.now ≤ length reader.old.rest.now }
    ensures cut { reader.new.cut ≡ reader.old.cut }
{
    let control = reader.byte()?;
    let kind = control & 3;
    if kind >= 3 {
        return Err(ApsError::FrameType { found: kind });
    }
    let delivery = (control >> 2) & 3;
    if delivery == 1 {
        return Err(ApsError::Delivery { found: delivery });
    }
    Ok(control)
}

#[tactic(auto, unfolding(crate::specs::Reading::extended_at))]
fn read_extended(reader: &mut Reader<ApsError>, in_ack: bool) -> Result<Extended, ApsError>
    ensures exact { Gives result reader.new.rest.now (extended_at in_ack reader.old.cut reader.old.rest.now) }
    ensures spelled { IfOk result (λ x. reader.old.rest.now ≡ extended x ++ reader.new.rest.now) }
    ensures shaped { IfOk result (λ x. IsExtended in_ack x) }
    ensures in_range { IfOk result (λ x. ExtendedInRange x) }
    ensures shorter { length reader.new.rest.now ≤ length reader.old.rest.now }
    ensures cut { reader.new.cut ≡ reader.old.cut }
{
    let control = reader.byte()?;
    let block = reader.optional_byte(is_block(control))?;
    let bits = reader.optional_byte(is_block(control) && in_ack)?;
    Ok(Extended {
        control,
        block,
        bits,
    })
}

fn read_optional_extended(
    reader: &mut Reader<ApsError>,
    present: bool,
    in_ack: bool,
) -> Result<Option<Extended>, ApsError>
    ensures exact { Gives result reader.new.rest.now
        (optional_at present (extended_at in_ack) reader.old.cut reader.old.rest.now) }
    ensures spelled { IfOk result (λ x. reader.old.rest.now ≡ optional extended x ++ reader.new.rest.now) }
    ensures present { IfOk result (λ x. is_some x ≡ present) }
    ensures shaped { IfOk result (λ x. IfSome x (IsExtended in_ack)) }
    ensures in_range { IfOk result (λ x. IfSome x ExtendedInRange) }
    ensures shorter { length reader.new.rest.now ≤ length reader.old.rest.now }
    ensures cut { reader.new.cut ≡ reader.old.cut }
{
    if !present {
        return Ok(None);
    }
    let extended = read_extended(reader, in_ack)?;
    Ok(Some(extended))
}

/// Reads the fields after a control byte.
#[tactic(auto, unfolding(crate::specs::Reading::fields_at))]
fn read_fields(reader: &mut Reader<ApsError>, control: u8) -> Result<ApsHeader, ApsError>
    requires { IsControl control }
    ensures exact { Gives result reader.new.rest.now (fields_at control reader.old.cut reader.old.rest.now) }
    ensures spelled { IfOk result (λ x. control ∷ reader.old.rest.now ≡ header x ++ reader.new.rest.now) }
    ensures shaped { IfOk result (λ x. IsHeader x) }
    ensures in_range { IfOk result (λ x. HeaderInRange x) }
    ensures shorter { length reader.new.rest.now ≤ length reader.old.rest.now }
    ensures cut { reader.new.cut ≡ reader.old.cut }
{
    let addressed = is_addressed(control);
    let grouped = to_group(control);
    let endpoint = reader.optional_byte(addressed && !grouped)?;
    let group = reader.optional_number16(addressed && grouped)?;
    let cluster = reader.optional_number16(addressed)?;
    let profile = reader.optional_number16(addressed)?;
    let source_endpoint = reader.optional_byte(addressed)?;
    let counter = reader.byte()?;
    let extended = read_optional_extended(reader, has_bit(u16::from(control), 7), is_ack(control))?;
    Ok(ApsHeader {
        control,
        endpoint,
        group,
        cluster,
        profile,
        source_endpoint,
        counter,
        extended,
    })
}

/// Reads a header.
#[tactic(auto, unfolding(crate::specs::Reading::header_at))]
pub(crate) fn read_header(reader: &mut Reader<ApsError>) -> Result<ApsHeader, ApsError>
    ensures exact { Gives result reader.new.rest.now (header_at reader.old.cut reader.old.rest.now) }
    ensures spelled { IfOk result (λ x. reader.old.rest.now ≡ header x ++ reader.new.rest.now) }
    ensures shaped { IfOk result (λ x. IsHeader x) }
    ensures in_range { IfOk result (λ x. HeaderInRange x) }
    ensures shorter { length reader.new.rest.now ≤ length reader.old.rest.now }
    ensures cut { reader.new.cut ≡ reader.old.cut }
{
    let control = read_control(reader)?;
    let header = read_fields(reader, control)?;
    Ok(header)
}

fn put_extended(out: &mut Frame, value: &Extended) -> Result<(), TooLong>
    ensures { Appends out.old.items (extended value.now) out.new.items result }
{
    put_byte(out, value.control)?;
    put_optional_byte(out, value.block)?;
    put_optional_byte(out, value.bits)?;
    Ok(())
}

fn put_optional_extended(out: &mut Frame, value: &Option<Extended>) -> Result<(), TooLong>
    ensures { Appends out.old.items (optional extended value.now) out.new.items result }
{
    match value {
        None => put(out, &[])?,
        Some(extended) => put_extended(out, extended)?,
    }
    Ok(())
}

/// Writes the control byte and the destination.
fn put_addressing(out: &mut Frame, value: &ApsHeader) -> Result<(), TooLong>
    ensures { Appends out.old.items (addressing value.now) out.new.items result }
{
    put_byte(out, value.control)?;
    put_optional_byte(out, value.endpoint)?;
    put_optional_number16(out, value.group)?;
    put_optional_number16(out, value.cluster)?;
    Ok(())
}

/// Writes a header at the end.
pub(crate) fn put_header(out: &mut Frame, value: &ApsHeader) -> Result<(), TooLong>
    ensures { Appends out.old.items (header value.now) out.new.items result }
{
    put_addressing(out, value)?;
    put_optional_number16(out, value.profile)?;
    put_optional_byte(out, value.source_endpoint)?;
    put_byte(out, value.counter)?;
    put_optional_extended(out, &value.extended)?;
    Ok(())
}
