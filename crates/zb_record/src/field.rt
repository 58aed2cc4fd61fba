//! Fields of one byte that represent a layer, an attribute, a state or a rollover. At a byte that represents none, the
//! result is the reader's fault.
ghost use Rattle.std.specs.Prelude.{◌≡◌, ◌∷◌, IfOk};
ghost use Rattle.zb_node_types.specs.Changes.{model_role, model_layer, model_attribute, model_state, is_sending};
ghost use Rattle.zb_cursor.specs.Reading.{Gives};
ghost use Rattle.zb_model.specs.Record.{role_byte, layer_byte, attribute_byte, state_byte, worth};
ghost use Rattle.zb_record.specs.Fields.{role_at, layer_at, attribute_at, state_at, rollover_at};

use zb_base::{Attribute, Layer, Role, Rollover, State};
use zb_cursor::Reader;

/// Reads a layer: 00 network, 01 application support.
///
/// # Errors
/// The reader's fault at any other byte, or if no byte is left.
#[tactic(auto, unfolding(crate::specs::Fields::layer_at))]
pub(crate) fn read_layer(reader: &mut Reader<usize>) -> Result<Layer, usize>
    ensures exact { Gives result reader.new.rest.now (layer_at reader.old.cut reader.old.rest.now) }
    ensures spelled { IfOk result (λ x. reader.old.rest.now ≡ layer_byte (model_layer x) ∷ reader.new.rest.now) }
    ensures cut { reader.new.cut ≡ reader.old.cut }
{
    match reader.byte()? {
        0 => Ok(Layer::Nwk),
        1 => Ok(Layer::Aps),
        _ => Err(reader.cut),
    }
}

/// Reads an attribute: 00 provisional, 01 unverified, 02 verified.
///
/// # Errors
/// The reader's fault at any other byte, or if no byte is left.
#[tactic(auto, unfolding(crate::specs::Fields::attribute_at))]
pub(crate) fn read_attribute(reader: &mut Reader<usize>) -> Result<Attribute, usize>
    ensures exact { Gives result reader.new.rest.now (attribute_at reader.old.cut reader.old.rest.now) }
    ensures spelled { IfOk result (λ x. reader.old.rest.now
        ≡ attribute_byte (model_attribute x) ∷ reader.new.rest.now) }
    ensures cut { reader.new.cut ≡ reader.old.cut }
{
    match reader.byte()? {
        0 => Ok(Attribute::Provisional),
        1 => Ok(Attribute::Unverified),
        2 => Ok(Attribute::Verified),
        _ => Err(reader.cut),
    }
}

/// Reads a state: 00 to 06, in the order of `State`.
///
/// # Errors
/// The reader's fault at any other byte, or if no byte is left.
#[tactic(auto, unfolding(crate::specs::Fields::state_at))]
pub(crate) fn read_state(reader: &mut Reader<usize>) -> Result<State, usize>
    ensures exact { Gives result reader.new.rest.now (state_at reader.old.cut reader.old.rest.now) }
    ensures spelled { IfOk result (λ x. reader.old.rest.now ≡ state_byte (model_state x) ∷ reader.new.rest.now) }
    ensures cut { reader.new.cut ≡ reader.old.cut }
{
    match reader.byte()? {
        0 => Ok(State::Fresh),
        1 => Ok(State::Knocked),
        2 => Ok(State::Joined),
        3 => Ok(State::Offered),
        4 => Ok(State::Confirmed),
        5 => Ok(State::Rejoining),
        6 => Ok(State::Gone),
        _ => Err(reader.cut),
    }
}

/// Reads a rollover: 00 idle, 01 sending.
///
/// # Errors
/// The reader's fault at any other byte, or if no byte is left.
#[tactic(auto, unfolding(crate::specs::Fields::rollover_at))]
pub(crate) fn read_rollover(reader: &mut Reader<usize>) -> Result<Rollover, usize>
    ensures exact { Gives result reader.new.rest.now (rollover_at reader.old.cut reader.old.rest.now) }
    ensures spelled { IfOk result (λ x. reader.old.rest.now ≡ worth 1 (is_sending x) ∷ reader.new.rest.now) }
    ensures cut { reader.new.cut ≡ reader.old.cut }
{
    match reader.byte()? {
        0 => Ok(Rollover::Idle),
        1 => Ok(Rollover::Sending),
        _ => Err(reader.cut),
    }
}

/// Reads a role: 00 centre, 01 router, 02 device.
///
/// # Errors
/// The reader's fault at any other byte, or if no byte is left.
#[tactic(auto, unfolding(crate::specs::Fields::role_at))]
pub(crate) fn read_role(reader: &mut Reader<usize>) -> Result<Role, usize>
    ensures exact { Gives result reader.new.rest.now (role_at reader.old.cut reader.old.rest.now) }
    ensures spelled { IfOk result (λ x. reader.old.rest.now ≡ role_byte (model_role x) ∷ reader.new.rest.now) }
    ensures cut { reader.new.cut ≡ reader.old.cut }
{
    match reader.byte()? {
        0 => Ok(Role::Centre),
        1 => Ok(Role::Router),
        2 => Ok(Role::Device),
        _ => Err(reader.cut),
    }
}
