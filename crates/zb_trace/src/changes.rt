//! The lines of changes of a node's stable state.
ghost use Rattle.std.specs.Prelude.{◌≡◌, ◌++◌, OnOk};
ghost use Rattle.zb_trace.specs.Text as spec;
ghost use Rattle.zb_trace.specs.declared.line.Line.TheVariants as line;

use crate::parts::{begin, begin_of};
use std::alloc::AllocError;
use zb_base::{Attribute, Eui, Key, Layer, Name, Rollover, State};
use zb_text::choices::{attribute_text, layer_text, rollover_text, state_text};
use zb_text::page::{add_eui, add_key, add_number, add_word, end_line};

/// Prints the line of a reserved outgoing counter.
#[tactic(auto, using(std::proofs::Common::append_assoc), unfolding(crate::specs::Text::text))]
pub(crate) fn put_reserve(
    out: &mut Vec<u8>,
    event: u32,
    node: &Name,
    layer: Layer,
    limit: u32,
) -> Result<(), AllocError>
    ensures { OnOk result (out.new.items ≡ out.old.items ++ spec.text (line.Reserve event node.now layer limit)) }
{
    begin_of(out, event, b"reserve", node)?;
    add_word(out, layer_text(layer))?;
    add_number(out, limit)?;
    end_line(out)?;
    Ok(())
}

/// Prints the line of a stored floor.
#[tactic(auto, using(std::proofs::Common::append_assoc), unfolding(crate::specs::Text::text))]
pub(crate) fn put_floor(
    out: &mut Vec<u8>,
    event: u32,
    node: &Name,
    layer: Layer,
    key: &Key,
    sender: Eui,
    value: u32,
) -> Result<(), AllocError>
    ensures { OnOk result
        (out.new.items ≡ out.old.items ++ spec.text (line.Floor event node.now layer key.now sender value)) }
{
    begin_of(out, event, b"floor", node)?;
    add_word(out, layer_text(layer))?;
    add_key(out, key)?;
    add_eui(out, sender)?;
    add_number(out, value)?;
    end_line(out)?;
    Ok(())
}

/// Prints the line of the use of the supply's next key.
#[tactic(auto, using(std::proofs::Common::append_assoc), unfolding(crate::specs::Text::text))]
pub(crate) fn put_draw(out: &mut Vec<u8>, event: u32, key: &Key) -> Result<(), AllocError>
    ensures { OnOk result (out.new.items ≡ out.old.items ++ spec.text (line.Draw event key.now)) }
{
    begin(out, event, b"draw")?;
    add_key(out, key)?;
    end_line(out)?;
    Ok(())
}

/// Prints the line of a network key that is dropped.
#[tactic(auto, using(std::proofs::Common::append_assoc), unfolding(crate::specs::Text::text))]
pub(crate) fn put_drop_net(
    out: &mut Vec<u8>,
    event: u32,
    node: &Name,
    key: &Key,
) -> Result<(), AllocError>
    ensures { OnOk result (out.new.items ≡ out.old.items ++ spec.text (line.DropNet event node.now key.now)) }
{
    begin_of(out, event, b"drop", node)?;
    add_word(out, b"net")?;
    add_key(out, key)?;
    end_line(out)?;
    Ok(())
}

/// Prints the line of a link key that is dropped.
#[tactic(auto, using(std::proofs::Common::append_assoc), unfolding(crate::specs::Text::text))]
pub(crate) fn put_drop_link(
    out: &mut Vec<u8>,
    event: u32,
    node: &Name,
    partner: Eui,
    key: &Key,
) -> Result<(), AllocError>
    ensures { OnOk result (out.new.items ≡ out.old.items ++ spec.text (line.DropLink event node.now partner key.now)) }
{
    begin_of(out, event, b"drop", node)?;
    add_word(out, b"link")?;
    add_eui(out, partner)?;
    add_key(out, key)?;
    end_line(out)?;
    Ok(())
}

/// Prints the line of a new network key.
#[tactic(auto, using(std::proofs::Common::append_assoc), unfolding(crate::specs::Text::text))]
pub(crate) fn put_install(
    out: &mut Vec<u8>,
    event: u32,
    node: &Name,
    key: &Key,
    sequence: u8,
) -> Result<(), AllocError>
    ensures { OnOk result (out.new.items ≡ out.old.items ++ spec.text (line.Install event node.now key.now sequence)) }
{
    begin_of(out, event, b"install", node)?;
    add_key(out, key)?;
    add_number(out, u32::from(sequence))?;
    end_line(out)?;
    Ok(())
}

/// Prints the line of a network key that becomes active.
#[tactic(auto, using(std::proofs::Common::append_assoc), unfolding(crate::specs::Text::text))]
pub(crate) fn put_active(
    out: &mut Vec<u8>,
    event: u32,
    node: &Name,
    key: &Key,
) -> Result<(), AllocError>
    ensures { OnOk result (out.new.items ≡ out.old.items ++ spec.text (line.Active event node.now key.now)) }
{
    begin_of(out, event, b"active", node)?;
    add_key(out, key)?;
    end_line(out)?;
    Ok(())
}

/// Prints the line of the first counter of a network key.
#[tactic(auto, using(std::proofs::Common::append_assoc), unfolding(crate::specs::Text::text))]
pub(crate) fn put_start(
    out: &mut Vec<u8>,
    event: u32,
    node: &Name,
    key: &Key,
    value: u32,
) -> Result<(), AllocError>
    ensures { OnOk result (out.new.items ≡ out.old.items ++ spec.text (line.Start event node.now key.now value)) }
{
    begin_of(out, event, b"start", node)?;
    add_key(out, key)?;
    add_number(out, value)?;
    end_line(out)?;
    Ok(())
}

/// Prints the line of a link key and its attribute.
#[tactic(auto, using(std::proofs::Common::append_assoc), unfolding(crate::specs::Text::text))]
pub(crate) fn put_row(
    out: &mut Vec<u8>,
    event: u32,
    node: &Name,
    partner: Eui,
    key: &Key,
    attribute: Attribute,
) -> Result<(), AllocError>
    ensures { OnOk result
        (out.new.items ≡ out.old.items ++ spec.text (line.Row event node.now partner key.now attribute)) }
{
    begin_of(out, event, b"row", node)?;
    add_eui(out, partner)?;
    add_key(out, key)?;
    add_word(out, attribute_text(attribute))?;
    end_line(out)?;
    Ok(())
}

/// Prints the line of a key for two devices.
#[tactic(auto, using(std::proofs::Common::append_assoc), unfolding(crate::specs::Text::text))]
pub(crate) fn put_pair(
    out: &mut Vec<u8>,
    event: u32,
    node: &Name,
    first: Eui,
    second: Eui,
    key: &Key,
) -> Result<(), AllocError>
    ensures { OnOk result (out.new.items
        ≡ out.old.items ++ spec.text (line.Pair event node.now first second key.now)) }
{
    begin_of(out, event, b"pair", node)?;
    add_eui(out, first)?;
    add_eui(out, second)?;
    add_key(out, key)?;
    end_line(out)?;
    Ok(())
}

/// Prints the line of a node's new state.
#[tactic(auto, using(std::proofs::Common::append_assoc), unfolding(crate::specs::Text::text))]
pub(crate) fn put_state(
    out: &mut Vec<u8>,
    event: u32,
    node: &Name,
    state: State,
) -> Result<(), AllocError>
    ensures { OnOk result (out.new.items ≡ out.old.items ++ spec.text (line.State event node.now state)) }
{
    begin_of(out, event, b"state", node)?;
    add_word(out, state_text(state))?;
    end_line(out)?;
    Ok(())
}

/// Prints the line of an admitted device.
#[tactic(auto, using(std::proofs::Common::append_assoc), unfolding(crate::specs::Text::text))]
pub(crate) fn put_live(out: &mut Vec<u8>, event: u32, device: Eui) -> Result<(), AllocError>
    ensures { OnOk result (out.new.items ≡ out.old.items ++ spec.text (line.Live event device)) }
{
    begin(out, event, b"live")?;
    add_eui(out, device)?;
    end_line(out)?;
    Ok(())
}

/// Prints the line of a removed device.
#[tactic(auto, using(std::proofs::Common::append_assoc), unfolding(crate::specs::Text::text))]
pub(crate) fn put_removed(out: &mut Vec<u8>, event: u32, device: Eui) -> Result<(), AllocError>
    ensures { OnOk result (out.new.items ≡ out.old.items ++ spec.text (line.Removed event device)) }
{
    begin(out, event, b"removed")?;
    add_eui(out, device)?;
    end_line(out)?;
    Ok(())
}

/// Prints the line of the beginning or end of a rollover.
#[tactic(auto, using(std::proofs::Common::append_assoc), unfolding(crate::specs::Text::text))]
pub(crate) fn put_roll(
    out: &mut Vec<u8>,
    event: u32,
    node: &Name,
    rollover: Rollover,
) -> Result<(), AllocError>
    ensures { OnOk result (out.new.items ≡ out.old.items ++ spec.text (line.Roll event node.now rollover)) }
{
    begin_of(out, event, b"roll", node)?;
    add_word(out, rollover_text(rollover))?;
    end_line(out)?;
    Ok(())
}

/// Prints the line of a device that was sent the newest network key.
#[tactic(auto, using(std::proofs::Common::append_assoc), unfolding(crate::specs::Text::text))]
pub(crate) fn put_told(out: &mut Vec<u8>, event: u32, device: Eui) -> Result<(), AllocError>
    ensures { OnOk result (out.new.items ≡ out.old.items ++ spec.text (line.Told event device)) }
{
    begin(out, event, b"told")?;
    add_eui(out, device)?;
    end_line(out)?;
    Ok(())
}

/// Prints the line of a device that needs the newest network key again.
#[tactic(auto, using(std::proofs::Common::append_assoc), unfolding(crate::specs::Text::text))]
pub(crate) fn put_untold(out: &mut Vec<u8>, event: u32, device: Eui) -> Result<(), AllocError>
    ensures { OnOk result (out.new.items ≡ out.old.items ++ spec.text (line.Untold event device)) }
{
    begin(out, event, b"untold")?;
    add_eui(out, device)?;
    end_line(out)?;
    Ok(())
}
