//! The printed lines of a schedule.

ghost use Rattle.std.specs.Prelude.{◌≡◌, [], ◌∷◌, ◌++◌, codes, decimal, OnOk};
ghost use Rattle.hex.specs.Hex.{encode_upper};
ghost use Rattle.zb_text.specs.Fields.{eui_text, short_text};
ghost use Rattle.zb_text.specs.Hexadecimal.{bytes_text};
ghost use Rattle.zb_text.specs.Words.{then};
ghost use Rattle.zb_sched_line.specs.Texts.{code_words, counter_words, draw_words, netkey_words, node_words, rejoin_text, text_of_words};

use std::alloc::AllocError;
use zb_base::{Key, Layer, Name, Peer, Short};
use zb_text::choices::{layer_text, role_text};
use zb_text::page::{add_bytes, add_eui, add_key, add_number, add_short, add_word, end_line, put};

/// Prints the line of a node.
///
/// # Errors
/// `AllocError`.
#[tactic(auto, using(std::proofs::Common::append_assoc))]
pub fn put_node(
    out: &mut Vec<u8>,
    peer: &Peer,
    out_block: u32,
    in_block: u32,
) -> Result<(), AllocError>
    ensures { OnOk result (out.new.items ≡ out.old.items
        ++ text_of_words (node_words peer.now.name.bytes peer.now.role peer.now.eui.0 peer.now.short.0
        out_block in_block)) }
{
    put_named(out, b"node", &peer.name)?;
    add_word(out, role_text(peer.role))?;
    add_eui(out, peer.eui)?;
    add_short(out, peer.short)?;
    add_number(out, out_block)?;
    add_number(out, in_block)?;
    end_line(out)?;
    Ok(())
}

/// Prints the line of a network key that a node holds.
///
/// # Errors
/// `AllocError`.
#[tactic(auto, using(std::proofs::Common::append_assoc))]
pub fn put_netkey(out: &mut Vec<u8>, name: &Name, key: &Key, sequence: u8) -> Result<(), AllocError>
    ensures { OnOk result (out.new.items ≡ out.old.items
        ++ text_of_words (netkey_words name.now.bytes key.now.0 sequence)) }
{
    put_named(out, b"netkey", name)?;
    add_key(out, key)?;
    add_number(out, sequence as u32)?;
    end_line(out)?;
    Ok(())
}

/// Prints the line of a node's stored limit.
///
/// # Errors
/// `AllocError`.
#[tactic(auto, using(std::proofs::Common::append_assoc))]
pub fn put_counter(
    out: &mut Vec<u8>,
    name: &Name,
    layer: Layer,
    limit: u32,
) -> Result<(), AllocError>
    ensures { OnOk result (out.new.items ≡ out.old.items
        ++ text_of_words (counter_words name.now.bytes layer limit)) }
{
    put_named(out, b"counter", name)?;
    add_word(out, layer_text(layer))?;
    add_number(out, limit)?;
    end_line(out)?;
    Ok(())
}

/// Prints the line of a key of the supply.
///
/// # Errors
/// `AllocError`.
#[tactic(auto, using(std::proofs::Common::append_assoc))]
pub fn put_draw(out: &mut Vec<u8>, key: &Key) -> Result<(), AllocError>
    ensures { OnOk result (out.new.items ≡ out.old.items ++ text_of_words (draw_words key.now.0)) }
{
    put(out, b"draw")?;
    add_key(out, key)?;
    end_line(out)?;
    Ok(())
}

#[tactic(auto, using(std::proofs::Common::append_assoc))]
fn put_named(out: &mut Vec<u8>, keyword: &[u8], name: &Name) -> Result<(), AllocError>
    ensures { OnOk result (out.new.items ≡ out.old.items ++ (keyword.now ++ then name.now.bytes)) }
{
    put(out, keyword)?;
    add_word(out, name.as_bytes())?;
    Ok(())
}

fn rejoin_word(rejoin: bool) -> &'static [u8]
    ensures { result.now ≡ rejoin_text rejoin }
{
    if rejoin { b"rejoin" } else { b"join" }
}

/// Prints the line of an event that names one node.
#[tactic(auto, using(std::proofs::Common::append_assoc))]
pub(crate) fn put_own(out: &mut Vec<u8>, keyword: &[u8], name: &Name) -> Result<(), AllocError>
    ensures { OnOk result (out.new.items ≡ out.old.items ++ text_of_words (keyword.now ∷ name.now.bytes ∷ [])) }
{
    put_named(out, keyword, name)?;
    end_line(out)?;
    Ok(())
}

/// Prints the line of an event that names two nodes.
#[tactic(auto, using(std::proofs::Common::append_assoc))]
pub(crate) fn put_pair(
    out: &mut Vec<u8>,
    keyword: &[u8],
    name: &Name,
    partner: &Name,
) -> Result<(), AllocError>
    ensures { OnOk result (out.new.items ≡ out.old.items
        ++ text_of_words (keyword.now ∷ name.now.bytes ∷ partner.now.bytes ∷ [])) }
{
    put_named(out, keyword, name)?;
    add_word(out, partner.as_bytes())?;
    end_line(out)?;
    Ok(())
}

/// Prints the line of application data that a node says to a short address.
#[tactic(auto, using(std::proofs::Common::append_assoc))]
pub(crate) fn put_say(
    out: &mut Vec<u8>,
    name: &Name,
    to: Short,
    bytes: &[u8],
) -> Result<(), AllocError>
    ensures { OnOk result (out.new.items ≡ out.old.items
        ++ text_of_words (codes "say" ∷ name.now.bytes ∷ short_text to.0 ∷ bytes_text bytes.now ∷ [])) }
{
    put_named(out, b"say", name)?;
    add_short(out, to)?;
    add_bytes(out, bytes)?;
    end_line(out)?;
    Ok(())
}

/// Prints the line of a frame that is delivered to a node.
#[tactic(auto, using(std::proofs::Common::append_assoc))]
pub(crate) fn put_deliver(out: &mut Vec<u8>, frame: u32, name: &Name) -> Result<(), AllocError>
    ensures { OnOk result (out.new.items ≡ out.old.items
        ++ text_of_words (codes "deliver" ∷ decimal frame ∷ name.now.bytes ∷ [])) }
{
    put(out, b"deliver")?;
    add_number(out, frame)?;
    add_word(out, name.as_bytes())?;
    end_line(out)?;
    Ok(())
}

/// Prints the line of a child that joins or rejoins at a parent.
#[tactic(auto, using(std::proofs::Common::append_assoc))]
pub(crate) fn put_child(
    out: &mut Vec<u8>,
    parent: &Name,
    name: &Name,
    rejoin: bool,
) -> Result<(), AllocError>
    ensures { OnOk result (out.new.items ≡ out.old.items
        ++ text_of_words (codes "child" ∷ parent.now.bytes ∷ name.now.bytes ∷ rejoin_text rejoin ∷ [])) }
{
    put_named(out, b"child", parent)?;
    add_word(out, name.as_bytes())?;
    add_word(out, rejoin_word(rejoin))?;
    end_line(out)?;
    Ok(())
}

/// Prints the line of a device that is removed by way of a parent.
#[tactic(auto, using(std::proofs::Common::append_assoc))]
pub(crate) fn put_remove(out: &mut Vec<u8>, name: &Name, parent: &Name) -> Result<(), AllocError>
    ensures { OnOk result (out.new.items ≡ out.old.items
        ++ text_of_words (codes "remove" ∷ name.now.bytes ∷ codes "via" ∷ parent.now.bytes ∷ [])) }
{
    put_named(out, b"remove", name)?;
    add_word(out, b"via")?;
    add_word(out, parent.as_bytes())?;
    end_line(out)?;
    Ok(())
}

/// Prints the line of a stop that is armed on the disk of a node.
#[tactic(auto, using(std::proofs::Common::append_assoc))]
pub(crate) fn put_stop(
    out: &mut Vec<u8>,
    name: &Name,
    calls: u8,
    torn: &[u8],
) -> Result<(), AllocError>
    ensures { OnOk result (out.new.items ≡ out.old.items
        ++ text_of_words (codes "stop" ∷ name.now.bytes ∷ decimal calls ∷ bytes_text torn.now ∷ [])) }
{
    put_named(out, b"stop", name)?;
    add_number(out, calls as u32)?;
    add_bytes(out, torn)?;
    end_line(out)?;
    Ok(())
}

/// Prints the line of a failure that is armed on the disk of a node.
#[tactic(auto, using(std::proofs::Common::append_assoc))]
pub(crate) fn put_fail(out: &mut Vec<u8>, name: &Name, call: u8) -> Result<(), AllocError>
    ensures { OnOk result (out.new.items ≡ out.old.items
        ++ text_of_words (codes "fail" ∷ name.now.bytes ∷ decimal call ∷ [])) }
{
    put_named(out, b"fail", name)?;
    add_number(out, call as u32)?;
    end_line(out)?;
    Ok(())
}

/// Prints the line of bytes that the outside puts on the air.
#[tactic(auto, using(std::proofs::Common::append_assoc))]
pub(crate) fn put_inject(out: &mut Vec<u8>, bytes: &[u8]) -> Result<(), AllocError>
    ensures { OnOk result (out.new.items ≡ out.old.items
        ++ text_of_words (codes "inject" ∷ bytes_text bytes.now ∷ [])) }
{
    put(out, b"inject")?;
    add_bytes(out, bytes)?;
    end_line(out)?;
    Ok(())
}

/// Prints the line of application data that a node tells a partner.
#[tactic(auto, using(std::proofs::Common::append_assoc))]
pub(crate) fn put_tell(
    out: &mut Vec<u8>,
    name: &Name,
    partner: &Name,
    bytes: &[u8],
) -> Result<(), AllocError>
    ensures { OnOk result (out.new.items ≡ out.old.items
        ++ text_of_words (codes "tell" ∷ name.now.bytes ∷ partner.now.bytes ∷ bytes_text bytes.now ∷ [])) }
{
    put_named(out, b"tell", name)?;
    add_word(out, partner.as_bytes())?;
    add_bytes(out, bytes)?;
    end_line(out)?;
    Ok(())
}

/// Prints a line of one word.
#[tactic(auto, using(std::proofs::Common::append_assoc))]
pub(crate) fn put_word_line(out: &mut Vec<u8>, word: &[u8]) -> Result<(), AllocError>
    ensures { OnOk result (out.new.items ≡ out.old.items ++ text_of_words (word.now ∷ [])) }
{
    put(out, word)?;
    end_line(out)?;
    Ok(())
}

/// Prints a line of a name and an install code.
#[tactic(auto, using(std::proofs::Common::append_assoc))]
fn put_coded(out: &mut Vec<u8>, keyword: &[u8], name: &Name, code: &[u8]) -> Result<(), AllocError>
    ensures { OnOk result (out.new.items ≡ out.old.items
        ++ text_of_words (keyword.now ∷ name.now.bytes ∷ bytes_text code.now ∷ [])) }
{
    put_named(out, keyword, name)?;
    add_bytes(out, code)?;
    end_line(out)?;
    Ok(())
}

/// Prints the line of the install code that is printed on a node.
///
/// # Errors
/// `AllocError`.
pub fn put_code(out: &mut Vec<u8>, name: &Name, code: &[u8]) -> Result<(), AllocError>
    ensures { OnOk result (out.new.items ≡ out.old.items ++ text_of_words (code_words name.now.bytes code.now)) }
{
    put_coded(out, b"code", name, code)?;
    Ok(())
}

/// Prints the line of an install code that is entered at the centre for a device.
pub(crate) fn put_provision(out: &mut Vec<u8>, name: &Name, code: &[u8]) -> Result<(), AllocError>
    ensures { OnOk result (out.new.items ≡ out.old.items
        ++ text_of_words (codes "provision" ∷ name.now.bytes ∷ bytes_text code.now ∷ [])) }
{
    put_coded(out, b"provision", name, code)?;
    Ok(())
}
