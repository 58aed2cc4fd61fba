//! The lines of a report after those of the frames.
ghost use Rattle.std.specs.Prelude.{◌≡◌, ◌+◌, ◌-◌, ◌<◌, ◌^◌, ◌++◌, ◌∷◌, [], length, decimal, OnOk};
ghost use Rattle.zb_text.specs.Words.{then};
ghost use Rattle.zb_inspect.specs.Report.{found_text, key_line, keys_text, end_line as end_text, tail_text};

use crate::{Ring, RingKey};
use std::alloc::AllocError;
use zb_text::page::{add_key, add_number, add_word, end_line, put};

/// Prints the lines of the keys, and the end.
#[tactic(auto, using(std::proofs::Common::append_assoc))]
pub(crate) fn put_tail(out: &mut Vec<u8>, frames: u32, ring: &Ring) -> Result<(), AllocError>
    requires { length ring.now.keys < 2 ^ 32 - 1 }
    ensures { OnOk result (out.new.items ≡ out.old.items ++ tail_text frames ring.now) }
{
    put_keys(out, ring.keys.as_slice())?;
    put_end(out, frames, ring.keys.as_slice().len() as u32, ring.rounds)?;
    Ok(())
}

fn put_keys(out: &mut Vec<u8>, keys: &[RingKey]) -> Result<(), AllocError>
    requires { length keys.now < 2 ^ 32 - 1 }
    ensures { OnOk result (out.new.items ≡ out.old.items ++ keys_text 1 keys.now) }
{
    let mut number: u32 = 1;
    for known in keys {
        put_ring_key(out, number, known)?;
        number += 1;
    }
    Ok(())
}

#[tactic(auto, using(std::proofs::Common::append_assoc), unfolding(crate::specs::Report::key_line))]
fn put_ring_key(out: &mut Vec<u8>, number: u32, known: &RingKey) -> Result<(), AllocError>
    ensures { OnOk result (out.new.items ≡ out.old.items ++ key_line number known.now) }
{
    put(out, b"key")?;
    add_number(out, number)?;
    add_key(out, &known.key)?;
    put_found(out, known.found)?;
    end_line(out)?;
    Ok(())
}

#[tactic(auto, using(std::proofs::Common::append_assoc))]
fn put_found(out: &mut Vec<u8>, found: Option<(u32, u32)>) -> Result<(), AllocError>
    ensures { OnOk result (out.new.items ≡ out.old.items ++ found_text found) }
{
    match found {
        None => add_word(out, b"given")?,
        Some((frame, round)) => {
            add_word(out, b"found")?;
            add_number(out, frame)?;
            add_number(out, round)?;
        }
    }
    Ok(())
}

#[tactic(auto, using(std::proofs::Common::append_assoc), unfolding(crate::specs::Report::end_line))]
fn put_end(out: &mut Vec<u8>, frames: u32, keys: u32, rounds: u32) -> Result<(), AllocError>
    ensures { OnOk result (out.new.items ≡ out.old.items ++ end_text frames keys rounds) }
{
    put(out, b"end")?;
    add_number(out, frames)?;
    add_number(out, keys)?;
    add_number(out, rounds)?;
    end_line(out)?;
    Ok(())
}
