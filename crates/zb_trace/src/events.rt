//! The lines of what happens: frames that are accepted, refused, sealed and sent, power and disks, and the end.
ghost use Rattle.std.specs.Prelude.{◌≡◌, ◌++◌, OnOk, decimal};
ghost use Rattle.zb_text.specs.Words.{then};
ghost use Rattle.zb_trace.specs.Text as spec;
ghost use Rattle.zb_trace.specs.declared.line.Line.TheVariants as line;

use crate::parts::{add_refusal, add_term, begin, begin_of};
use std::alloc::AllocError;
use zb_base::{Frame, List, Name};
use zb_model_real::Term;
use zb_node_types::Refusal;
use zb_text::choices::answer_text;
use zb_text::page::{add_bytes, add_number, add_word, end_line, put};

/// Prints the line of a commit: changes of a node that are stored.
#[tactic(auto, using(std::proofs::Common::append_assoc), unfolding(crate::specs::Text::text))]
pub(crate) fn put_commit(out: &mut Vec<u8>, event: u32, node: &Name) -> Result<(), AllocError>
    ensures { OnOk result (out.new.items ≡ out.old.items ++ spec.text (line.Commit event node.now)) }
{
    begin_of(out, event, b"commit", node)?;
    end_line(out)?;
    Ok(())
}

/// Prints the line of an accepted layer of a frame.
#[tactic(auto, using(std::proofs::Common::append_assoc), unfolding(crate::specs::Text::text))]
pub(crate) fn put_accept(
    out: &mut Vec<u8>,
    event: u32,
    node: &Name,
    term: &Term,
) -> Result<(), AllocError>
    ensures { OnOk result (out.new.items ≡ out.old.items ++ spec.text (line.Accept event node.now term.now)) }
{
    begin_of(out, event, b"accept", node)?;
    add_term(out, term)?;
    end_line(out)?;
    Ok(())
}

/// Prints the line of a refused event.
#[tactic(auto, using(std::proofs::Common::append_assoc), unfolding(crate::specs::Text::text))]
pub(crate) fn put_refuse(
    out: &mut Vec<u8>,
    event: u32,
    node: &Name,
    refusal: &Refusal,
) -> Result<(), AllocError>
    ensures { OnOk result (out.new.items ≡ out.old.items ++ spec.text (line.Refuse event node.now refusal.now)) }
{
    begin_of(out, event, b"refuse", node)?;
    add_refusal(out, refusal)?;
    end_line(out)?;
    Ok(())
}

/// Prints the line of a sealed layer of a frame.
#[tactic(auto, using(std::proofs::Common::append_assoc), unfolding(crate::specs::Text::text))]
pub(crate) fn put_seal(
    out: &mut Vec<u8>,
    event: u32,
    node: &Name,
    term: &Term,
) -> Result<(), AllocError>
    ensures { OnOk result (out.new.items ≡ out.old.items ++ spec.text (line.Seal event node.now term.now)) }
{
    begin_of(out, event, b"seal", node)?;
    add_term(out, term)?;
    end_line(out)?;
    Ok(())
}

/// Prints the line of a forged layer of a frame.
#[tactic(auto, using(std::proofs::Common::append_assoc), unfolding(crate::specs::Text::text))]
pub(crate) fn put_forge(out: &mut Vec<u8>, event: u32, term: &Term) -> Result<(), AllocError>
    ensures { OnOk result (out.new.items ≡ out.old.items ++ spec.text (line.Forge event term.now)) }
{
    begin(out, event, b"forge")?;
    add_term(out, term)?;
    end_line(out)?;
    Ok(())
}

/// Prints the line of a frame that is sent.
#[tactic(auto, using(std::proofs::Common::append_assoc), unfolding(crate::specs::Text::text))]
pub(crate) fn put_send(
    out: &mut Vec<u8>,
    event: u32,
    node: &Name,
    frame: u32,
    bytes: &Frame,
) -> Result<(), AllocError>
    ensures { OnOk result (out.new.items ≡ out.old.items ++ spec.text (line.Send event node.now frame bytes.now)) }
{
    begin_of(out, event, b"send", node)?;
    add_number(out, frame)?;
    add_bytes(out, bytes.as_slice())?;
    end_line(out)?;
    Ok(())
}

/// Prints the line of injected bytes.
#[tactic(auto, using(std::proofs::Common::append_assoc), unfolding(crate::specs::Text::text))]
pub(crate) fn put_inject(
    out: &mut Vec<u8>,
    event: u32,
    frame: u32,
    bytes: &Frame,
) -> Result<(), AllocError>
    ensures { OnOk result (out.new.items ≡ out.old.items ++ spec.text (line.Inject event frame bytes.now)) }
{
    begin(out, event, b"inject")?;
    add_number(out, frame)?;
    add_bytes(out, bytes.as_slice())?;
    end_line(out)?;
    Ok(())
}

/// Prints the line of a node whose disk stopped.
#[tactic(auto, using(std::proofs::Common::append_assoc), unfolding(crate::specs::Text::text))]
pub(crate) fn put_stopped(out: &mut Vec<u8>, event: u32, node: &Name) -> Result<(), AllocError>
    ensures { OnOk result (out.new.items ≡ out.old.items ++ spec.text (line.Stopped event node.now)) }
{
    begin_of(out, event, b"stopped", node)?;
    end_line(out)?;
    Ok(())
}

/// Prints the line of a node that was reset.
#[tactic(auto, using(std::proofs::Common::append_assoc), unfolding(crate::specs::Text::text))]
pub(crate) fn put_down_reset(out: &mut Vec<u8>, event: u32, node: &Name) -> Result<(), AllocError>
    ensures { OnOk result (out.new.items ≡ out.old.items ++ spec.text (line.DownReset event node.now)) }
{
    begin_of(out, event, b"down", node)?;
    add_word(out, b"reset")?;
    end_line(out)?;
    Ok(())
}

/// Prints the line of a node whose disk failed.
#[tactic(auto, using(std::proofs::Common::append_assoc), unfolding(crate::specs::Text::text))]
pub(crate) fn put_down_disk(out: &mut Vec<u8>, event: u32, node: &Name) -> Result<(), AllocError>
    ensures { OnOk result (out.new.items ≡ out.old.items ++ spec.text (line.DownDisk event node.now)) }
{
    begin_of(out, event, b"down", node)?;
    add_word(out, b"disk")?;
    end_line(out)?;
    Ok(())
}

/// Prints the line of a node that booted.
#[tactic(auto, using(std::proofs::Common::append_assoc), unfolding(crate::specs::Text::text))]
pub(crate) fn put_boot(out: &mut Vec<u8>, event: u32, node: &Name) -> Result<(), AllocError>
    ensures { OnOk result (out.new.items ≡ out.old.items ++ spec.text (line.Boot event node.now)) }
{
    begin_of(out, event, b"boot", node)?;
    end_line(out)?;
    Ok(())
}

/// Prints the line of the record that a node's disk holds.
#[tactic(auto, using(std::proofs::Common::append_assoc), unfolding(crate::specs::Text::text))]
pub(crate) fn put_dump(
    out: &mut Vec<u8>,
    event: u32,
    node: &Name,
    bytes: &List<u8>,
) -> Result<(), AllocError>
    ensures { OnOk result (out.new.items ≡ out.old.items ++ spec.text (line.Dump event node.now bytes.now)) }
{
    begin_of(out, event, b"dump", node)?;
    add_bytes(out, bytes.as_slice())?;
    end_line(out)?;
    Ok(())
}

/// Prints the end line of a transcript.
#[tactic(auto, using(std::proofs::Common::append_assoc), unfolding(crate::specs::Text::text))]
pub(crate) fn put_end(
    out: &mut Vec<u8>,
    events: u32,
    seals: u32,
    accepts: u32,
    refusals: u32,
    ideal: bool,
    private: bool,
) -> Result<(), AllocError>
    ensures { OnOk result
        (out.new.items ≡ out.old.items ++ spec.text (line.End events seals accepts refusals ideal private)) }
{
    put(out, b"end")?;
    add_counts(out, events, seals, accepts, refusals)?;
    add_word(out, answer_text(ideal))?;
    add_word(out, answer_text(private))?;
    end_line(out)?;
    Ok(())
}

#[tactic(auto, using(std::proofs::Common::append_assoc))]
fn add_counts(
    out: &mut Vec<u8>,
    events: u32,
    seals: u32,
    accepts: u32,
    refusals: u32,
) -> Result<(), AllocError>
    ensures { OnOk result
        (out.new.items ≡ out.old.items
        ++ (then (decimal events)
        ++ (then (decimal seals) ++ (then (decimal accepts) ++ then (decimal refusals))))) }
{
    add_number(out, events)?;
    add_number(out, seals)?;
    add_number(out, accepts)?;
    add_number(out, refusals)?;
    Ok(())
}
