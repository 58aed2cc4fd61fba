//! The program's lines, each with the line of the model that it is. Those of a node say so of the node that has the
//! name.
ghost use Rattle.std.specs.Prelude.{◌≡◌, ℕ, List, None, Some, codes, true};
ghost use Rattle.zb_model.specs.Data.{Station};
ghost use Rattle.zb_model.specs.Lines as model;
ghost use Rattle.zb_model_real.specs.Terms.{model_term};
ghost use Rattle.zb_node_types.specs.Changes.{edit, model_layer, model_place, model_role, place_of, reason};
ghost use Rattle.zb_trace_model.specs.Naming.{IsCalled};
ghost use Rattle.zb_trace_model.specs.Said.{IsLineOf, IsOfCentre, edit_line};
ghost use Rattle.zb_text.specs.Fields.{is_name};

use zb_base::{Eui, Frame, Key, Layer, Name, Role, Short};
use zb_node_types::{Change, Refusal};
use zb_seal::Term;
use zb_trace::Line;

/// Makes the line of a declared node.
#[tactic(auto, using(crate::proofs::Says::declared_says))]
pub fn node_line(
    name: Name,
    role: Role,
    eui: Eui,
    short: Short,
    out_block: u32,
    in_block: u32,
) -> Line
    ensures { (known : List Station) → IsLineOf known result (model.Declared (record {
      name = name.bytes;
      eui = eui.0;
      short = short.0;
      role = model_role role;
      out_block = out_block;
      in_block = in_block;
    })) }
{
    Line::Node {
        name,
        role,
        eui,
        short,
        out_block,
        in_block,
    }
}

/// Makes the line of a network key that a node holds at the start.
#[tactic(auto, using(crate::proofs::Says::given_net_says))]
pub fn given_net_line(node: Name, key: Key, sequence: u8) -> Line
    ensures { (known : List Station) (n : ℕ) → IsCalled known n node.bytes
        → IsLineOf known result (model.GivenNet n key.0 sequence) }
{
    Line::GivenNet {
        node,
        key,
        sequence,
    }
}

/// Makes the line of a link key that a node holds at the start.
#[tactic(auto, using(crate::proofs::Says::given_link_says))]
pub fn given_link_line(node: Name, partner: Eui, key: Key) -> Line
    ensures { (known : List Station) (n : ℕ) → IsCalled known n node.bytes
        → IsLineOf known result (model.GivenLink n partner.0 key.0) }
{
    Line::GivenLink { node, partner, key }
}

/// Makes the line of a stored limit at the start.
#[tactic(auto, using(crate::proofs::Says::counter_says))]
pub fn counter_line(node: Name, layer: Layer, limit: u32) -> Line
    ensures { (known : List Station) (n : ℕ) → IsCalled known n node.bytes
        → IsLineOf known result (model.Counter n (model_layer layer) limit) }
{
    Line::Counter { node, layer, limit }
}

/// Makes the line of a change of a node's stable state.
///
/// The lines of draws, and of devices that are live, removed, told or not, name no node: those are the centre's.
pub fn change_line(event: u32, node: Name, change: Change) -> Line
    ensures is { result ≡ edit_line event node (edit change) }
    ensures says { (known : List Station) (n : ℕ) → IsCalled known n node.bytes → IsOfCentre known n (edit change)
        → IsLineOf known result (model.Changed event n (edit change)) }
{
    line_of_change(event, node, change)
}

#[tactic(auto, using(crate::proofs::Says::changes_are))]
fn line_of_change(event: u32, node: Name, change: Change) -> Line
    ensures { result ≡ edit_line event node (edit change) }
{
    match change {
        Change::Reserve { layer, limit } => Line::Reserve {
            event,
            node,
            layer,
            limit,
        },
        Change::Floor {
            layer,
            key,
            sender,
            value,
        } => Line::Floor {
            event,
            node,
            layer,
            key,
            sender,
            value,
        },
        Change::Draw { key } => Line::Draw { event, key },
        Change::DropNet { key } => Line::DropNet { event, node, key },
        Change::DropLink { partner, key } => Line::DropLink {
            event,
            node,
            partner,
            key,
        },
        Change::Install { key, sequence } => Line::Install {
            event,
            node,
            key,
            sequence,
        },
        Change::Active { key } => Line::Active { event, node, key },
        Change::Start { key, value } => Line::Start {
            event,
            node,
            key,
            value,
        },
        Change::Row {
            partner,
            key,
            attribute,
        } => Line::Row {
            event,
            node,
            partner,
            key,
            attribute,
        },
        Change::Pair { first, second, key } => Line::Pair {
            event,
            node,
            first,
            second,
            key,
        },
        Change::State { state } => Line::State { event, node, state },
        Change::Live { device } => Line::Live { event, device },
        Change::Removed { device } => Line::Removed { event, device },
        Change::Roll { rollover } => Line::Roll {
            event,
            node,
            rollover,
        },
        Change::Told { device } => Line::Told { event, device },
        Change::Untold { device } => Line::Untold { event, device },
    }
}

/// Makes the line of a commit.
#[tactic(auto, using(crate::proofs::Says::commit_says))]
pub fn commit_line(event: u32, node: Name) -> Line
    ensures { (known : List Station) (n : ℕ) → IsCalled known n node.bytes
        → IsLineOf known result (model.Commit event n) }
{
    Line::Commit { event, node }
}

/// Makes the line of an accepted layer of a frame.
#[tactic(auto, using(crate::proofs::Says::accept_says))]
pub fn accept_line(event: u32, node: Name, term: Term) -> Line
    ensures { (known : List Station) (n : ℕ) → IsCalled known n node.bytes
        → IsLineOf known result (model.Accept event n (model_term term)) }
{
    Line::Accept { event, node, term }
}

/// Makes the line of a refused event.
#[tactic(auto, using(crate::proofs::Says::refuse_says))]
pub fn refuse_line(event: u32, node: Name, refusal: Refusal) -> Line
    ensures { (known : List Station) (n : ℕ) → IsCalled known n node.bytes
        → IsLineOf known result (model.Refuse event n (model_place (place_of refusal)) (reason refusal)) }
{
    Line::Refuse {
        event,
        node,
        refusal,
    }
}

/// Makes the line of a sealed layer of a frame.
#[tactic(auto, using(crate::proofs::Says::seal_says))]
pub fn seal_line(event: u32, node: Name, term: Term) -> Line
    ensures { (known : List Station) (n : ℕ) → IsCalled known n node.bytes
        → IsLineOf known result (model.Seal event n (model_term term)) }
{
    Line::Seal { event, node, term }
}

/// Makes the line of a layer that an outsider sealed.
#[tactic(auto, using(crate::proofs::Says::forge_says))]
pub fn forge_line(event: u32, term: Term) -> Line
    ensures { (known : List Station) → IsLineOf known result (model.Forge event (model_term term)) }
{
    Line::Forge { event, term }
}

/// Makes the line of a frame that went on the air. The name of an outsider, who forged it, is `-`.
pub fn send_line(event: u32, node: Name, frame: u32, bytes: Frame) -> Line
    ensures node { (known : List Station) (n : ℕ) → IsCalled known n node.bytes → is_name node.bytes ≡ true
        → IsLineOf known result (model.Send event (Some n) frame bytes.items) }
    ensures outsider { (known : List Station) → node.bytes ≡ codes "-"
        → IsLineOf known result (model.Send event None frame bytes.items) }
{
    Line::Send {
        event,
        node,
        frame,
        bytes,
    }
}

/// Makes the line of bytes that an outsider put on the air.
#[tactic(auto, using(crate::proofs::Says::inject_says))]
pub fn inject_line(event: u32, frame: u32, bytes: Frame) -> Line
    ensures { (known : List Station) → IsLineOf known result (model.Inject event frame bytes.items) }
{
    Line::Inject {
        event,
        frame,
        bytes,
    }
}

/// Makes the line of a node whose disk stopped inside an event.
#[tactic(auto, using(crate::proofs::Says::stopped_says))]
pub fn stopped_line(event: u32, node: Name) -> Line
    ensures { (known : List Station) (n : ℕ) → IsCalled known n node.bytes
        → IsLineOf known result (model.Stopped event n) }
{
    Line::Stopped { event, node }
}

/// Makes the line of a reset.
#[tactic(auto, using(crate::proofs::Says::reset_says))]
pub fn reset_line(event: u32, node: Name) -> Line
    ensures { (known : List Station) (n : ℕ) → IsCalled known n node.bytes
        → IsLineOf known result (model.DownReset event n) }
{
    Line::DownReset { event, node }
}

/// Makes the line of a node whose disk failed.
#[tactic(auto, using(crate::proofs::Says::disk_says))]
pub fn disk_line(event: u32, node: Name) -> Line
    ensures { (known : List Station) (n : ℕ) → IsCalled known n node.bytes
        → IsLineOf known result (model.DownDisk event n) }
{
    Line::DownDisk { event, node }
}

/// Makes the line of a boot.
#[tactic(auto, using(crate::proofs::Says::boot_says))]
pub fn boot_line(event: u32, node: Name) -> Line
    ensures { (known : List Station) (n : ℕ) → IsCalled known n node.bytes
        → IsLineOf known result (model.Boot event n) }
{
    Line::Boot { event, node }
}

/// Makes the line of the record that a node's disk represents.
#[tactic(auto, using(crate::proofs::Says::dump_says))]
pub fn dump_line(event: u32, node: Name, bytes: zb_base::List<u8>) -> Line
    ensures { (known : List Station) (n : ℕ) → IsCalled known n node.bytes
        → IsLineOf known result (model.Dump event n bytes) }
{
    Line::Dump { event, node, bytes }
}

/// Makes the line of the end.
#[tactic(auto, using(crate::proofs::Says::end_says))]
pub fn end_line(
    events: u32,
    seals: u32,
    accepts: u32,
    refusals: u32,
    ideal: bool,
    private: bool,
) -> Line
    ensures { (known : List Station)
        → IsLineOf known result (model.End events seals accepts refusals ideal private) }
{
    Line::End {
        events,
        seals,
        accepts,
        refusals,
        ideal,
        private,
    }
}
