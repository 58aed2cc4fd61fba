//! How a record and an entry are spelled after their gates.
ghost use Rattle.std.specs.Prelude.{◌≡◌, ◌≤◌, length, vec_capacity};
ghost use Rattle.zb_store.specs.Layout.{body, entry_body};
ghost use Rattle.zb_base.specs.Sizes.{record_room, payload_room};
ghost use Rattle.zb_store.specs.Sizes.{body_room};

use crate::commit::SHUT;

/// Spells a slot after its gate: generation, length, record, and a closed gate for the first entry.
#[tactic(auto, unfolding(crate::specs::Layout::body))]
pub(crate) fn spell_body(buffer: &mut Vec<u8>, generation: u64, content: &[u8])
    requires small { length content.now ≤ record_room }
    requires room { body_room ≤ vec_capacity buffer.old }
    ensures bytes { buffer.new.items ≡ body generation content.now }
    ensures room { vec_capacity buffer.old ≤ vec_capacity buffer.new }
{
    buffer.clear();
    buffer.extend_from_slice(&generation.to_le_bytes()).unwrap();
    buffer
        .extend_from_slice(&(content.len() as u32).to_le_bytes())
        .unwrap();
    buffer.extend_from_slice(content).unwrap();
    buffer.push_reserved(SHUT);
}

/// Spells an entry after its gate: length, payload, and a closed gate for the next entry.
#[tactic(auto, unfolding(crate::specs::Layout::entry_body))]
pub(crate) fn spell_entry(buffer: &mut Vec<u8>, payload: &[u8])
    requires small { length payload.now ≤ payload_room }
    requires room { body_room ≤ vec_capacity buffer.old }
    ensures bytes { buffer.new.items ≡ entry_body payload.now }
    ensures room { vec_capacity buffer.old ≤ vec_capacity buffer.new }
{
    buffer.clear();
    buffer
        .extend_from_slice(&(payload.len() as u16).to_le_bytes())
        .unwrap();
    buffer.extend_from_slice(payload).unwrap();
    buffer.push_reserved(SHUT);
}
