//! The tables of a node.
use crate::contents::Contents;
use std::alloc::Global;
use std::marker::Model;
use zb_base::{NoMemory, Role, Rollover, State};
use zb_node_types::Changes;
use zb_record::link_row::link_room;

/// What a node keeps: its network keys with their floors, its link keys and its counters.
///
/// At the centre it holds the keys of pairs of devices too. All room is taken when the tables are made.
#[derive(Debug, Drop)]
pub struct Tables {
    pub(crate) contents: Contents,
}

impl Model for Tables {
    ghost use Rattle.zb_model.specs.State.{NodeState};

    ghost Value = { NodeState };

    ghost use Rattle.zb_keys.specs.Tables.{state_of, IsSound};

    ghost view = { λ t. state_of t.contents };

    ghost invariant = { λ t. IsSound t.contents };
}

impl Tables {
    ghost use Rattle.std.specs.Prelude.{◌≡◌, true, map, IfOk};
    ghost use Rattle.zb_node_types.specs.Changes.{model_role, model_state, is_sending, edits};
    ghost use Rattle.zb_model.specs.State.{new_node, shown, applied_all};
    ghost use Rattle.zb_model.specs.Fits.{AllFit, keeps_rules};
    ghost use Rattle.zb_keys.specs.Tables.{Forgets};

    /// Makes the tables of a new node, which hold nothing.
    ///
    /// They have room for 256 network keys with 64 floors each, 256 pairs, and 1,024 link keys in the centre or 64 in
    /// another node.
    ///
    /// # Errors
    /// `NoMemory` where memory is short.
    pub fn new(alloc: Global, role: Role) -> Result<Tables, NoMemory>
        ensures { IfOk result (λ t. t ≡ new_node (model_role role)) }
    {
        let nets = Vec::with_capacity(alloc, 256)?;
        let links = Vec::with_capacity(alloc, link_room(role))?;
        let pairs = Vec::with_capacity(alloc, 256)?;
        let contents = Contents {
            role,
            state: State::Fresh,
            declared: 0,
            aps_limit: 0,
            aps_next: 0,
            rolling: Rollover::Idle,
            nets,
            active: None,
            links,
            pairs,
        };
        Ok(Tables { contents })
    }

    /// States what holds of all tables, and does nothing.
    ///
    /// They keep the rules for records, and a dropped network key keeps no floors.
    pub fn keep_rules(&self)
        ensures rules { keeps_rules self.now ≡ true }
        ensures forgets { shown self.now ≡ self.now }
    {
        let _contents = &self.contents;
    }

    /// Makes changes in their order.
    ///
    /// Requires changes that fit. The floors of a dropped network key are forgotten.
    pub fn apply(&mut self, changes: &Changes)
        requires { AllFit (edits changes.now.items) self.old }
        ensures { self.new ≡ shown (applied_all (edits changes.now.items) self.old) }
    {
        for change in changes.as_slice() {
            self.contents.change(change);
        }
    }
}
