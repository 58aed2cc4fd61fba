//! The part of a core that is the same for every role.
ghost use Rattle.std.specs.Prelude.{◌≡◌, ◌≤◌, IfOk, IfErr, length, take};
ghost use Rattle.zb_base.specs.Config.{IsConfig};
ghost use Rattle.zb_core.specs.CorePlans.{CanBeCarriedOut, IsCoreAfter};
ghost use Rattle.zb_host.specs.Plans.{IsRestoreFault, gives};
ghost use Rattle.zb_model.specs.Answer.{answer};
ghost use Rattle.zb_model.specs.Data.{Task};
ghost use Rattle.zb_model.specs.Record.{record_of};
ghost use Rattle.zb_model_real.specs.Real.{real};
ghost use Rattle.zb_node_types.specs.Changes.{model_role};
ghost use Rattle.zb_plan.specs.Answers.{IsAnswer};
ghost use Rattle.zb_base.specs.Sizes.{payloads_room, record_room};
ghost use Rattle.zb_stored_tables.specs.Cores.{IsBooted, IsOfRole};
ghost use Rattle.zb_stored_tables.specs.Stored.{IsStorable, restored};

use crate::carrying::{carry_out, remember};
use std::alloc::Global;
use std::marker::Model;
use zb_base::{Config, OrMemory, Role};
use zb_host::{Outcome, Plan};
use zb_keys::Tables;
use zb_node_types::{KeyError, Refusal};
use zb_seal::{KeyMemo, Term};
use zb_setting::Network;
use zb_stored_tables::{StoredTables, hold_ranges};

/// What a node of any role has: its network, its tables, and the base keys that it used last.
///
/// A contract sees it as its setting and its tables. The base keys change no answer.
#[derive(Drop)]
pub struct NodeCore {
    network: Network,
    tables: StoredTables,
    memo: KeyMemo,
}

impl Model for NodeCore {
    ghost use Rattle.std.specs.Prelude.{◌≡◌};
    ghost use Rattle.zb_stored_tables.specs.Cores.{CoreValue};

    ghost Value = { CoreValue };

    ghost view = { λ c. record { setting = c.network; tables = c.tables } };

    ghost invariant = { λ c. c.tables.role ≡ c.network.me.role };
}

impl NodeCore {
    /// Restores a node of that role from a record and the payloads after it.
    ///
    /// The configuration must be of a node of that role, and there must be no more bytes than a store has.
    ///
    /// # Errors
    /// `BadRecord` at the place of the first fault, or at 1 if the record is of another role. `NoMemory` if memory
    /// runs out.
    pub fn restore(
        alloc: Global,
        role: Role,
        config: &Config,
        content: &[u8],
        payloads: &[u8],
    ) -> Result<NodeCore, OrMemory<KeyError>>
        requires config { IsConfig config.now }
        requires role { IsOfRole (model_role role) config.now }
        requires record_size { length content.now ≤ record_room }
        requires payloads_size { length payloads.now ≤ payloads_room }
        ensures core { IfOk result (λ c. restored (model_role role) content.now payloads.now
            ≡ gives (record_of c.tables)) }
        ensures booted { IfOk result (λ c. IsBooted (model_role role) config.now content.now payloads.now c) }
        ensures role { IfOk result (λ c. c.setting.me.role ≡ model_role role) }
        ensures fault { IfErr result (IsRestoreFault (restored (model_role role) content.now payloads.now)) }
    {
        let tables = StoredTables::restore(alloc, role, content, payloads)?;
        Ok(NodeCore {
            network: Network::new(alloc, config)?,
            tables,
            memo: KeyMemo::new(alloc),
        })
    }

    /// Returns what the node knows of its network.
    pub fn network(&self) -> &Network
        ensures { result.now ≡ self.now.setting }
    {
        &self.network
    }

    /// Returns the node's tables.
    pub fn tables(&self) -> &Tables
        ensures { result.now ≡ self.now.tables }
    {
        self.tables.tables()
    }

    /// Returns the base keys that were used last.
    pub fn memo(&self) -> &KeyMemo {
        &self.memo
    }

    /// States that a plan which is the policy's answer to some task can be stored. It does nothing.
    pub fn keep(&self, plan: &Plan<Outcome<Term, Refusal>>)
        ensures { (task : Task) → IsAnswer plan.now (answer real self.now.setting self.now.tables task)
            → IsStorable self.now.setting.me.role self.now.tables plan.now.changes.items }
    {
        self.tables.keep_rules();
        hold_ranges(&plan.changes);
        self.network.in_block();
    }

    /// Carries out a plan: makes its changes, keeps what it accepted, and counts what it sealed.
    ///
    /// The plan must be the policy's answer to some task, and it must be possible to store it.
    pub fn apply(&mut self, plan: &Plan<Outcome<Term, Refusal>>)
        requires { CanBeCarriedOut self.old plan.now }
        ensures { IsCoreAfter self.old plan.now self.new }
    {
        carry_out(&mut self.tables, plan);
        remember(&mut self.memo, &plan.out.accepted_nwk);
        remember(&mut self.memo, &plan.out.accepted_aps);
        remember(&mut self.memo, &plan.out.sealed_aps);
        remember(&mut self.memo, &plan.out.sealed_nwk);
    }

    /// Writes the record of the node's tables, and returns its length.
    ///
    /// `into` must have room for `RECORD_ROOM` bytes.
    pub fn record(&self, into: &mut [u8]) -> u32
        requires { record_room ≤ length into.old }
        ensures len { result ≡ length (record_of self.now.tables) }
        ensures small { result ≤ record_room }
        ensures bytes { take result into.new ≡ record_of self.now.tables }
    {
        self.tables.record(into)
    }
}
