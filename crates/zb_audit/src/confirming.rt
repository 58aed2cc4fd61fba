//! The third claim: only stored keys are confirmed.
ghost use Rattle.std.specs.Prelude.{◌≡◌, ◌+◌, ◌≤◌, ◌++◌, ◌∷◌, [], ◌||◌, ◌&&◌, ℕ, List, OnOk, Some, None, length, if◌then◌else◌};
ghost use Rattle.std.specs.Option.{option_or};
ghost use Rattle.zb_audit.specs.Confirming.{confirmed as confirmed_by, confirmed_in as confirmed_bytes, is_kept, is_row};
ghost use Rattle.zb_audit.specs.Standing.{AreConfirmed, row_state, stands_in, verified as verified_in, verified_at};
ghost use Rattle.zb_cmd.specs.Reading.{command_of};
ghost use Rattle.zb_audit_names.specs.Naming.{declared_in};
ghost use Rattle.zb_audit_names.specs.Standing.{IsSpeaker};
ghost use Rattle.zb_model.specs.Data.{Bytes};
ghost use Rattle.zb_trace.specs.declared.line.Line.{Line as AnyLine};
ghost use Rattle.zb_seal.specs.Carrying.{is_command_header};
ghost use Rattle.zb_base.specs.Limits.{longest_frame};

use crate::numbers::first_bad;
use std::alloc::Global;
use std::collections::BTreeMap;
use zb_audit_names::Who;
use zb_base::{Attribute, Eui, Key, Layer, NoMemory};
use zb_cmd::{Command, read_command};
use zb_seal::{Term, is_command};
use zb_trace::Line;

/// A link row of the centre.
#[derive(Clone, Copy, Drop, PartialEq, Eq, PartialOrd, Ord)]
pub struct LinkRow {
    /// The partner.
    pub partner: Eui,
    /// The link key.
    pub key: Key,
}

/// The centre's verified link rows, and whether they are stored.
#[derive(Drop)]
pub struct Confirming {
    /// For each verified row, the number of the line that made it verified.
    pub verified: BTreeMap<LinkRow, u32>,
    /// The number of the centre's last commit. What was verified before it is stored.
    pub committed: u32,
    /// The number of the first line that confirmed a key that isn't stored as verified.
    pub first: Option<u32>,
}

impl Confirming {
    /// Makes the state before the first line.
    pub fn new(alloc: Global) -> Confirming
        ensures { AreConfirmed result [] }
    {
        Confirming {
            verified: BTreeMap::new(alloc),
            committed: 0,
            first: None,
        }
    }

    /// Processes one line of node `who`.
    ///
    /// # Errors
    /// `NoMemory`, if memory runs out.
    pub fn line(&mut self, number: u32, line: &Line, who: Who) -> Result<(), NoMemory>
        ensures { OnOk result ((names : List Bytes) (h : List AnyLine) → number ≡ length h + 1
            → IsSpeaker who names (declared_in h) line.now → AreConfirmed self.old h
            → AreConfirmed self.new (h ++ line.now ∷ [])) }
    {
        match line {
            Line::Row {
                partner,
                key,
                attribute,
                ..
            } => {
                self.row(number, who.is_centre, *partner, *key, *attribute)?;
                Ok(())
            }
            Line::DropLink { partner, key, .. } => {
                self.unsettle(who.is_centre, *partner, *key);
                Ok(())
            }
            Line::Commit { .. } => {
                self.commit(number, who.is_centre);
                Ok(())
            }
            Line::Seal { term, .. } => {
                self.seal(number, term, who.is_centre);
                Ok(())
            }
            _ => Ok(()),
        }
    }

    fn row(
        &mut self,
        number: u32,
        is_centre: bool,
        partner: Eui,
        key: Key,
        attribute: Attribute,
    ) -> Result<(), NoMemory>
        ensures rows { OnOk result ((p : ℕ) (k : Bytes) → verified_in self.new p k
            ≡ (if is_centre && is_row p k partner.0 key.0 then verified_at number attribute (verified_in self.old p k)
            else verified_in self.old p k)) }
        ensures committed { OnOk result (self.new.committed ≡ self.old.committed) }
        ensures first { OnOk result (self.new.first ≡ self.old.first) }
    {
        match attribute {
            Attribute::Verified => self.verify(number, is_centre, partner, key),
            Attribute::Unverified => {
                self.unsettle(is_centre, partner, key);
                Ok(())
            }
            Attribute::Provisional => {
                self.unsettle(is_centre, partner, key);
                Ok(())
            }
        }
    }

    fn verify(
        &mut self,
        number: u32,
        is_centre: bool,
        partner: Eui,
        key: Key,
    ) -> Result<(), NoMemory>
        ensures rows { OnOk result ((p : ℕ) (k : Bytes) → verified_in self.new p k
            ≡ (if is_centre && is_row p k partner.0 key.0 then option_or (verified_in self.old p k) (Some number)
            else verified_in self.old p k)) }
        ensures committed { OnOk result (self.new.committed ≡ self.old.committed) }
        ensures first { OnOk result (self.new.first ≡ self.old.first) }
    {
        let row = LinkRow { partner, key };
        if is_centre && !self.verified.contains_key(&row) {
            self.verified.insert(row, number)?;
        }
        Ok(())
    }

    fn unsettle(&mut self, is_centre: bool, partner: Eui, key: Key)
        ensures rows { (p : ℕ) (k : Bytes) → verified_in self.new p k
            ≡ (if is_centre && is_row p k partner.0 key.0 then None else verified_in self.old p k) }
        ensures committed { self.new.committed ≡ self.old.committed }
        ensures first { self.new.first ≡ self.old.first }
    {
        if is_centre {
            self.verified.remove(&LinkRow { partner, key });
        }
    }

    fn commit(&mut self, number: u32, is_centre: bool)
        ensures { self.new ≡ record self.old { committed = if is_centre then number else self.old.committed } }
    {
        if is_centre {
            self.committed = number;
        }
    }

    fn seal(&mut self, number: u32, term: &Term, is_centre: bool)
        ensures rows { self.new.verified ≡ self.old.verified }
        ensures committed { self.new.committed ≡ self.old.committed }
        ensures first { self.new.first ≡ option_or self.old.first (if stands_in self.old is_centre term.now.base.0
            (confirmed_by term.now) then None else Some number) }
    {
        let stands = self.stands(term, is_centre);
        self.first = first_bad(self.first, stands, number);
    }

    /// Returns whether a term confirms no key, or the centre sealed it and has stored the key as verified.
    fn stands(&self, term: &Term, is_centre: bool) -> bool
        ensures { result ≡ stands_in self.now is_centre term.now.base.0 (confirmed_by term.now) }
    {
        match confirmed(term) {
            Some(device) => is_centre && self.is_stored(device, term.base),
            None => true,
        }
    }

    fn is_stored(&self, partner: Eui, key: Key) -> bool
        ensures { result ≡ is_kept (row_state self.now.committed (verified_in self.now partner.0 key.0)) }
    {
        match self.verified.get(&LinkRow { partner, key }) {
            Some(made) => *made < self.committed,
            None => false,
        }
    }
}

/// Returns the device whose key a term confirms, if any. The content is then a Confirm-Key of status 00 (05-3474-21,
/// 4.4.10.8), sealed as an APS command.
#[tactic(auto, unfolding(crate::specs::Confirming::confirmed))]
fn confirmed(term: &Term) -> Option<Eui>
    ensures { result ≡ confirmed_by term.now }
{
    match term.layer {
        Layer::Aps => {
            if is_command_header(term.header.as_slice()) {
                confirmed_in(term.content.as_slice())
            } else {
                None
            }
        }
        Layer::Nwk => None,
    }
}

fn is_command_header(header: &[u8]) -> bool
    ensures { result ≡ is_command_header header.now }
{
    match header {
        [] => false,
        [control, ..] => is_command(u16::from(*control)),
    }
}

fn confirmed_in(bytes: &[u8]) -> Option<Eui>
    requires { length bytes.now ≤ longest_frame }
    ensures { result ≡ confirmed_bytes (command_of bytes.now) }
{
    match read_command(bytes) {
        Ok(
            Command::Confirm {
                status,
                destination,
                ..
            },
        ) => { if status == 0 { Some(destination) } else { None } }
        _ => None,
    }
}
