//! Laws of entries and records: what is written is read back. Each function here states laws and has an empty body.
ghost use Rattle.std.specs.Prelude.{◌≡◌, ℕ, List, [], ◌++◌, ◌≢◌, Ok, Some, true};
ghost use Rattle.std.specs.List.{AllByRecursion};
ghost use Rattle.zb_node_types.specs.Changes.{edits};
ghost use Rattle.zb_node_types.specs.declared.change.Change.{Change};
ghost use Rattle.zb_model.specs.Fits.{AllFit, keeps_rules};
ghost use Rattle.zb_model.specs.Record.{payload, record_of};
ghost use Rattle.zb_model.specs.State.{NodeState, after_boot, applied_all, shown};
ghost use Rattle.zb_record.specs.Ranges.{FitsBytes, InRange};
ghost use Rattle.zb_record.specs.Records.{record_read};
ghost use Rattle.zb_record.specs.Fields.{record_version};
ghost use Rattle.zb_record.specs.Redoing.{redone, HasOneLimit};
ghost use Rattle.zb_record.specs.declared.version.Version.{Version};
ghost use Rattle.zb_record.specs.declared.version.Version.TheVariants.{First};

/// States that the payload of changes that fit applies them when it is read.
///
/// This holds after any payloads that led to the state that the changes fit. The record has a later version than the
/// first.
pub fn written_changes_are_made_again()
    ensures { (v : Version) (q : List ℕ) (cs : List Change) (s t : NodeState) → v ≢ First → keeps_rules t ≡ true
        → shown t ≡ t → AllByRecursion InRange cs → AllFit (edits cs) t
        → redone v q s ≡ (t, Ok [])
        → redone v (q ++ payload (edits cs)) s ≡ (shown (applied_all (edits cs) t), Ok []) }
{}

/// States that what is read from a record keeps the rules for records, and no floors of dropped network keys.
pub fn what_is_read_keeps_the_rules()
    ensures rules { (bytes : List ℕ) (s : NodeState) → record_read bytes ≡ Ok s → keeps_rules s ≡ true }
    ensures forgets { (bytes : List ℕ) (s : NodeState) → record_read bytes ≡ Ok s → shown s ≡ s }
{}

/// States that the record of a state is read as that state after a boot.
///
/// Counters continue from their limits, and floors are the stored ones.
#[tactic(auto, using(crate::proofs::WholeAgain::record_again))]
pub fn a_written_record_is_read()
    ensures { (s : NodeState) → keeps_rules s ≡ true → FitsBytes s
        → record_read (record_of s) ≡ Ok (shown (after_boot s)) }
{}

/// States that a record of version 1 has one limit, and that the entries after it keep a single limit.
///
/// Each network key is started, and continues from the declared start.
pub fn a_first_version_has_one_limit()
    ensures read { (bytes : List ℕ) (s : NodeState) → record_version bytes ≡ Some First → record_read bytes ≡ Ok s
        → HasOneLimit s }
    ensures redone { (q : List ℕ) (s : NodeState) → HasOneLimit s → HasOneLimit (redone First q s).0 }
{}
