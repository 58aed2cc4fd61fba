//! Laws of tables on a disk. Each function here says laws and does nothing.
ghost use Rattle.std.specs.Prelude.{◌≡◌, ◌≢◌, ◌<◌, ◌≤◌, ◌++◌, ℕ, List, [], length, get_or, min, max, Ok, Some, true};
ghost use Rattle.std.specs.List.{AllByRecursion};
ghost use Rattle.zb_node_types.specs.declared.change.Change.{Change};
ghost use Rattle.zb_node_types.specs.Changes.{edit, edits};
ghost use Rattle.zb_host.specs.Plans.{gives};
ghost use Rattle.zb_model.specs.Answer.{Answer, answered};
ghost use Rattle.zb_model.specs.Data.{Bytes, Role, Layer, Reserve, Term};
ghost use Rattle.zb_model.specs.Fits.{fits, keeps_rules};
ghost use Rattle.zb_model.specs.Record.{payload, record_of};
ghost use Rattle.zb_model.specs.State.{NodeState, after_boot, applied, after_accepting, after_counting, after_hearing, after_sealing, greatest_counter, next_counter, shown, stored_limit};
ghost use Rattle.zb_record.specs.declared.version.Version.TheVariants.{Third};
ghost use Rattle.zb_record.specs.Changes.{change_at};
ghost use Rattle.zb_record.specs.Fields.{record_version};
ghost use Rattle.zb_record.specs.Ranges.{FitsBytes, InRange};
ghost use Rattle.zb_base.specs.Sizes.{payload_room};
ghost use Rattle.zb_record.specs.Records.{record_read};
ghost use Rattle.zb_stored_tables.specs.Cores.{CoreValue, IsValueAfter};
ghost use Rattle.zb_stored_tables.specs.Stored.{state_given, restored, IsKept, IsStorable, IsStoredAfter, MayReserve};

/// States that what is read from the bytes of a record has values within its widths.
#[tactic(auto, using(crate::proofs::Widths::read_fits))]
pub fn what_is_read_fits_a_record()
    ensures { (bytes : List ℕ) (s : NodeState) → AllByRecursion (λ b. b < 256) bytes → record_read bytes ≡ Ok s
        → FitsBytes s }
{}

/// States that bytes of version 3 that are read as a state are its record.
///
/// So what is read is a record, and nothing else is.
pub fn what_is_read_has_these_bytes_as_its_record()
    ensures { (bytes : List ℕ) (s : NodeState) → AllByRecursion (λ b. b < 256) bytes
        → record_version bytes ≡ Some Third → record_read bytes ≡ Ok s → record_of s ≡ bytes }
{}

/// States that a change read from the bytes of an entry has values that can be spelled again.
pub fn what_is_read_is_in_range()
    ensures { (cut : ℕ) (bytes rest : List ℕ) (c : Change) → AllByRecursion (λ b. b < 256) bytes
        → change_at cut bytes ≡ Ok (c, rest) → InRange c }
{}

/// States that a change of values that can be spelled leaves values within the widths of a record.
#[tactic(auto, using(crate::proofs::Made::made_fits))]
pub fn changes_keep_to_the_widths()
    ensures { (c : Change) (s : NodeState) → InRange c → FitsBytes s → FitsBytes (applied (edit c) s) }
{}

/// States what the state keeps that a record and the entries after it give.
///
/// It keeps the rules for records, the widths of a record and no floors of dropped network keys, and is of the role
/// that was asked for.
pub fn what_bytes_give_is_kept()
    ensures { (role : Role) (content entries : List ℕ) (s : NodeState) → AllByRecursion (λ b. b < 256) content
        → AllByRecursion (λ b. b < 256) entries
        → state_given role content entries ≡ Ok s → IsKept s × (s.role ≡ role) }
{}

/// States that a record has nothing that is in memory alone.
///
/// That is what a boot sets back, and the floors of dropped network keys. Seals and accepted frames change only what a
/// boot sets back.
pub fn what_is_in_memory_alone_is_not_recorded()
    ensures boots { (s : NodeState) → record_of (after_boot s) ≡ record_of s }
    ensures forgets { (s : NodeState) → record_of (shown s) ≡ record_of s }
    ensures seals { (layer : Layer) (s : NodeState) → after_boot (after_counting layer s) ≡ after_boot s }
    ensures sealed { (t : Term) (s : NodeState) → after_boot (after_sealing t s) ≡ after_boot s }
    ensures accepted { (t : Term) (s : NodeState) → after_boot (after_accepting t s) ≡ after_boot s }
    ensures hears { (layer : Layer) (key : Bytes) (sender counter : ℕ) (s : NodeState)
        → after_boot (after_hearing layer key sender counter s) ≡ after_boot s }
{}

/// States that every core over tables keeps the law of cores.
///
/// `s` are the tables before a plan and `t` those after it. An entry after a record that isn't of the first version
/// leads from the record before to the one after. The record alone gives itself again, and isn't of the first version.
/// A plan without changes leaves it.
pub fn a_core_over_tables_keeps_the_law()
    ensures adds { (role : Role) (s t : NodeState) (cs : List Change) (r q : List ℕ) → IsStorable role s cs
        → IsStoredAfter cs s t → get_or r 0 0 ≢ 1
        → restored role r q ≡ gives (record_of s) → restored role r (q ++ payload (edits cs)) ≡ gives (record_of t) }
    ensures keeps { (role : Role) (s t : NodeState) (cs : List Change) → IsStorable role s cs → IsStoredAfter cs s t
        → restored role (record_of t) [] ≡ gives (record_of t) }
    ensures newest { (s : NodeState) → get_or (record_of s) 0 0 ≢ 1 }
    ensures idle { (s t : NodeState) → shown s ≡ s → IsStoredAfter [] s t → record_of t ≡ record_of s }
{}

/// States that the value of the cores of all roles, a setting and tables, keeps the law of cores.
///
/// `c` is the core before an event, and `d` the one after its changes, accepted terms and seals. It also says that
/// these are the tables that are shown after the event's answer, where they are those of the answer.
pub fn a_core_of_setting_and_tables_keeps_the_law()
    ensures adds { (role : Role) (changes : List Change) (accepts seals : List Term) (c d : CoreValue) (r q : List ℕ)
        → IsStorable role c.tables changes → IsValueAfter changes accepts seals c d → get_or r 0 0 ≢ 1
        → restored role r q ≡ gives (record_of c.tables)
        → restored role r (q ++ payload (edits changes)) ≡ gives (record_of d.tables) }
    ensures keeps { (role : Role) (changes : List Change) (accepts seals : List Term) (c d : CoreValue)
        → IsStorable role c.tables changes → IsValueAfter changes accepts seals c d
        → restored role (record_of d.tables) [] ≡ gives (record_of d.tables) }
    ensures newest { (c : CoreValue) → get_or (record_of c.tables) 0 0 ≢ 1 }
    ensures idle { (role : Role) (changes : List Change) (accepts seals : List Term) (c d : CoreValue)
        → IsStorable role c.tables changes → IsValueAfter changes accepts seals c d → changes ≡ []
        → record_of d.tables ≡ record_of c.tables }
    ensures leads { (changes : List Change) (accepts seals : List Term) (a : Answer) (c d : CoreValue)
        → edits changes ≡ a.edits → accepts ≡ a.accepts → seals ≡ a.seals → IsValueAfter changes accepts seals c d
        → d ≡ record { setting = c.setting; tables = shown (answered a c.tables) } }
{}

/// States that what is stored after a plan gives the tables after it again.
///
/// A node boots with them as a boot leaves them.
pub fn a_boot_gives_the_tables_again()
    ensures adds { (role : Role) (s t : NodeState) (cs : List Change) (r q : List ℕ) → IsStorable role s cs
        → IsStoredAfter cs s t → get_or r 0 0 ≢ 1
        → state_given role r q ≡ Ok (after_boot s) → state_given role r (q ++ payload (edits cs)) ≡ Ok (after_boot t) }
    ensures keeps { (role : Role) (s t : NodeState) (cs : List Change) → IsStorable role s cs → IsStoredAfter cs s t
        → state_given role (record_of t) [] ≡ Ok (after_boot t) }
{}

/// States that at most 14 changes of values that can be spelled have room in an entry.
#[tactic(auto, using(crate::proofs::Short::few_short))]
pub fn few_changes_fit_an_entry()
    ensures { (cs : List Change) → AllByRecursion InRange cs → length cs ≤ 14
        → length (payload (edits cs)) ≤ payload_room }
{}

/// States that a reserve fits where its limit isn't below the stored one, and makes room.
///
/// At NWK there is an active network key. The next counter stays, and the stored limit becomes the new one.
pub fn a_reserve_makes_room()
    ensures fit { (layer : Layer) (limit : ℕ) (s : NodeState) → keeps_rules s ≡ true → MayReserve layer s
        → stored_limit layer s ≤ limit → fits (Reserve layer limit) s ≡ true }
    ensures next { (layer : Layer) (limit : ℕ) (s : NodeState)
        → next_counter layer (shown (applied (Reserve layer limit) s)) ≡ next_counter layer s }
    ensures limit { (layer : Layer) (limit : ℕ) (s : NodeState) → MayReserve layer s
        → stored_limit layer (shown (applied (Reserve layer limit) s))
        ≡ max (stored_limit layer s) (min limit greatest_counter) }
{}
