//! What is true of every run of the network: laws about transcripts alone, for every schedule. Each law is the
//! contract of a function with an empty body; docs/THEOREMS.md says it in words.
#![tactic(auto)]

ghost use Rattle.std.specs.Prelude.{◌≡◌, ◌<◌, ◌≤◌, ◌+◌, ◌++◌, min, ℕ, true, false, List, Option, Some, [], ◌∷◌, fold};
ghost use Rattle.std.specs.List.{AllByRecursion};
ghost use Rattle.law_run.specs.CentreAlone.{OfEachNode};
ghost use Rattle.law_run.specs.Commanding.{OneCentre, ShowsKeys, SpellsConfirm};
ghost use Rattle.law_run.specs.Counting.{TakesNext};
ghost use Rattle.law_run.specs.KeysApart.{KeysApart};
ghost use Rattle.law_run.specs.Lockout.{KeepsRemovedOut, RefusesOutsiders};
ghost use Rattle.law_run.specs.Opening.{Opens};
ghost use Rattle.law_run.specs.Records.{FitsRecord, state_in};
ghost use Rattle.law_run.specs.Spent.{SpentLine, TakesAll};
ghost use Rattle.zb_model.specs.Claims.{Confirms, Each, Fresh, Lawful, Locked, Once};
ghost use Rattle.zb_model.specs.Answer.{Answer, answer, answered, floor_for, reserve_of, stored_floor};
ghost use Rattle.zb_model.specs.Data.{Edit, Task, Term, Layer};
ghost use Rattle.zb_model.specs.Fits.{fits, keys_differ};
ghost use Rattle.zb_model.specs.Lines.{Line, Boot};
ghost use Rattle.zb_model.specs.Play.{Schedule, group_of, stored_lines};
ghost use Rattle.zb_model.specs.Readings.{heard_line, state_of};
ghost use Rattle.zb_model.specs.Record.{record_of};
ghost use Rattle.zb_model.specs.Rules.{Sending, Setting};
ghost use Rattle.zb_model.specs.Schedules.{IsSchedule};
ghost use Rattle.zb_model.specs.Secrets.{ideal, private};
ghost use Rattle.zb_model.specs.State.{NodeState, after_boot, is_centre, applied_all, greatest_counter, next_counter, shown, stored_limit};
ghost use Rattle.zb_model.specs.Tools.{Tools};
ghost use Rattle.zb_model.specs.Transcript.{run_lines, transcript};

/// States that a node's state after more lines is its state before, changed by each of them in order.
pub fn reading_goes_on()
    ensures { (h g : List Line) (n : ℕ) → state_of (h ++ g) n ≡ fold (heard_line n) (state_of h n) g }
{}

/// States that the stored lines of an answer change the node's state by its changes.
///
/// These lines are the changes and their commit.
pub fn stored_changes_are_read_back()
    ensures { (h : List Line) (number n : ℕ) (a : Answer)
        → state_of (h ++ stored_lines number n a) n ≡ applied_all a.edits (state_of h n) }
{}

/// States that the whole group of an answer changes the node's state by that answer.
///
/// The answer's changes, accepted terms and seals are applied.
pub fn a_group_is_read_back()
    ensures { (h : List Line) (number n : ℕ) (a : Answer)
        → state_of (h ++ group_of h number n a) n ≡ answered a (state_of h n) }
{}

/// States that a transcript has the start lines, one answer for each event in order, and the end line.
///
/// A stop or failure of a disk may cut an answer short.
pub fn transcripts_are_lawful()
    ensures { (tools : Tools) (w : Schedule) → Lawful tools w (transcript tools w) }
{}

/// States that no node seals twice under one key and nonce.
///
/// This is true whatever frames the node is handed, however often it loses power, and whatever its disk keeps of a
/// commit that was cut.
pub fn no_nonce_comes_again()
    ensures { (tools : Tools) (w : Schedule) → IsSchedule w → Fresh tools (transcript tools w) }
{}

/// States that no node accepts a sender's counter twice under one key.
///
/// This is true whatever frames are repeated on the air, with resets and cut commits included. `Opens` says that a
/// frame which opens shows its base key, counter and source.
pub fn no_counter_is_taken_twice()
    ensures { (tools : Tools) → Opens tools → (w : Schedule) → IsSchedule w → Once (transcript tools w) }
{}

/// States that only stored keys are confirmed.
///
/// - Each Confirm-Key that a node seals for a device is the centre's.
/// - It is sealed under a key that the centre stored before, by a commit, as the device's verified one.
/// - Nothing has unsettled that key since.
///
/// `OneCentre` is about the schedule: it declares one centre. `SpellsConfirm` is about the spelling: no other command
/// reads as a Confirm-Key.
pub fn only_stored_keys_are_confirmed()
    ensures { (tools : Tools) → Opens tools → SpellsConfirm tools → (w : Schedule) → IsSchedule w → OneCentre w
        → Confirms tools (transcript tools w) }
{}

/// States that outsiders are refused, if the end line says that forgery was private.
///
/// After a device was removed, and until it is admitted again, a node accepts at NWK neither a term that the device
/// sealed since then nor one that was forged. This applies to each node none of whose live network keys is known
/// outside.
pub fn outsiders_are_refused()
    ensures { (tools : Tools) → Opens tools → (w : Schedule) → IsSchedule w → private tools (run_lines tools w) ≡ true
        → RefusesOutsiders tools [] (transcript tools w) }
{}

/// States that a removed device obtains no later key, if the end line says `yes yes`.
///
/// The two words say that the run was ideal and forgery private. Until the device is admitted again, it obtains no
/// key that is drawn after its removal:
/// - None of these keys is installed at the device.
/// - None can be opened in what was sealed or forged, by somebody who holds the well-known key and all keys that the
///   device ever held.
///
/// `KeysApart` is about the schedule: its keys are different keys. `ShowsKeys` is about the frames: if a node's own
/// frame shows a key, it is the key of the command in that frame.
pub fn a_removed_device_obtains_no_later_key()
    ensures { (tools : Tools) → Opens tools → ShowsKeys tools → (w : Schedule) → IsSchedule w → OneCentre w
        → KeysApart w
        → ideal tools (run_lines tools w) ≡ true → private tools (run_lines tools w) ≡ true
        → KeepsRemovedOut tools [] (transcript tools w) }
{}

/// States that removed devices are locked out, if the end line says `yes yes`.
///
/// Both halves of lockout are true, after each removal and up to the next admission.
pub fn removed_devices_are_locked_out()
    ensures { (tools : Tools) → Opens tools → ShowsKeys tools → (w : Schedule) → IsSchedule w → OneCentre w
        → KeysApart w
        → ideal tools (run_lines tools w) ≡ true → private tools (run_lines tools w) ≡ true
        → Locked tools (transcript tools w) }
{}

/// States that each seal of a run uses the next counter.
///
/// Its source is its node's EUI. Under a network key the counter is that of the key's row, and at APS the node's. The
/// greatest counter is never used.
pub fn each_seal_takes_the_next_counter()
    ensures { (tools : Tools) (w : Schedule) → IsSchedule w → Each TakesNext [] (transcript tools w) }
{}

/// States that no counter is skipped without a boot.
///
/// A seal moves the next counter of its node, at APS or under its network key, by one. Only three other lines move a
/// next counter:
/// - a boot
/// - the first counter of a key
/// - a limit at the start
pub fn no_counter_is_skipped_without_a_boot()
    ensures { (tools : Tools) (w : Schedule) → IsSchedule w → Each TakesAll [] (transcript tools w) }
{}

/// States that a node that answers counter-spent is at the greatest counter at one of the layers.
///
/// That counter is 2^32 - 1.
pub fn who_has_spent_its_counters_stands_at_the_end()
    ensures { (tools : Tools) (w : Schedule) → IsSchedule w → Each SpentLine [] (transcript tools w) }
{}

/// States that a reserved limit is one outgoing block ahead of the counter, or the greatest counter.
///
/// It is reserved only if the next counter has reached the stored limit.
pub fn a_reserve_is_one_block()
    ensures { (c : Setting) (s : NodeState) (send : Option Sending) (layer : Layer) (v : ℕ)
        → reserve_of c s send layer ≡ Some v
        → (next_counter layer s ≡ stored_limit layer s)
        × (v ≡ min (next_counter layer s + c.me.out_block) greatest_counter) }
{}

/// States that a stored floor is one incoming block above the accepted counter, or the greatest counter.
///
/// It is stored only if the accepted counter isn't below the floor that was stored before.
pub fn a_floor_is_one_block()
    ensures { (c : Setting) (s : NodeState) (t : Term) (v : ℕ) → floor_for c s t ≡ Some v
        → (stored_floor t s ≤ t.counter) × (v ≡ min (t.counter + c.me.in_block) greatest_counter) }
{}

/// States that the centre alone makes the changes whose lines name no node.
///
/// It alone draws keys, makes pairs, begins or ends a rollover, and notes that a device is live, removed, told or
/// untold. The answer of any other node has no such change, so lines of these kinds are the centre's.
pub fn the_centre_alone_draws_and_admits()
    ensures { (tools : Tools) → Opens tools → (c : Setting) (s : NodeState) (task : Task)
        → is_centre c.me.role ≡ false
        → AllByRecursion OfEachNode (answer tools c s task).edits }
{}

/// States that the record of a state is read back as that state after a boot.
///
/// Counters continue from their limits, floors are the stored ones, and a dropped network key has none. The state's
/// keys have 16 bytes, its numbers fit their fields, and its active key has a row.
pub fn a_record_is_read_back()
    ensures { (s : NodeState) → FitsRecord s → state_in (record_of s) ≡ Some (shown (after_boot s)) }
{}

/// States that a boot gives a node the state that its record says.
///
/// The record is that of its state before, which fits the fields of a record (`FitsRecord`).
pub fn a_boot_reads_the_record()
    ensures { (h : List Line) (e n : ℕ) → FitsRecord (state_of h n)
        → state_in (record_of (state_of h n)) ≡ Some (shown (state_of (h ++ Boot e n ∷ []) n)) }
{}

/// States that the stored state after changes depends only on the stored state before and on the changes.
///
/// Counters and floors in memory affect neither the result nor whether a change fits.
pub fn changes_keep_to_what_is_stored()
    ensures made { (es : List Edit) (s : NodeState)
        → after_boot (applied_all es (after_boot s)) ≡ after_boot (applied_all es s) }
    ensures fit { (e : Edit) (s : NodeState) → fits e (after_boot s) ≡ fits e s }
{}

/// States that bytes which are read as a state are the record of that state.
///
/// This is true if the keys of the state differ. A boot leaves the state as it is.
pub fn what_is_read_has_these_bytes_as_its_record()
    ensures { (bytes : List ℕ) (s : NodeState) → AllByRecursion (λ b. b < 256) bytes → state_in bytes ≡ Some s
        → keys_differ s ≡ true
        → (record_of s ≡ bytes) × (shown (after_boot s) ≡ s) }
{}
