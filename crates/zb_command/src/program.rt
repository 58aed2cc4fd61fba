//! The top call: one command over a source and a sink.
ghost use Rattle.std.specs.Prelude.{◌≡◌, ◌≢◌, ◌⊎◌, ℕ, Some, None, IfSome, IsTrue, map, string_bytes};
ghost use Rattle.std.specs.Io.KnownBytes.{IsAtEnd};
ghost use Rattle.zb_admin.specs.Serving.{outside};
ghost use Rattle.zb_base.specs.Outside.{Rose, Unrisen};
ghost use Rattle.zb_command.specs.Answers.{Answer, Refuses, Exceeds, status_of, wanted};
ghost use Rattle.zb_command.specs.Auditing.{Audits};
ghost use Rattle.zb_command.specs.Commands.{Invocation, Auditing, Playing, Making, Serving, invocation_of};
ghost use Rattle.zb_command.specs.Finishing.{Finishes};
ghost use Rattle.zb_input.specs.Inputs.{TakesAtMost};
ghost use Rattle.zb_command.specs.Outcomes.{IsWritten, Made, Played, ReadsToEnd, WritesFront, WritesNothing};
ghost use Rattle.zb_command.specs.Serving.{Serviced};
ghost use Rattle.zb_command.specs.Settled.{AdminGives, AuditGives};
ghost use Rattle.zb_command.specs.Words.{invocation, Fits};
ghost use Rattle.zb_command.specs.declared.status.Cause.{Cause};
ghost use Rattle.zb_base.specs.Limits.{first_too_long, longest_input};

use crate::admin::serve_input;
use crate::audit::audit_input;
use crate::campaign::write_campaign;
use crate::command::{Command, read_words};
use crate::inspect::inspect_input;
use crate::install::install_code;
use crate::make::make_schedule;
use crate::play::play_input;
use crate::sniff::sniff_input;
use crate::status::Status;
use std::alloc::Global;
use std::thread::Threads;
use zb_base::{Sink, Source};
use zb_disk::Disk;

/// Runs the command that the words after the program's name are. `admin` alone uses the store.
pub fn run<T: Threads + Sync, R: Source, W: Sink, D: Disk>(
    rt: &T,
    alloc: Global,
    words: &[String],
    input: &mut R,
    output: &mut W,
    store: &mut D,
) -> Status
    // `Usage` comes exactly where the words are no command.
    ensures usage { result ≡ Status.Usage → invocation_of (map string_bytes words.now) ≡ None }
    ensures no_command { invocation_of (map string_bytes words.now) ≡ None → result ≡ Status.Usage }
    // Each command ends as it may, whatever its source tells: no status but its own comes.
    ensures ends { (job : Invocation) → invocation_of (map string_bytes words.now) ≡ Some job
        → Finishes job result (R.rest input.old) (W.taken output.old) (W.taken output.new) (W.faults output.old)
        (W.faults output.new) }
    // At Ok the output that is wanted of the command was written, and its input was read to its end.
    ensures done { (job : Invocation) → invocation_of (map string_bytes words.now) ≡ Some job → result ≡ Status.Ok
        → IfSome (wanted job (R.rest input.old))
        (λ answer. IsWritten answer (W.taken output.old) (W.taken output.new)) }
    ensures end { (job : Invocation) → invocation_of (map string_bytes words.now) ≡ Some job → result ≡ Status.Ok
        → ReadsToEnd job (R.rest input.new) }
    // It takes no more of the input than one byte past the longest.
    ensures few { TakesAtMost (R.rest input.old) (R.rest input.new) first_too_long }
    // What `play` wrote is a lawful run of the schedule that its input is.
    ensures played { invocation_of (map string_bytes words.now) ≡ Some Playing → result ≡ Status.Ok
        → IfSome (R.rest input.old) (λ bytes. Played bytes (W.taken output.old) (W.taken output.new)) }
    // What `make` wrote is the made schedule, and reads as that.
    ensures made { (count : ℕ) → invocation_of (map string_bytes words.now) ≡ Some (Making count) → result ≡ Status.Ok
        → Made count (W.taken output.old) (W.taken output.new) }
    // What `audit` wrote is the verdict on the lines that its input is the text of, and none of them is bad. Else the
    // status has the first bad line, or the first that is no text of a line.
    ensures audited { invocation_of (map string_bytes words.now) ≡ Some Auditing → Audits result (R.rest input.old)
        (W.taken output.old) (W.taken output.new) (W.faults output.old) (W.faults output.new) }
    // `admin` served the script that its input is over the store, so far as the status says; other commands leave it.
    ensures served { invocation_of (map string_bytes words.now) ≡ Some Serving
        → Serviced (outside D.tells D.state W.taken W.faults) result (R.rest input.old) store.old output.old
        store.new output.new }
    ensures store { (invocation_of (map string_bytes words.now) ≡ Some Serving → ⊥) → store.new ≡ store.old }
    // The cause of each other answer.
    ensures read_fault { result ≡ Status.ReadFault → Rose (R.faults input.old) (R.faults input.new) }
    ensures write_fault { result ≡ Status.WriteFault → Rose (W.faults output.old) (W.faults output.new) }
    // A fault of the source, of the sink or of the store is reported as nothing else.
    ensures no_read_fault { result ≢ Status.ReadFault → Unrisen (R.faults input.old) (R.faults input.new) }
    ensures no_write_fault { result ≢ Status.WriteFault → Unrisen (W.faults output.old) (W.faults output.new) }
    ensures no_store_fault { result ≢ Status.DiskFault
        → Unrisen (D.state store.old).faults (D.state store.new).faults }
    ensures refused { (job : Invocation) (line : ℕ) (cause : Cause)
        → invocation_of (map string_bytes words.now) ≡ Some job → result ≡ Status.Refused line cause
        → IfSome (wanted job (R.rest input.old)) (λ answer. answer ≡ Refuses line cause) }
    ensures too_long { (job : Invocation) (limit : ℕ)
        → invocation_of (map string_bytes words.now) ≡ Some job → result ≡ Status.TooLong limit
        → (limit ≡ longest_input) × IfSome (wanted job (R.rest input.old)) (λ answer. answer ≡ Exceeds) }
    // What was written at these.
    ensures nothing { WritesNothing result (W.taken output.old) (W.taken output.new) }
    ensures front { (job : Invocation) → invocation_of (map string_bytes words.now) ≡ Some job
        → IfSome (wanted job (R.rest input.old))
        (λ answer. WritesFront result answer (W.taken output.old) (W.taken output.new)) }
    // Where neither the source nor the sink fails, only the status of the answer comes, or out of memory.
    ensures complete { (job : Invocation) (answer : Answer)
        → invocation_of (map string_bytes words.now) ≡ Some job → wanted job (R.rest input.old) ≡ Some answer
        → (Rose (R.faults input.old) (R.faults input.new) → ⊥) → (Rose (W.faults output.old) (W.faults output.new) → ⊥)
        → (result ≡ status_of answer) ⊎ (result ≡ Status.NoMemory) }
    // So it is of `audit` and `admin`, whose status the input and the store give.
    ensures audit_complete { invocation_of (map string_bytes words.now) ≡ Some Auditing
        → (Rose (R.faults input.old) (R.faults input.new) → ⊥) → (Rose (W.faults output.old) (W.faults output.new) → ⊥)
        → IfSome (R.rest input.old) (λ bytes. AuditGives bytes result) }
    ensures admin_complete { invocation_of (map string_bytes words.now) ≡ Some Serving → IsTrue D.tells.content
        → (Rose (R.faults input.old) (R.faults input.new) → ⊥) → (Rose (W.faults output.old) (W.faults output.new) → ⊥)
        → (Rose (D.state store.old).faults (D.state store.new).faults → ⊥)
        → IfSome (R.rest input.old)
        (λ bytes. AdminGives (outside D.tells D.state W.taken W.faults) bytes store.old store.new result) }
{
    match read_words(words) {
        None => Status::Usage,
        Some(command) => carry_out(rt, alloc, command, input, output, store),
    }
}

/// Carries out a command.
fn carry_out<T: Threads + Sync, R: Source, W: Sink, D: Disk>(
    rt: &T,
    alloc: Global,
    command: Command,
    input: &mut R,
    output: &mut W,
    store: &mut D,
) -> Status
    requires { Fits command }
    ensures ends { Finishes (invocation command.entry) result (R.rest input.old) (W.taken output.old)
        (W.taken output.new) (W.faults output.old) (W.faults output.new) }
    ensures served { invocation command.entry ≡ Serving
        → Serviced (outside D.tells D.state W.taken W.faults) result (R.rest input.old) store.old output.old
        store.new output.new }
    ensures store { (invocation command.entry ≡ Serving → ⊥) → store.new ≡ store.old }
    ensures end { result ≡ Status.Ok → ReadsToEnd (invocation command.entry) (R.rest input.new) }
    ensures few { TakesAtMost (R.rest input.old) (R.rest input.new) first_too_long }
    ensures played { invocation command.entry ≡ Playing → result ≡ Status.Ok
        → IfSome (R.rest input.old) (λ bytes. Played bytes (W.taken output.old) (W.taken output.new)) }
    ensures made { (count : ℕ) → invocation command.entry ≡ Making count → result ≡ Status.Ok
        → Made count (W.taken output.old) (W.taken output.new) }
    ensures read_fault { result ≡ Status.ReadFault → Rose (R.faults input.old) (R.faults input.new) }
    ensures no_read_fault { result ≢ Status.ReadFault → Unrisen (R.faults input.old) (R.faults input.new) }
    ensures no_write_fault { result ≢ Status.WriteFault → Unrisen (W.faults output.old) (W.faults output.new) }
    ensures no_store_fault { result ≢ Status.DiskFault
        → Unrisen (D.state store.old).faults (D.state store.new).faults }
{
    match command {
        Command::Play => play_input(alloc, input, output),
        Command::Install { code } => install_code(alloc, code, output),
        Command::Make { count } => make_schedule(alloc, count, output),
        Command::Inspect { jobs } => inspect_input(rt, alloc, jobs, input, output),
        Command::Sniff { jobs, words } => sniff_input(rt, alloc, jobs, words, input, output),
        Command::Campaign { count, start, jobs } => {
            write_campaign(rt, alloc, count, start, jobs, output)
        }
        Command::Audit => audit_input(alloc, input, output),
        Command::Admin => serve_input(alloc, input, output, store),
    }
}
