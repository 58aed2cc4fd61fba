//! A session: what each line does to it.
ghost use Rattle.std.specs.Prelude.{◌≡◌, ◌≢◌, ◌≤◌, ◌++◌, [], ℕ, List, None, Some, Ok, Err, is_some, true, IsTrue, OnOk, IfErr, IfOk};
ghost use Rattle.zb_base.specs.Outside.{Unrisen};
ghost use Rattle.zb_centre_store.specs.Events.{task_of};
ghost use Rattle.zb_centre_store.specs.Calls.{IsShort};
ghost use Rattle.zb_centre_store.specs.Standing.{IsUp};
ghost use Rattle.zb_disk.specs.View.{IsStill};
ghost use Rattle.zb_live.specs.Alive.{CanGoOn, HasFollowed, HasSaid, HasTaken, IsAlive, IsDeclared, IsLineFault, answer_text, done_by, living_of};
ghost use Rattle.zb_live.specs.Happening.{HasAnswered, HasHappened, IsHappeningFault};
ghost use Rattle.zb_live.specs.Living.{Found, cause_of, done, fresh, next as next_number, setting_of};
ghost use Rattle.zb_live.specs.Shown.{Prints, event_lines};
ghost use Rattle.zb_live.specs.Answers.{ok_text, refused_text};
ghost use Rattle.zb_live.specs.Grammar.{meaning_of};
ghost use Rattle.zb_live.specs.Questions.{question_text};
ghost use Rattle.zb_live.specs.Said.{Founds, Introduces, Logs, Opens, Happens, Asks, Joins};
ghost use Rattle.zb_live.specs.Views.{sentence_of};
ghost use Rattle.zb_script.specs.Resolving.{said_of};
ghost use Rattle.zb_model.specs.Answer.{Answer, answer};
ghost use Rattle.zb_model.specs.Data.{Station};
ghost use Rattle.zb_model.specs.Rules.{Setting};
ghost use Rattle.zb_model.specs.State.{NodeState};
ghost use Rattle.zb_model_real.specs.Real.{real};
ghost use Rattle.zb_plan.specs.Answers.{IsAnswer};
ghost use Rattle.zb_script.specs.Grammar.{is_joiner};
ghost use Rattle.zb_script.specs.Judge.{has_centre};
ghost use Rattle.zb_trace.specs.Views.{the_centre};
ghost use Rattle.zb_trace_model.specs.Naming.{IsCalled};

use crate::event::event_for;
use crate::question::{Question, put_asked};
use crate::telling::{Entry, put_event};
use crate::{Cause, Line, Log, put_ok, put_refused, read_line};
use std::alloc::Global;
use zb_base::{Eui, Name, OrMemory, Peer};
use zb_centre_store::{AdminFault, Centre, CentreEvent, centre_tables, handle, judge};
use zb_disk::Disk;
use zb_host::{Host, Outcome, Plan};
use zb_keys::Tables;
use zb_node_types::Refusal;
use zb_script::{Draft, Said, ScriptCause};
use zb_seal::Term;
use zb_trace_model::Group;

/// A session with a centre: its network, and once it is open the centre.
#[derive(Drop)]
pub struct Session {
    lines: u32,
    log: Log,
    network: Draft,
    // It is there once the session is open.
    centre: Option<Host<Centre>>,
    events: u32,
    frames: u32,
}

// Returns the cause of a line of the network.
fn cause_of(cause: ScriptCause) -> Cause
    ensures { result ≡ cause_of cause }
{
    match cause {
        ScriptCause::Syntax | ScriptCause::Backup => Cause::Syntax,
        ScriptCause::DuplicateNode => Cause::DuplicateNode,
        ScriptCause::Block => Cause::Block,
        ScriptCause::UnknownNode => Cause::UnknownNode,
        ScriptCause::BadCode => Cause::BadCode,
        ScriptCause::TooMany => Cause::TooMany,
        ScriptCause::NoCentre => Cause::NoCentre,
    }
}

// Returns the next number. Numbers stop at 4,294,967,295.
fn next_number(number: u32) -> u32
    ensures { result ≡ next_number number }
{
    number.saturating_add(1)
}

// Prints that the line of that number was carried out.
fn confirm(page: &mut Vec<u8>, number: u32) -> Result<(), AdminFault>
    ensures text { OnOk result (page.new.items ≡ page.old.items ++ ok_text number) }
    ensures short { IsShort result }
{
    put_ok(page, number)?;
    Ok(())
}

// Prints that it wasn't, and why.
fn refuse(page: &mut Vec<u8>, number: u32, cause: Cause) -> Result<(), AdminFault>
    ensures text { OnOk result (page.new.items ≡ page.old.items ++ refused_text number cause) }
    ensures short { IsShort result }
{
    put_refused(page, number, cause)?;
    Ok(())
}

// Prints what a question shows of tables.
#[tactic(auto, using(std::proofs::Common::append_assoc))]
fn show(
    alloc: Global,
    page: &mut Vec<u8>,
    number: u32,
    question: Question,
    tables: &Tables,
) -> Result<(), AdminFault>
    ensures text { OnOk result
        (page.new.items ≡ page.old.items ++ (question_text question tables.now ++ ok_text number)) }
    ensures short { IsShort result }
{
    put_asked(alloc, page, question, tables)?;
    confirm(page, number)?;
    Ok(())
}

// Prints how a line of the network went.
fn tell_declared(
    page: &mut Vec<u8>,
    number: u32,
    taken: Result<(), OrMemory<ScriptCause>>,
) -> Result<(), AdminFault>
    ensures text { OnOk result (page.new.items ≡ page.old.items ++ answer_text number taken) }
    ensures declared { OnOk result (IsDeclared taken) }
    ensures short { IsShort result }
{
    match taken {
        Ok(()) => confirm(page, number),
        Err(OrMemory::Fault(cause)) => refuse(page, number, cause_of(cause)),
        Err(OrMemory::NoMemory) => Err(AdminFault::NoMemory),
    }
}

// Prints the lines of an event, and returns whether a frame goes out.
fn put_answer(
    alloc: Global,
    page: &mut Vec<u8>,
    entry: &Entry,
    plan: Plan<Outcome<Term, Refusal>>,
) -> Result<bool, AdminFault>
    ensures prints { OnOk result ((known : List Station) (n : ℕ) (a : Answer) → IsCalled known n
        entry.now.group.node.bytes
        → the_centre known ≡ n → IsAnswer plan a
        → Prints entry.now.log known (event_lines entry.now.group.event n entry.now.group.frame a) page.old.items
        page.new.items) }
    ensures sends { IfOk result (λ sends. sends ≡ is_some plan.out.frame) }
    ensures short { IsShort result }
{
    let sends = plan.out.frame.is_some();
    put_event(alloc, page, entry, &plan)?;
    Ok(sends)
}

// Lets the centre handle an event, and prints its lines. It returns whether a frame goes out.
fn happen<D: Disk>(
    alloc: Global,
    host: &mut Host<Centre>,
    disk: &mut D,
    event: &CentreEvent,
    entry: &Entry,
    page: &mut Vec<u8>,
) -> Result<bool, AdminFault>
    requires { IsTrue (is_some host.old.store) }
    ensures happened { IsTrue D.tells.content → (c : Setting) (s : NodeState) → IsUp c s host.old (D.state disk.old)
        → IsCalled c.stations c.me.eui entry.now.group.node.bytes → the_centre c.stations ≡ c.me.eui
        → HasHappened c s (task_of event.now) entry.now.log entry.now.group.event entry.now.group.frame (D.state
        disk.old)
        page.old.items result host.new (D.state disk.new) page.new.items }
    ensures answered { (c : Setting) (s : NodeState) → host.old.core ≡ record { setting = c; tables = s }
        → IsCalled c.stations c.me.eui entry.now.group.node.bytes → the_centre c.stations ≡ c.me.eui
        → HasAnswered c s (task_of event.now) entry.now.log entry.now.group.event entry.now.group.frame
        page.old.items result
        host.new page.new.items }
    ensures store { OnOk result (is_some host.new.store ≡ true) }
    ensures configured { OnOk result (host.new.core.setting ≡ host.old.core.setting) }
    ensures faults { IfErr result (IsHappeningFault D.tells (D.state disk.old) (D.state disk.new) host.old) }
    ensures worn { IfErr result (λ fault. fault ≡ AdminFault.Worn → (c : Setting) (s : NodeState)
        → host.old.core ≡ record { setting = c; tables = s } → (answer real c s (task_of event.now)).edits ≢ []) }
    ensures count { (D.state disk.old).faults ≤ (D.state disk.new).faults }
    ensures unrisen { result ≢ Err AdminFault.Disk
        → Unrisen (D.state disk.old).faults (D.state disk.new).faults }
{
    match handle(host, disk, event) {
        Ok(plan) => put_answer(alloc, page, entry, plan),
        Err(fault) => Err(fault),
    }
}

// Returns the name of the centre. Requires that it was declared.
fn centre_name(network: &Draft) -> Name
    requires { has_centre network.now ≡ true }
    ensures called { IsCalled (setting_of network.now).stations (setting_of network.now).me.eui result.bytes }
    ensures centre { the_centre (setting_of network.now).stations ≡ (setting_of network.now).me.eui }
{
    network.config().peers[0].name
}

impl Session {
    /// Makes a session of which nothing was said yet.
    pub fn new(alloc: Global) -> Session
        ensures is { living_of result ≡ fresh }
        ensures closed { result.centre ≡ None }
    {
        Session {
            lines: 0,
            log: Log::All,
            network: Draft::new(alloc),
            centre: None,
            events: 0,
            frames: 0,
        }
    }

    fn is_open(&self) -> bool
        ensures { result ≡ is_some self.now.centre }
    {
        self.centre.is_some()
    }

    // Takes the line of the centre.
    fn take_centre(
        &mut self,
        number: u32,
        name: Name,
        eui: Eui,
        out_block: u32,
        in_block: u32,
        page: &mut Vec<u8>,
    ) -> Result<(), AdminFault>
        ensures said { OnOk result (HasSaid number (Founds name.bytes eui.0 out_block in_block)
            self.old page.old.items self.new page.new.items) }
        ensures short { IsShort result }
    {
        if self.is_open() {
            return refuse(page, number, Cause::Opened);
        }
        let taken = self.network.take_centre(name, eui, out_block, in_block);
        tell_declared(page, number, taken)
    }

    // Takes the line of a router or device.
    fn take_peer(&mut self, number: u32, peer: Peer, page: &mut Vec<u8>) -> Result<(), AdminFault>
        requires { is_joiner peer.role ≡ true }
        ensures said { OnOk result (HasSaid number
            (Introduces peer.name.bytes peer.role peer.eui.0 peer.short.0)
            self.old page.old.items self.new page.new.items) }
        ensures short { IsShort result }
    {
        if self.is_open() {
            return refuse(page, number, Cause::Opened);
        }
        let taken = self.network.take_peer(peer);
        tell_declared(page, number, taken)
    }

    // Takes the line that says which lines of events are written.
    fn choose_log(&mut self, number: u32, log: Log, page: &mut Vec<u8>) -> Result<(), AdminFault>
        ensures said { OnOk result (HasSaid number (Logs log) self.old page.old.items self.new page.new.items) }
        ensures short { IsShort result }
    {
        if self.is_open() {
            return refuse(page, number, Cause::Opened);
        }
        self.log = log;
        confirm(page, number)
    }

    // Takes the line that opens the session.
    fn open<D: Disk>(
        &mut self,
        alloc: Global,
        disk: &mut D,
        number: u32,
        page: &mut Vec<u8>,
    ) -> Result<(), AdminFault>
        requires { CanGoOn self.old }
        ensures taken { IsTrue D.tells.content → (found : Found)
            → IsAlive found self.old (D.state disk.old)
            → HasTaken found self.old (done_by number found Opens self.old) (D.state disk.old) page.old.items
            result self.new (D.state disk.new) page.new.items }
        ensures follows { OnOk result (HasFollowed (λ found. done_by number found Opens self.old)
            page.old.items self.new page.new.items) }
        ensures store { OnOk result (CanGoOn self.new) }
        ensures waits { OnOk result (self.new.centre ≡ None
            → (self.old.centre ≡ None) × IsStill (D.state disk.old) (D.state disk.new)) }
        ensures faults { IfErr result (IsLineFault D.tells (Some Opens) self.old (D.state disk.old)
            (D.state disk.new)) }
        ensures count { (D.state disk.old).faults ≤ (D.state disk.new).faults }
        ensures unrisen { result ≢ Err AdminFault.Disk
            → Unrisen (D.state disk.old).faults (D.state disk.new).faults }
    {
        if self.is_open() {
            return refuse(page, number, Cause::Opened);
        }
        if !self.network.has_centre() {
            return refuse(page, number, Cause::NoCentre);
        }
        match judge(alloc, self.network.config(), disk) {
            Ok(Some(host)) => {
                self.centre = Some(host);
                confirm(page, number)
            }
            Ok(None) => refuse(page, number, Cause::Empty),
            Err(fault) => Err(fault),
        }
    }

    // Takes an event of the centre.
    fn take_event<D: Disk>(
        &mut self,
        alloc: Global,
        disk: &mut D,
        number: u32,
        event: Said,
        page: &mut Vec<u8>,
    ) -> Result<(), AdminFault>
        requires { CanGoOn self.old }
        ensures taken { IsTrue D.tells.content → (found : Found)
            → IsAlive found self.old (D.state disk.old)
            → HasTaken found self.old (done_by number found (Happens (said_of event)) self.old)
            (D.state disk.old) page.old.items result self.new (D.state disk.new) page.new.items }
        ensures follows { OnOk result (HasFollowed (λ found. done_by number found (Happens (said_of event)) self.old)
            page.old.items self.new page.new.items) }
        ensures store { OnOk result (CanGoOn self.new) }
        ensures waits { OnOk result (self.new.centre ≡ None
            → (self.old.centre ≡ None) × IsStill (D.state disk.old) (D.state disk.new)) }
        ensures faults { IfErr result (IsLineFault D.tells (Some (Happens (said_of event))) self.old
            (D.state disk.old) (D.state disk.new)) }
        ensures count { (D.state disk.old).faults ≤ (D.state disk.new).faults }
        ensures unrisen { result ≢ Err AdminFault.Disk
            → Unrisen (D.state disk.old).faults (D.state disk.new).faults }
    {
        let Some(host) = &mut self.centre else {
            return refuse(page, number, Cause::Closed);
        };
        match event_for(&self.network, event) {
            Ok(event) => {
                let next_event = next_number(self.events);
                let next_frame = next_number(self.frames);
                let group = Group {
                    event: next_event,
                    frame: next_frame,
                    node: centre_name(&self.network),
                };
                let entry = Entry {
                    group,
                    log: self.log,
                };
                let sends = happen(alloc, host, disk, &event, &entry, page)?;
                self.events = next_event;
                if sends {
                    self.frames = next_frame;
                }
                confirm(page, number)
            }
            Err(cause) => refuse(page, number, cause),
        }
    }

    // Takes a question about the tables of the centre.
    fn take_question(
        &self,
        alloc: Global,
        number: u32,
        question: Question,
        page: &mut Vec<u8>,
    ) -> Result<(), AdminFault>
        requires { CanGoOn self.now }
        ensures said { OnOk result (HasSaid number (Asks question) self.now page.old.items self.now page.new.items) }
        ensures short { IsShort result }
    {
        match &self.centre {
            Some(host) => show(alloc, page, number, question, centre_tables(host)),
            None => refuse(page, number, Cause::Closed),
        }
    }

    // Takes what the line of that number says.
    fn take_line<D: Disk>(
        &mut self,
        alloc: Global,
        disk: &mut D,
        number: u32,
        line: Line,
        page: &mut Vec<u8>,
    ) -> Result<(), AdminFault>
        requires joins { Joins (sentence_of line) }
        requires store { CanGoOn self.old }
        ensures taken { IsTrue D.tells.content → (found : Found)
            → IsAlive found self.old (D.state disk.old)
            → HasTaken found self.old (done_by number found (sentence_of line) self.old)
            (D.state disk.old) page.old.items result self.new (D.state disk.new) page.new.items }
        ensures follows { OnOk result (HasFollowed (λ found. done_by number found (sentence_of line) self.old)
            page.old.items self.new page.new.items) }
        ensures store { OnOk result (CanGoOn self.new) }
        ensures waits { OnOk result (self.new.centre ≡ None
            → (self.old.centre ≡ None) × IsStill (D.state disk.old) (D.state disk.new)) }
        ensures faults { IfErr result (IsLineFault D.tells (Some (sentence_of line)) self.old (D.state disk.old)
            (D.state disk.new)) }
        ensures count { (D.state disk.old).faults ≤ (D.state disk.new).faults }
        ensures unrisen { result ≢ Err AdminFault.Disk
            → Unrisen (D.state disk.old).faults (D.state disk.new).faults }
    {
        match line {
            Line::Blank => Ok(()),
            Line::Centre {
                name,
                eui,
                out_block,
                in_block,
            } => self.take_centre(number, name, eui, out_block, in_block, page),
            Line::Peer { peer } => self.take_peer(number, peer, page),
            Line::Log { log } => self.choose_log(number, log, page),
            Line::Open => self.open(alloc, disk, number, page),
            Line::Event { event } => self.take_event(alloc, disk, number, event, page),
            Line::Show { question } => self.take_question(alloc, number, question, page),
        }
    }

    /// Takes the next line, without its end, and prints what it writes.
    ///
    /// What an event changes is stored before its lines are on the page. After an error the session has ended.
    ///
    /// # Errors
    /// - `Disk` if a call of the disk failed.
    /// - `NoStore` and `BadStore` if the session is opened and the store is no centre's.
    /// - `Worn` if an event has something to store, the whole record has to be written, and no generation is left.
    /// - `NoMemory`.
    pub fn take<D: Disk>(
        &mut self,
        alloc: Global,
        disk: &mut D,
        line: &[u8],
        page: &mut Vec<u8>,
    ) -> Result<(), AdminFault>
        requires { CanGoOn self.old }
        ensures taken { IsTrue D.tells.content → (found : Found)
            → IsAlive found self.old (D.state disk.old)
            → HasTaken found self.old (done found line.now (living_of self.old))
            (D.state disk.old) page.old.items result self.new (D.state disk.new) page.new.items }
        // Whatever the disk reports, its text and the session after it are those of the definition.
        ensures follows { OnOk result (HasFollowed (λ found. done found line.now (living_of self.old))
            page.old.items self.new page.new.items) }
        ensures store { OnOk result (CanGoOn self.new) }
        ensures waits { OnOk result (self.new.centre ≡ None
            → (self.old.centre ≡ None) × IsStill (D.state disk.old) (D.state disk.new)) }
        ensures faults { IfErr result (IsLineFault D.tells (meaning_of line.now) self.old (D.state disk.old)
            (D.state disk.new)) }
        ensures count { (D.state disk.old).faults ≤ (D.state disk.new).faults }
        ensures unrisen { result ≢ Err AdminFault.Disk
            → Unrisen (D.state disk.old).faults (D.state disk.new).faults }
    {
        self.lines = next_number(self.lines);
        match read_line(line) {
            Some(line) => self.take_line(alloc, disk, self.lines, line, page),
            None => refuse(page, self.lines, Cause::Syntax),
        }
    }
}
