//! The buffers that a call is given, and what it writes into them.
ghost use Rattle.std.specs.Prelude.{◌≡◌, ◌≤◌, Ok, Err, true, length, IfOk};
ghost use Rattle.tc_c_centre.specs.Buffers.{HandsOut, buffers, fitted, is_ready as are_ready, number_of, over, told, written};
ghost use Rattle.zb_base.specs.Sizes.{disk_size};

use crate::fault::CallFault;
use crate::outside::{Answer, StoreBytes};
use std::marker::Model;

/// The bytes of a store, and so the room of its buffer.
pub(crate) const STORE_ROOM: usize = 131_072;

/// What is used of the two buffers, and where something was wrong.
#[repr(C)]
#[derive(Drop)]
pub struct TcUsed {
    /// How many bytes the store has, before the call and after it. 0 is no store.
    pub store: usize,
    /// How many bytes the answer has.
    pub answer: usize,
    /// The line of a script that was refused, or the place of the fault in a bad store.
    pub at: u32,
    /// The number of the cause for which a script was refused.
    pub cause: u32,
}

/// What a call made: the new bytes of the store, and the answer.
#[derive(Drop)]
pub(crate) struct Served {
    disk: StoreBytes,
    answer: Answer,
}

impl Model for Served {
    ghost use Rattle.tc_c_centre.specs.Buffers.{Made};

    ghost Value = { Made };

    ghost view = { λ s. record { store = s.disk.bytes; answer = s.answer.text } };
}

impl Served {
    /// Makes it of the disk and the sink of the call.
    pub fn new(disk: StoreBytes, answer: Answer) -> Served
        ensures { result ≡ record { store = disk.bytes; answer = answer.text } }
    {
        Served { disk, answer }
    }

    // Returns the new bytes of the store, at most 131,072.
    fn store(&self) -> &[u8]
        ensures bytes { result.now ≡ self.now.store }
        ensures few { length self.now.store ≤ disk_size }
    {
        self.disk.bytes()
    }

    // Returns the answer.
    fn answer(&self) -> &[u8]
        ensures { result.now ≡ self.now.answer }
    {
        self.answer.bytes()
    }
}

/// Returns whether the buffer of the store may be used.
///
/// It has its room, and no more bytes are in use than a store has.
pub(crate) fn is_ready(store: &[u8], used: &TcUsed) -> bool
    ensures exact { result ≡ are_ready store.now used.now }
    ensures room { result ≡ true → disk_size ≤ length store.now }
    ensures in_use { result ≡ true → used.now.store ≤ disk_size }
{
    STORE_ROOM <= store.len() && used.store <= STORE_ROOM
}

/// Returns what was made, or that its answer has more than `room` bytes.
///
/// # Errors
/// `Short` where the answer is longer, or what was wrong before.
pub(crate) fn fit(made: Result<Served, CallFault>, room: usize) -> Result<Served, CallFault>
    ensures exact { result ≡ fitted room made }
    ensures fits { IfOk result (λ m. length m.answer ≤ room) }
{
    match made {
        Ok(made) => fit_answer(made, room),
        Err(fault) => Err(fault),
    }
}

// Returns what was made, or that its answer has more than `room` bytes.
fn fit_answer(made: Served, room: usize) -> Result<Served, CallFault>
    ensures exact { result ≡ fitted room (Ok made) }
    ensures fits { IfOk result (λ m. length m.answer ≤ room) }
{
    let needed = made.answer().len();
    if needed <= room {
        Ok(made)
    } else {
        Err(CallFault::Short { needed })
    }
}

// Puts bytes over the beginning of a buffer.
fn put(buffer: &mut [u8], bytes: &[u8])
    requires { length bytes.now ≤ length buffer.old }
    ensures { buffer.new ≡ over bytes.now buffer.old }
{
    buffer[..bytes.len()].copy_from_slice(bytes);
}

// Notes what was wrong, where there is more to say than its number.
fn note(fault: &CallFault, used: &mut TcUsed)
    ensures { used.new ≡ told fault.now used.old }
{
    match fault {
        CallFault::Short { needed } => used.answer = *needed,
        CallFault::Refused { line, cause } => {
            used.at = *line;
            used.cause = *cause;
        }
        CallFault::BadStore { at } => used.at = *at,
        CallFault::Usage
        | CallFault::NoMemory
        | CallFault::NoStore
        | CallFault::TooLong
        | CallFault::Worn => {}
    }
}

/// Notes what was wrong, and returns its number.
pub(crate) fn tell(fault: &CallFault, used: &mut TcUsed) -> u32
    ensures number { result ≡ number_of fault.now }
    ensures told { used.new ≡ told fault.now used.old }
{
    note(fault, used);
    fault.number()
}

// Writes what was made into the buffers.
fn write(made: &Served, store: &mut [u8], answer: &mut [u8], used: &mut TcUsed)
    requires room { disk_size ≤ length store.old }
    requires fits { length made.now.answer ≤ length answer.old }
    ensures { buffers store.new answer.new used.new ≡ written made.now (buffers store.old answer.old used.old) }
{
    put(store, made.store());
    put(answer, made.answer());
    used.store = made.store().len();
    used.answer = made.answer().len();
}

/// Writes what was made into the buffers and returns 0, or returns the number of a fault.
///
/// It notes what was wrong then.
pub(crate) fn hand_out(
    made: Result<Served, CallFault>,
    store: &mut [u8],
    answer: &mut [u8],
    used: &mut TcUsed,
) -> u32
    requires room { disk_size ≤ length store.old }
    requires fits { IfOk made (λ m. length m.answer ≤ length answer.old) }
    ensures { HandsOut made result (buffers store.old answer.old used.old) (buffers store.new answer.new used.new) }
{
    match made {
        Ok(made) => {
            write(&made, store, answer, used);
            0
        }
        Err(fault) => tell(&fault, used),
    }
}
