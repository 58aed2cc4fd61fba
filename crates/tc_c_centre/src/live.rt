//! The lines of a session of `tc_centre`, served over the bytes of a store.
ghost use Rattle.std.specs.Prelude.{◌≡◌, ◌≤◌, length};
ghost use Rattle.tc_c_centre.specs.Buffers.{Calls, buffers};
ghost use Rattle.tc_c_centre.specs.Sessions.{IsOfLines, made_of_lines};
ghost use Rattle.zb_base.specs.Sizes.{disk_size};

use crate::fault::CallFault;
use crate::outside::{Answer, StoreBytes};
use crate::used::{Served, TcUsed, fit, hand_out, is_ready, tell};
use std::alloc::Global;
use zb_base::MemSource;
use zb_live::{LiveFault, live};

// Returns what lines that ended so have made.
fn made_of_lines(
    ended: Result<(), LiveFault>,
    disk: StoreBytes,
    answer: Answer,
) -> Result<Served, CallFault>
    ensures { result ≡ made_of_lines ended disk answer }
{
    match ended {
        Ok(()) => Ok(Served::new(disk, answer)),
        Err(LiveFault::NoStore) => Err(CallFault::NoStore),
        Err(LiveFault::BadStore { at }) => Err(CallFault::BadStore { at }),
        Err(LiveFault::TooLong) => Err(CallFault::TooLong),
        Err(LiveFault::Worn) => Err(CallFault::Worn),
        // Lines and a disk in memory don't fail, and the answer fails where memory is short.
        Err(LiveFault::Read)
        | Err(LiveFault::Write)
        | Err(LiveFault::Disk)
        | Err(LiveFault::NoMemory) => Err(CallFault::NoMemory),
    }
}

// Serves lines over the bytes of a store.
#[tactic(auto, using(crate::proofs::Sessions::lines_served))]
fn serve_lines(alloc: Global, text: &[u8], old: &[u8]) -> Result<Served, CallFault>
    requires { length old.now ≤ disk_size }
    ensures { IsOfLines text.now old.now result }
{
    let Ok(mut input) = MemSource::new(alloc, text, &[]) else {
        return Err(CallFault::NoMemory);
    };
    let Ok(mut disk) = StoreBytes::new(alloc, old) else {
        return Err(CallFault::NoMemory);
    };
    let mut answer = Answer::new(alloc);
    let ended = live(alloc, &mut input, &mut answer, &mut disk);
    made_of_lines(ended, disk, answer)
}

/// Serves the lines of a session over the store in the first `used.store` bytes of `store`.
///
/// `store` has room for 131,072 bytes. The call writes the new store over it and what the lines answer into `answer`,
/// and sets `used.store` and `used.answer`.
///
/// Each call is a session of its own, with its header and `open`. The caller stores the new bytes, and only then sends
/// what the answer says. What comes after the last line feed isn't carried out.
///
/// Returns 0, or why nothing was written:
/// - 2: the buffer of the store has too little room, or `used.store` is too large
/// - 4: the answer has more bytes than its room; `used.answer` is their number
/// - 6: there was no memory left
/// - 8: the store isn't empty, and no record is in it
/// - 9: a line has more than 1,048,576 bytes
/// - 11: what is in the store is no record of a centre; `used.at` is the place of the fault
/// - 12: the store can't be written any more
#[tactic(auto, using(crate::proofs::CallLemmas::called, crate::proofs::CallLemmas::misused))]
#[unsafe(no_mangle)]
pub extern "C" fn tc_live(
    alloc: Global,
    lines: &[u8],
    store: &mut [u8],
    answer: &mut [u8],
    used: &mut TcUsed,
) -> u32
    ensures { Calls (IsOfLines lines.now) (buffers store.old answer.old used.old) result
        (buffers store.new answer.new used.new) }
{
    if !is_ready(store, used) {
        return tell(&CallFault::Usage, used);
    }
    let made = fit(
        serve_lines(alloc, lines, &store[..used.store]),
        answer.len(),
    );
    hand_out(made, store, answer, used)
}
