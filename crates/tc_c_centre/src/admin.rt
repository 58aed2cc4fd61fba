//! A script of `tc admin`, served over the bytes of a store.
ghost use Rattle.std.specs.Prelude.{◌≡◌, ◌≤◌, ℕ, List, Ok, length};
ghost use Rattle.tc_c_centre.specs.Buffers.{Calls, buffers};
ghost use Rattle.tc_c_centre.specs.Scripts.{IsOfScript, cause_number as number_of_cause, longest_script, made_of_script};
ghost use Rattle.zb_script.specs.Reading.{script_in};
ghost use Rattle.zb_script.specs.Scripts.{IsScript};
ghost use Rattle.zb_script.specs.Views.{script_of};
ghost use Rattle.zb_base.specs.Sizes.{disk_size};

use crate::fault::CallFault;
use crate::outside::{Answer, StoreBytes};
use crate::used::{Served, TcUsed, fit, hand_out, is_ready, tell};
use std::alloc::Global;
use zb_admin::{AdminCause, AdminFault, Script, read, serve};
use zb_base::OrMemory;

/// The most bytes of a script.
const LONGEST_SCRIPT: usize = 16_777_216;

// Returns the number of the cause for which a script was refused.
fn cause_number(cause: AdminCause) -> u32
    ensures { result ≡ number_of_cause cause }
{
    match cause {
        AdminCause::Syntax => 1,
        AdminCause::DuplicateNode => 2,
        AdminCause::Block => 3,
        AdminCause::UnknownNode => 4,
        AdminCause::BadCode => 5,
        AdminCause::Backup => 6,
        AdminCause::TooMany => 7,
        AdminCause::NoCentre => 8,
    }
}

// Returns what a script that ended so has made.
fn made_of_script(
    ended: Result<(), AdminFault>,
    disk: StoreBytes,
    answer: Answer,
) -> Result<Served, CallFault>
    ensures { result ≡ made_of_script ended disk answer }
{
    match ended {
        Ok(()) => Ok(Served::new(disk, answer)),
        Err(AdminFault::NoStore) => Err(CallFault::NoStore),
        Err(AdminFault::BadStore { at }) => Err(CallFault::BadStore { at }),
        Err(AdminFault::Worn) => Err(CallFault::Worn),
        // The disk in memory doesn't fail, and the answer fails where memory is short.
        Err(AdminFault::Disk) | Err(AdminFault::Write) | Err(AdminFault::NoMemory) => {
            Err(CallFault::NoMemory)
        }
    }
}

// Serves a script that was read.
fn serve_over(alloc: Global, script: &Script, old: &[u8]) -> Result<Served, CallFault>
    requires script { IsScript script.now }
    requires few { length old.now ≤ disk_size }
    ensures { (text : List ℕ) → length text ≤ longest_script → script_in text ≡ Ok (script_of script.now)
        → IsOfScript text old.now result }
{
    let Ok(mut disk) = StoreBytes::new(alloc, old) else {
        return Err(CallFault::NoMemory);
    };
    let mut answer = Answer::new(alloc);
    let ended = serve(alloc, script, &mut disk, &mut answer);
    made_of_script(ended, disk, answer)
}

// Serves a script over the bytes of a store.
#[tactic(auto, using(crate::proofs::Scripts::refused))]
fn serve_script(alloc: Global, text: &[u8], old: &[u8]) -> Result<Served, CallFault>
    requires { length old.now ≤ disk_size }
    ensures { IsOfScript text.now old.now result }
{
    if text.len() > LONGEST_SCRIPT {
        return Err(CallFault::TooLong);
    }
    match read(alloc, text) {
        Ok(script) => serve_over(alloc, &script, old),
        Err(OrMemory::Fault(error)) => Err(CallFault::Refused {
            line: error.line,
            cause: cause_number(error.cause),
        }),
        Err(OrMemory::NoMemory) => Err(CallFault::NoMemory),
    }
}

/// Serves a script over the store in the first `used.store` bytes of `store`, which has room for 131,072.
///
/// It writes the new store over it and what the commands say into `answer`, and sets `used.store` and `used.answer`.
///
/// The caller stores the new bytes, and then does what the answer says.
///
/// Returns 0, or why nothing was written:
/// - 2: the buffer of the store has too little room, or `used.store` is too large
/// - 4: the answer has more bytes than its room; `used.answer` is their number
/// - 5: the text is no script; `used.at` is its first bad line, and `used.cause` the number of the cause
/// - 6: there was no memory left
/// - 8: the store isn't empty, and no record is in it
/// - 9: the script has more than 16,777,216 bytes
/// - 11: what is in the store is no record of a centre; `used.at` is the place of the fault
/// - 12: the store can't be written any more
#[tactic(auto, using(crate::proofs::CallLemmas::called, crate::proofs::CallLemmas::misused))]
#[unsafe(no_mangle)]
pub extern "C" fn tc_admin(
    alloc: Global,
    script: &[u8],
    store: &mut [u8],
    answer: &mut [u8],
    used: &mut TcUsed,
) -> u32
    ensures { Calls (IsOfScript script.now) (buffers store.old answer.old used.old) result
        (buffers store.new answer.new used.new) }
{
    if !is_ready(store, used) {
        return tell(&CallFault::Usage, used);
    }
    let made = fit(
        serve_script(alloc, script, &store[..used.store]),
        answer.len(),
    );
    hand_out(made, store, answer, used)
}
