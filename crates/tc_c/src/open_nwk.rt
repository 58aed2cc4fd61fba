//! Opening NWK frames (05-3474-21, 4.3.1.2).
ghost use Rattle.std.specs.Prelude.{◌≡◌, ◌≢◌, ◌≤◌, Ok, Some, length};
ghost use Rattle.tc_c.specs.Numbers.{key_of, open_number, with_key, with_room};
ghost use Rattle.tc_c.specs.Openings.{IsWritten};
ghost use Rattle.zb_base.specs.Limits.{longest_frame};
ghost use Rattle.zb_base.specs.declared.key.Key.{Key};
ghost use Rattle.zb_seal.specs.Opening.{opened_nwk};
ghost use Rattle.zb_seal.specs.declared.term.Term.{Term};

use crate::key::{LONGEST_FRAME, WRONG_KEY, WRONG_ROOM, key_from};
use crate::opened::{TcOpened, hand_out};

/// Opens a secured NWK frame under a network key of 16 bytes. `content` has at least 127 bytes.
///
/// Returns 0, or why the frame wasn't opened:
/// - 1: the bytes aren't a frame
/// - 2: it isn't secured
/// - 4: its MIC isn't that of a content under this key
/// - 5: `content` is too short
/// - 6: `key` doesn't have 16 bytes
#[unsafe(no_mangle)]
pub extern "C" fn tc_open_nwk(
    frame: &[u8],
    key: &[u8],
    content: &mut [u8],
    opened: &mut TcOpened,
) -> u32
    ensures number { result
        ≡ with_key (key_of key.now) (λ k. with_room (length content.old) (open_number (opened_nwk frame.now k))) }
    ensures opened { (k : Key) (t : Term) → key_of key.now ≡ Some k → longest_frame ≤ length content.old
        → opened_nwk frame.now k ≡ Ok t → IsWritten t content.old content.new opened.new }
    ensures kept { result ≢ 0 → (content.new ≡ content.old) × (opened.new ≡ opened.old) }
{
    let Some(key) = key_from(key) else {
        return WRONG_KEY;
    };
    if content.len() < LONGEST_FRAME {
        return WRONG_ROOM;
    }
    hand_out(zb_seal::open_nwk(frame, &key), content, opened)
}
