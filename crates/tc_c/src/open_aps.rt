//! Opening APS frames (05-3474-21, 4.4.1.2).
ghost use Rattle.std.specs.Prelude.{◌≡◌, ◌≢◌, ◌≤◌, Ok, Some, length};
ghost use Rattle.tc_c.specs.Numbers.{key_of, open_number, with_key, with_room};
ghost use Rattle.tc_c.specs.Openings.{IsWritten, given_source};
ghost use Rattle.zb_base.specs.Limits.{longest_frame};
ghost use Rattle.zb_base.specs.declared.key.Key.{Key};
ghost use Rattle.zb_seal.specs.Opening.{opened_aps};
ghost use Rattle.zb_seal.specs.declared.term.Term.{Term};

use crate::key::{LONGEST_FRAME, WRONG_KEY, WRONG_ROOM, key_from};
use crate::opened::{TcOpened, hand_out};
use zb_base::Eui;

/// Returns the source that is given for frames that name none.
fn source_from(source: u64) -> Option<Eui>
    ensures { result ≡ given_source source }
{
    if source == 0 { None } else { Some(Eui(source)) }
}

/// Opens a secured APS frame under a link key of 16 bytes. `content` has at least 127 bytes.
///
/// `source` is the EUI of the node that sealed the frame, if the frame doesn't name it, or 0. The frame's key
/// identifier says whether it is sealed by the link key or by a key that is derived from it.
///
/// Returns 0, or why the frame wasn't opened:
/// - 1: the bytes aren't a frame
/// - 2: it isn't secured
/// - 3: its source isn't known
/// - 4: its MIC isn't that of a content under this key
/// - 5: `content` is too short
/// - 6: `key` doesn't have 16 bytes
#[unsafe(no_mangle)]
pub extern "C" fn tc_open_aps(
    frame: &[u8],
    key: &[u8],
    source: u64,
    content: &mut [u8],
    opened: &mut TcOpened,
) -> u32
    ensures number { result ≡ with_key (key_of key.now)
        (λ k. with_room (length content.old) (open_number (opened_aps frame.now k (given_source source)))) }
    ensures opened { (k : Key) (t : Term) → key_of key.now ≡ Some k → longest_frame ≤ length content.old
        → opened_aps frame.now k (given_source source) ≡ Ok t → IsWritten t content.old content.new opened.new }
    ensures kept { result ≢ 0 → (content.new ≡ content.old) × (opened.new ≡ opened.old) }
{
    let Some(key) = key_from(key) else {
        return WRONG_KEY;
    };
    if content.len() < LONGEST_FRAME {
        return WRONG_ROOM;
    }
    hand_out(
        zb_seal::open_aps(frame, &key, source_from(source)),
        content,
        opened,
    )
}
