//! The headers of the frames that a node sends (05-3474-21, 2.2.5.1, 3.3.1 and 4.5.1), in the values of this profile.
ghost use Rattle.std.specs.Prelude.{◌≡◌, ◌+◌, ◌≤◌, ◌∷◌, ◌++◌, [], length};
ghost use Rattle.zb_model.specs.Frames.{aps_auxiliary, aps_control, aps_label, data_control, data_front, low_byte, nwk_auxiliary, nwk_header, sealed_command, sealed_data};
ghost use Rattle.zb_model.specs.Data.{ForData};
ghost use Rattle.zb_model_real.specs.Terms.{model_label};
ghost use Rattle.zb_base.specs.Limits.{longest_frame};

use zb_base::{Eui, Frame, Key, Label, Short};
use zb_cursor::{fill, frame_from, put};

/// Returns the auxiliary control of an APS frame: level 5, the extended nonce, and the key identifier of the label.
pub(crate) fn aps_control(label: Label) -> u8
    ensures { result ≡ aps_control (model_label label) }
{
    match label {
        Label::Data => 0x25,
        Label::Network => 0x25,
        Label::Transport => 0x35,
        Label::Load => 0x3d,
    }
}

/// Returns the label of an APS term, since network keys seal at the NWK layer alone.
pub(crate) fn aps_label(label: Label) -> Label
    ensures { model_label result ≡ aps_label (model_label label) }
{
    match label {
        Label::Data => Label::Data,
        Label::Network => Label::Data,
        Label::Transport => Label::Transport,
        Label::Load => Label::Load,
    }
}

/// Returns the low byte of a frame counter, which represents the sequence numbers of both layers.
pub(crate) fn low_byte(counter: u32) -> u8
    ensures { result ≡ low_byte counter }
{
    (counter % 256) as u8
}

/// Makes the header of a sealed APS command with its auxiliary header.
pub(crate) fn command_header(label: Label, counter: u32, source: Eui) -> Frame
    ensures items { result.items
        ≡ sealed_command ++ low_byte counter ∷ aps_auxiliary (model_label label) counter source.0 }
    ensures len { length result.items ≡ 15 }
{
    let [a, b, c, d, e, f, g, h] = source.0.to_le_bytes();
    let [i, j, k, l] = counter.to_le_bytes();
    let low = low_byte(counter);
    let control = aps_control(label);
    frame_from(&[0x21, low, control, i, j, k, l, a, b, c, d, e, f, g, h])
}

/// Makes the header of sealed application data with its auxiliary header.
pub(crate) fn data_header(counter: u32, source: Eui) -> Frame
    ensures items { result.items
        ≡ data_front sealed_data ++ low_byte counter ∷ aps_auxiliary ForData counter source.0 }
    ensures len { length result.items ≡ 21 }
{
    let [a, b, c, d, e, f, g, h] = source.0.to_le_bytes();
    let [i, j, k, l] = counter.to_le_bytes();
    let low = low_byte(counter);
    frame_from(&[
        0x20, 1, 0, 0, 4, 1, 1, low, 0x25, i, j, k, l, a, b, c, d, e, f, g, h,
    ])
}

/// Returns the APS frame control of application data that isn't sealed: delivery by broadcast from FFF8 up.
pub(crate) fn data_control(to: Short) -> u8
    ensures { result ≡ data_control to.0 }
{
    if to.0 >= 0xfff8 { 0x08 } else { 0x00 }
}

/// Makes the header of a NWK frame.
pub fn nwk_header(control: u16, to: Short, from: Short, sequence: u8) -> Frame
    ensures items { result.items ≡ nwk_header control to.0 from.0 sequence }
    ensures len { length result.items ≡ 8 }
{
    let [a, b] = control.to_le_bytes();
    let [c, d] = to.0.to_le_bytes();
    let [e, f] = from.0.to_le_bytes();
    frame_from(&[a, b, c, d, e, f, 0x1e, sequence])
}

/// Makes the auxiliary header of a NWK frame.
pub(crate) fn nwk_auxiliary(counter: u32, source: Eui, sequence: u8) -> Frame
    ensures items { result.items ≡ nwk_auxiliary counter source.0 sequence }
    ensures len { length result.items ≡ 14 }
{
    let [a, b, c, d, e, f, g, h] = source.0.to_le_bytes();
    let [i, j, k, l] = counter.to_le_bytes();
    frame_from(&[0x2d, i, j, k, l, a, b, c, d, e, f, g, h, sequence])
}

/// What the two headers of a frame that is sealed at NWK are made of, and its key.
#[derive(Clone, Copy, Debug, PartialEq, Eq)]
pub struct Head {
    /// The NWK frame control.
    pub control: u16,
    /// The short address that the frame goes to.
    pub to: Short,
    /// The short address that it comes from.
    pub from: Short,
    /// The EUI of the node that seals it.
    pub source: Eui,
    /// The network key.
    pub key: Key,
    /// The sequence number of the key.
    pub sequence: u8,
    /// The frame counter.
    pub counter: u32,
}

/// Writes the header of a NWK frame and its auxiliary header into a frame, in place of its bytes.
///
/// The low byte of the counter is the sequence number of the frame.
pub(crate) fn put_nwk_headers(out: &mut Frame, head: Head)
    ensures items { out.new.items ≡ nwk_header head.control head.to.0 head.from.0 (low_byte head.counter)
        ++ nwk_auxiliary head.counter head.source.0 head.sequence }
    ensures len { length out.new.items ≡ 22 }
{
    let [a, b] = head.control.to_le_bytes();
    let [c, d] = head.to.0.to_le_bytes();
    let [e, f] = head.from.0.to_le_bytes();
    let [i, j, k, l] = head.counter.to_le_bytes();
    let [m, n, o, p, q, r, s, t] = head.source.0.to_le_bytes();
    let low = low_byte(head.counter);
    fill(
        out,
        &[
            a,
            b,
            c,
            d,
            e,
            f,
            0x1e,
            low,
            0x2d,
            i,
            j,
            k,
            l,
            m,
            n,
            o,
            p,
            q,
            r,
            s,
            t,
            head.sequence,
        ],
    );
}

/// Puts the second bytes after the first, in place of what stands in a frame. Requires that it has room for both.
pub(crate) fn join(out: &mut Frame, front: &[u8], back: &[u8])
    requires { length front.now + length back.now ≤ longest_frame }
    ensures { out.new.items ≡ front.now ++ back.now }
{
    fill(out, front);
    let _ = put(out, back);
}

/// Puts the second bytes after the first. Requires that a frame has room for both.
pub fn joined(front: &[u8], back: &[u8]) -> Frame
    requires { length front.now + length back.now ≤ longest_frame }
    ensures { result.items ≡ front.now ++ back.now }
{
    let mut out = frame_from(front);
    let _ = put(&mut out, back);
    out
}
