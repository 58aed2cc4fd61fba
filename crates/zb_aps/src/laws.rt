//! Laws of APS frames: a value has one spelling and a spelling one value, and reading and writing undo each other.
//! Each function here states laws and has an empty body.
ghost use Rattle.std.specs.Prelude.{◌≡◌, ◌≤◌, ℕ, List, length, Ok};
ghost use Rattle.zb_cursor.specs.Spelling.{IsBytes};
ghost use Rattle.zb_aps.specs.declared.frame.ApsFrame.{ApsFrame};
ghost use Rattle.zb_aps.specs.Spelling.{frame};
ghost use Rattle.zb_aps.specs.Shape.{InRange, IsShaped, Spells};
ghost use Rattle.zb_aps.specs.Reading.{frame_of};
ghost use Rattle.zb_base.specs.Limits.{longest_frame};

/// States that `read` and `write` undo each other.
pub fn round_trips()
    ensures one_value { (bytes : List ℕ) (f g : ApsFrame) → Spells bytes f → Spells bytes g → f ≡ g }
    ensures one_spelling { (bytes other : List ℕ) (f : ApsFrame) → Spells bytes f → Spells other f
        → bytes ≡ other }
    // Reading what was written gives the frame.
    ensures written_is_read { (f : ApsFrame) → InRange f → IsShaped f → length (frame f) ≤ longest_frame
        → frame_of (frame f) ≡ Ok f }
    // Writing what was read gives the bytes.
    ensures read_is_written { (bytes : List ℕ) (f : ApsFrame) → IsBytes bytes → frame_of bytes ≡ Ok f
        → IsShaped f × (frame f ≡ bytes) }
{}
