//! Laws of the commands: a value has one spelling and a spelling one value, and reading and writing undo each other.
//! Each function here states laws and has an empty body.
ghost use Rattle.std.specs.Prelude.{◌≡◌, ◌≤◌, ◌<◌, ◌^◌, ℕ, List, length, Ok};
ghost use Rattle.zb_cursor.specs.Spelling.{IsBytes};
ghost use Rattle.zb_cmd.specs.declared.command.Command.{Command};
ghost use Rattle.zb_cmd.specs.declared.leave.Leave.{Leave};
ghost use Rattle.zb_cmd.specs.Spelling.{command, leave};
ghost use Rattle.zb_cmd.specs.Shape.{InRange, IsCommand, Spells, SpellsLeave};
ghost use Rattle.zb_cmd.specs.Reading.{command_of, leave_of};
ghost use Rattle.zb_base.specs.Limits.{longest_frame};

/// States that `read_command` and `write_command` undo each other, and that this holds for a Leave too.
pub fn round_trips()
    ensures one_value { (bytes : List ℕ) (c d : Command) → Spells bytes c → Spells bytes d → c ≡ d }
    ensures one_spelling { (bytes other : List ℕ) (c : Command) → Spells bytes c → Spells other c
        → bytes ≡ other }
    // Reading what was written gives the command.
    ensures written_is_read { (c : Command) → InRange c → IsCommand c → length (command c) ≤ longest_frame
        → command_of (command c) ≡ Ok c }
    // Writing what was read gives the bytes.
    ensures read_is_written { (bytes : List ℕ) (c : Command) → IsBytes bytes → command_of bytes ≡ Ok c
        → IsCommand c × (command c ≡ bytes) }
    ensures one_leave { (bytes : List ℕ) (l m : Leave) → SpellsLeave bytes l → SpellsLeave bytes m → l ≡ m }
    ensures written_leave_is_read { (l : Leave) → l.options < 2 ^ 8 → leave_of (leave l) ≡ Ok l }
    ensures read_leave_is_written { (bytes : List ℕ) (l : Leave) → leave_of bytes ≡ Ok l → leave l ≡ bytes }
{}
