//! A law of backups, on a function that does nothing.
ghost use Rattle.std.specs.Prelude.{◌≡◌, ℕ, List, Some};
ghost use Rattle.zb_model.specs.State.{NodeState};
ghost use Rattle.zb_backup.specs.Reading.{backup_in, IsBackup};

/// States that a text gives tables exactly where it is their backup.
pub fn backups_are_read_both_ways()
    ensures sound { (text : List ℕ) (s : NodeState) → backup_in text ≡ Some s → IsBackup text s }
    ensures complete { (text : List ℕ) (s : NodeState) → IsBackup text s → backup_in text ≡ Some s }
{}
