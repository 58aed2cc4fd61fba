//! What is asked of the file of a store, as a definition of its own (`IsFaithful`), and that it is enough.
#![tactic(auto)]

ghost use Rattle.std.specs.Prelude.{ℕ, List};
ghost use Rattle.law_faithful_files.specs.Disks.{IsDisk};
ghost use Rattle.law_faithful_files.specs.Faithful.{Deed, IsFaithful};

/// States that a faithful file is a disk that tells its content.
///
/// Each of its deeds is what the trait `Disk` says of that call, and a loss of power leaves one of the images. So all
/// that is proved over a disk that tells its content holds of such a file.
#[tactic(auto, using(crate::proofs::Telling::is_disk))]
pub fn a_faithful_file_is_a_disk()
    ensures { (start : List ℕ) (deeds : List Deed) → IsFaithful start deeds → IsDisk start deeds }
{}
