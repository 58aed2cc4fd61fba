//! The trait of a disk.
ghost use Rattle.std.specs.Prelude.{◌≡◌, ◌+◌, ◌≤◌, ℕ, List, length, IsTrue, OnOk, IfOk};
ghost use Rattle.zb_disk.specs.View.{Telling, View, window};
ghost use Rattle.zb_disk.specs.Calls.{IsRead, IsWrite, IsSync};
ghost use Rattle.zb_base.specs.Sizes.{disk_size};

use zb_base::Failed;

/// The number of bytes of a disk.
pub const DISK_ROOM: usize = 131_072;

/// Stores at most 131,072 bytes, which survive a crash after they are synced.
///
/// After a crash, each range that was written since the last sync, and the part past the old end, may hold any bytes.
/// All other bytes are unchanged.
///
/// # Errors
/// Each method returns `Failed` only if the count of faults rose.
pub trait Disk {
    /// Which facts about itself this kind of disk describes.
    ghost tells: { Telling };

    /// The disk at this moment.
    ghost state: { Self → View };

    /// Returns the size in bytes.
    fn size(&mut self) -> Result<u64, Failed>
        ensures size { IfOk result (λ n. IsTrue tells.content → n ≡ length (state self.old).seen) }
        ensures read { IsRead tells (state self.old) (state self.new) result };

    /// Fills `buf` with the bytes from a place on. Bytes past the end read as 00.
    fn read(&mut self, at: u64, buf: &mut [u8]) -> Result<(), Failed>
        ensures bytes { OnOk result (IsTrue tells.content
            → buf.new ≡ window (state self.old).seen at (length buf.old)) }
        ensures read { IsRead tells (state self.old) (state self.new) result };

    /// Writes a range, and lengthens the disk if needed. After a failed write its range may hold any bytes. The range
    /// must end within 131,072 bytes.
    fn write(&mut self, at: u64, bytes: &[u8]) -> Result<(), Failed>
        requires { at + length bytes.now ≤ disk_size }
        ensures { IsWrite tells at bytes.now (state self.old) (state self.new) result };

    /// Makes the bytes that are read now the only image. A failed sync changes no image.
    fn sync(&mut self) -> Result<(), Failed>
        ensures { IsSync tells (state self.old) (state self.new) result };

    /// The bytes that are read are one of the images.
    ghost reads_image: { (d : Self) → IsTrue tells.content → (state d).images (state d).seen };

    /// The images of this moment are among those since an earlier one.
    ghost counts_now: { (d : Self) (t : ℕ) (c : List ℕ) → t ≤ (state d).moment → (state d).images c
        → (state d).since t c };

    /// The images since this moment are those of this moment.
    ghost only_now: { (d : Self) (c : List ℕ) → (state d).since (state d).moment c → (state d).images c };
}
