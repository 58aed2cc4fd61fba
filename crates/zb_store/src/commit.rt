//! The writes of the store. A range is on the disk before the gate that opens it is written.
ghost use Rattle.std.specs.Prelude.{◌≡◌, ◌+◌, ◌≤◌, length};
ghost use Rattle.zb_store.specs.Layout.{base_of};
ghost use Rattle.zb_store.specs.Sizes.{body_room};
ghost use Rattle.zb_store.specs.Steps.{IsPlaced, IsGated};
ghost use Rattle.zb_store.specs.Store.{IsReplaced, IsSettled, IsLaidOut};
ghost use Rattle.zb_base.specs.Sizes.{disk_size};

use zb_base::Failed;
use zb_disk::Disk;

/// The byte that opens a slot or an entry.
pub(crate) const OPEN: u8 = 0xA5;

/// The byte that closes it.
pub(crate) const SHUT: u8 = 0;

/// Returns where a slot begins.
pub(crate) fn base(second: bool) -> u64
    ensures { result ≡ base_of second }
{
    if second { 65_536 } else { 0 }
}

/// Writes a range and makes it last.
///
/// # Errors
/// `Failed` where the disk failed.
pub(crate) fn write_synced<D: Disk>(disk: &mut D, at: u64, bytes: &[u8]) -> Result<(), Failed>
    requires { at + length bytes.now ≤ disk_size }
    ensures { IsPlaced D.tells at bytes.now (D.state disk.old) (D.state disk.new) result }
{
    disk.write(at, bytes)?;
    disk.sync()
}

/// Writes a range after a closed gate, and then opens the gate.
///
/// # Errors
/// `Failed` where the disk failed.
pub(crate) fn write_gated<D: Disk>(disk: &mut D, gate: u64, bytes: &[u8]) -> Result<(), Failed>
    requires { gate + 1 + length bytes.now ≤ disk_size }
    ensures { IsGated D.tells gate bytes.now (D.state disk.old) (D.state disk.new) result }
{
    write_synced(disk, gate + 1, bytes)?;
    write_synced(disk, gate, &[OPEN])
}

/// Writes a record into a slot, opens its gate, and closes that of the other slot.
///
/// # Errors
/// `Failed` where the disk failed.
pub(crate) fn replace<D: Disk>(disk: &mut D, second: bool, bytes: &[u8]) -> Result<(), Failed>
    requires { length bytes.now ≤ body_room }
    ensures { IsReplaced D.tells second bytes.now (D.state disk.old) (D.state disk.new) result }
{
    write_gated(disk, base(second), bytes)?;
    write_synced(disk, base(!second), &[SHUT])
}

/// Syncs, and closes the gate of the other slot where it is open.
///
/// # Errors
/// `Failed` where the disk failed.
pub(crate) fn settle<D: Disk>(disk: &mut D, second: bool, other_open: bool) -> Result<(), Failed>
    ensures { IsSettled D.tells second other_open (D.state disk.old) (D.state disk.new) result }
{
    disk.sync()?;
    if !other_open {
        return Ok(());
    }
    write_synced(disk, base(!second), &[SHUT])
}

/// Writes the body of the first slot and closes the gate of the second, and then opens the first.
///
/// # Errors
/// `Failed` where the disk failed.
pub(crate) fn lay_out<D: Disk>(disk: &mut D, bytes: &[u8]) -> Result<(), Failed>
    requires { length bytes.now ≤ body_room }
    ensures { IsLaidOut D.tells bytes.now (D.state disk.old) (D.state disk.new) result }
{
    disk.write(1, bytes)?;
    write_synced(disk, base(true), &[SHUT])?;
    write_synced(disk, base(false), &[OPEN])
}
