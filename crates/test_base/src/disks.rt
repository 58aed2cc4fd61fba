//! Disks: what a file holds, that only one process has it open, and its mode and size. No contract says this.
use std::os::unix::fs::MetadataExt;
use std::process::Abort;
use std::test::Fail;
use zb_disk::{Disk, FileDisk, TrailDisk};

// A call of a disk, and its result.
enum Step {
    // A write at a place, and whether it succeeds.
    Write(u64, &'static [u8], bool),
    // A sync, and whether it succeeds.
    Sync(bool),
    Size(Option<u64>),
    // Four bytes from a place on.
    Four(u64, Option<[u8; 4]>),
}

// Four bytes from a place on.
fn four<D: Disk>(disk: &mut D, at: u64) -> Option<[u8; 4]> {
    let mut bytes = [9; 4];
    match disk.read(at, &mut bytes) {
        Ok(()) => Some(bytes),
        Err(_) => None,
    }
}

// Whether a write succeeds.
fn writes<D: Disk>(disk: &mut D, at: u64, bytes: &[u8]) -> bool {
    at < 1_000 && bytes.len() < 1_000 && disk.write(at, bytes).is_ok()
}

// Whether a disk does a step as expected.
fn answers<D: Disk>(disk: &mut D, step: &Step) -> bool {
    match step {
        Step::Write(at, bytes, done) => writes(disk, *at, bytes) == *done,
        Step::Sync(done) => disk.sync().is_ok() == *done,
        Step::Size(size) => disk.size().ok() == *size,
        Step::Four(at, bytes) => four(disk, *at) == *bytes,
    }
}

// Does steps on a disk, one after the other.
fn follow<D: Disk>(rt: &impl Abort, disk: &mut D, steps: &[Step]) {
    for (place, step) in steps.iter().enumerate() {
        assert!(rt; answers(disk, step), "step {place}");
    }
}

// A write, a sync, and what is then read, on any disk that holds the bytes 1 and 2.
const CALLS: [Step; 7] = [
    Step::Size(Some(2)),
    Step::Write(5, &[7, 8], true),
    Step::Sync(true),
    Step::Size(Some(7)),
    Step::Four(0, Some([1, 2, 0, 0])),
    Step::Four(4, Some([0, 7, 8, 0])),
    Step::Four(200_000, Some([0; 4])),
];

#[test]
fn a_disk_with_a_trail(rt: HostRuntime) -> Result<(), Fail> {
    follow(&rt, &mut TrailDisk::new(rt.alloc(), &[1, 2], 2, 2)?, &CALLS);
    Ok(())
}

// The calls and faults of a file that is opened a second time, and of one that doesn't exist.
const TAKEN: [Step; 2] = [Step::Size(None), Step::Write(0, &[9], false)];

const AGAIN: [Step; 2] = [Step::Size(Some(7)), Step::Four(3, Some([0, 0, 7, 8]))];

#[test]
fn a_file_is_opened_again(rt: HostRuntime) -> Result<(), Fail> {
    let path = "disk_test_of_a_file";
    std::fs::write(&rt, path, [1, 2].as_slice())?;
    {
        let mut disk = FileDisk::new(&rt, path)?;
        follow(&rt, &mut disk, &CALLS);
        assert!(rt; (disk.calls, disk.faults) == (2, 0));
        // The first disk still has it.
        let mut other = FileDisk::new(&rt, path)?;
        follow(&rt, &mut other, &TAKEN);
        assert!(rt; (other.calls, other.faults) == (1, 2));
    }
    let mut again = FileDisk::new(&rt, path)?;
    follow(&rt, &mut again, &AGAIN);
    assert!(rt; (again.calls, again.faults) == (0, 0));
    std::fs::remove_file(&rt, path)?;
    Ok(())
}

const BEFORE_A_WRITE: [Step; 3] = [
    Step::Size(Some(0)),
    Step::Four(0, Some([0; 4])),
    Step::Sync(true),
];

const FIRST_WRITE: [Step; 4] = [
    Step::Write(1, &[5, 6], true),
    Step::Sync(true),
    Step::Four(0, Some([0, 5, 6, 0])),
    Step::Size(Some(131_072)),
];

#[test]
fn a_file_is_made_by_the_first_write(rt: HostRuntime) -> Result<(), Fail> {
    let path = "disk_test_of_a_new_file";
    let mut disk = FileDisk::new(&rt, path)?;
    follow(&rt, &mut disk, &BEFORE_A_WRITE);
    assert!(rt; std::fs::metadata(&rt, path).is_err());
    follow(&rt, &mut disk, &FIRST_WRITE);
    assert!(rt; std::fs::metadata(&rt, path)?.mode() & 0o777 == 0o600);
    std::fs::remove_file(&rt, path)?;
    Ok(())
}

const NO_FILE: [Step; 4] = [
    Step::Size(None),
    Step::Four(0, None),
    Step::Write(0, &[1], false),
    Step::Sync(false),
];

#[test]
fn a_file_that_cannot_be_opened(rt: HostRuntime) -> Result<(), Fail> {
    let mut disk = FileDisk::new(&rt, "no_such_folder/file")?;
    follow(&rt, &mut disk, &NO_FILE);
    assert!(rt; (disk.calls, disk.faults) == (2, 4));
    Ok(())
}
