//! A store in a file: the bytes of its first slot, and what is read after the file is opened again.
use std::process::Abort;
use std::test::Fail;
use zb_disk::{Disk, FileDisk};
use zb_store::Store;

// The first slot of a store whose record is the byte 1, and which has the entry 04 05. It is an open gate, the
// generation, the record after its length, an open gate, the entry after its length, and a closed gate.
const SLOT: [u8; 20] = [
    0xA5, 1, 0, 0, 0, 0, 0, 0, 0, 1, 0, 0, 0, 1, 0xA5, 2, 0, 4, 5, 0,
];

// Makes such a store in a file.
fn make(rt: &(impl AllocGlobal + Abort), disk: &mut impl Disk) -> Result<(), Fail> {
    let store = Store::format(rt.alloc(), disk, &[1])?;
    assert!(rt; store.entries() < 32);
    let _ = store.append(disk, &[4, 5])?;
    Ok(())
}

// Whether a disk has that slot, and the calls that read a store find what is in it.
fn is_found(rt: &impl AllocGlobal, disk: &mut impl Disk) -> Result<bool, Fail> {
    let mut slot = [9; 20];
    disk.read(0, &mut slot)?;
    let (record, entries) = Store::peek(rt.alloc(), disk)?;
    let (_, again, payloads) = Store::open(rt.alloc(), disk)?;
    Ok(
        slot == SLOT
            && record.as_slice() == [1].as_slice()
            && entries.as_slice() == [4, 5].as_slice()
            && again.as_slice() == [1].as_slice()
            && payloads.as_slice() == [4, 5].as_slice()
            && Store::standing(disk) == Ok((1, 1)),
    )
}

#[test]
fn a_store_in_a_file_is_opened_again(rt: HostRuntime) -> Result<(), Fail> {
    let path = "store_test_of_a_file";
    make(&rt, &mut FileDisk::new(&rt, path)?)?;
    assert!(rt; is_found(&rt, &mut FileDisk::new(&rt, path)?)?);
    std::fs::remove_file(&rt, path)?;
    Ok(())
}
