//! Disks that are replaced by another one, also by one from which the node can't boot.
use crate::runs::add;
use arrayvec::ArrayVec;
use std::process::Abort;
use std::test::Fail;
use zb_base::MemSink;
use zb_disk::{Disk, MemDisk};
use zb_player::{Bench, play};
use zb_sched::read;

/// What happens before a disk is put under the centre, and its transcript.
const BEFORE: &[u8] = b"\
node c centre 00124B0000000001 0000 4 2
node d device 00124B0000000002 1A2B 4 2
netkey c 000102030405060708090A0B0C0D0E0F 0
netkey d 000102030405060708090A0B0C0D0E0F 0
say c 1A2B 0102
say c 1A2B 0102
reset c
";

const BEFORE_PLAYED: &[u8] = b"\
0 node c centre 00124B0000000001 0000 4 2
0 node d device 00124B0000000002 1A2B 4 2
0 given c net 000102030405060708090A0B0C0D0E0F 0
0 given d net 000102030405060708090A0B0C0D0E0F 0
1 reserve c nwk 4
1 commit c
1 seal c nwk network 000102030405060708090A0B0C0D0E0F 00124B0000000001 0 2D \
             08022B1A00001E002D0000000001000000004B120000 00010000040101000102
1 send c 1 08022B1A00001E00280000000001000000004B12000063DD603D8198631D3B765B34BA85
2 seal c nwk network 000102030405060708090A0B0C0D0E0F 00124B0000000001 1 2D \
             08022B1A00001E012D0100000001000000004B120000 00010000040101010102
2 send c 2 08022B1A00001E01280100000001000000004B120000897752BDF0FC12EC62703D343AD0
3 down c reset
";

/// A disk whose first slot is open, with the record of the centre at the start.
///
/// Only its NWK limit is 40.
const FURTHER: [u8; 56] = [
    0xA5, 1, 0, 0, 0, 0, 0, 0, 0, 43, 0, 0, 0, 3, 0, 0, 0, 0, 0, 0, 0, 0, 0, 0, 0, 1, 0, 0, 0, 0,
    1, 2, 3, 4, 5, 6, 7, 8, 9, 10, 11, 12, 13, 14, 15, 0, 3, 40, 0, 0, 0, 0, 0, 0, 0, 0,
];

/// The same with the record of a device that has joined.
const OF_A_DEVICE: [u8; 56] = [
    0xA5, 1, 0, 0, 0, 0, 0, 0, 0, 43, 0, 0, 0, 3, 2, 2, 0, 0, 0, 0, 0, 0, 0, 0, 0, 1, 0, 0, 0, 0,
    1, 2, 3, 4, 5, 6, 7, 8, 9, 10, 11, 12, 13, 14, 15, 0, 3, 40, 0, 0, 0, 0, 0, 0, 0, 0,
];

/// The same with bytes that aren't a record: there is no version 9.
const OF_NOBODY: [u8; 56] = [
    0xA5, 1, 0, 0, 0, 0, 0, 0, 0, 43, 0, 0, 0, 9, 0, 0, 0, 0, 0, 0, 0, 0, 0, 0, 0, 1, 0, 0, 0, 0,
    1, 2, 3, 4, 5, 6, 7, 8, 9, 10, 11, 12, 13, 14, 15, 0, 3, 40, 0, 0, 0, 0, 0, 0, 0, 0,
];

/// A disk on which neither slot is open.
const EMPTY: [u8; 56] = [0; 56];

/// What a disk does by itself.
#[derive(Clone, Copy)]
enum Alone {
    Works,
    Fails(u8),
    Stops(u8),
    /// It is off until the power comes back.
    IsOff,
}

/// A disk that is put under the centre.
struct Case {
    /// The event before which it is put there.
    event: u32,
    /// The bytes of the disk.
    bytes: [u8; 56],
    alone: Alone,
    /// What happens then.
    more: &'static [u8],
    /// What the transcript has about that.
    played: &'static [u8],
}

const BOOT_AND_SAY: &[u8] = b"boot c\nsay c 1A2B -\n";

const BOOT_AND_DUMP: &[u8] = b"boot c\nsay c 1A2B -\ndump c\n";

/// The first case is a worked example. Of the others:
/// - A boot that finds no record of a centre, and a disk call that fails, are reported as the disk's fault.
/// - A stop is reported as a stop.
/// - A dump shows no bytes if there is no record of a centre.
/// - On a disk that was already off nothing happens that was armed: it stays armed, and nothing is stored.
const CASES: [Case; 11] = [
    Case {
        event: 4,
        bytes: FURTHER,
        alone: Alone::Works,
        more: BOOT_AND_SAY,
        played: b"\
4 boot c
5 reserve c nwk 44
5 commit c
5 seal c nwk network 000102030405060708090A0B0C0D0E0F 00124B0000000001 40 2D \
             08022B1A00001E282D2800000001000000004B120000 0001000004010128
5 send c 3 08022B1A00001E28282800000001000000004B1200000217AB7EA806B276ED0E65A0
end 5 3 0 0 yes yes
",
    },
    Case {
        event: 4,
        bytes: EMPTY,
        alone: Alone::Works,
        more: BOOT_AND_DUMP,
        played: b"4 down c disk\n5 refuse c event down\n6 dump c -\nend 6 2 0 1 yes yes\n",
    },
    Case {
        event: 4,
        bytes: OF_A_DEVICE,
        alone: Alone::Works,
        more: BOOT_AND_DUMP,
        played: b"4 down c disk\n5 refuse c event down\n6 dump c -\nend 6 2 0 1 yes yes\n",
    },
    Case {
        event: 4,
        bytes: OF_NOBODY,
        alone: Alone::Works,
        more: BOOT_AND_DUMP,
        played: b"4 down c disk\n5 refuse c event down\n6 dump c -\nend 6 2 0 1 yes yes\n",
    },
    Case {
        event: 4,
        bytes: FURTHER,
        alone: Alone::Fails(1),
        more: BOOT_AND_DUMP,
        played: b"4 down c disk\n5 refuse c event down\n6 dump c 0300000000000000000000000100000000010203\
                  0405060708090A0B0C0D0E0F0003280000000000000000\nend 6 2 0 1 yes yes\n",
    },
    Case {
        event: 4,
        bytes: FURTHER,
        alone: Alone::Stops(0),
        more: BOOT_AND_DUMP,
        played: b"4 stopped c\n5 refuse c event down\n6 dump c 0300000000000000000000000100000000010203\
                  0405060708090A0B0C0D0E0F0003280000000000000000\nend 6 2 0 1 yes yes\n",
    },
    Case {
        event: 5,
        bytes: FURTHER,
        alone: Alone::Fails(2),
        more: BOOT_AND_DUMP,
        played: b"4 boot c\n5 down c disk\n6 dump c 0300000000000000000000000100000000010203\
                  0405060708090A0B0C0D0E0F0003280000000000000000\nend 6 2 0 0 yes yes\n",
    },
    Case {
        event: 5,
        bytes: FURTHER,
        alone: Alone::Stops(1),
        more: BOOT_AND_DUMP,
        played: b"4 boot c\n5 stopped c\n6 dump c 0300000000000000000000000100000000010203\
                  0405060708090A0B0C0D0E0F0003280000000000000000\nend 6 2 0 0 yes yes\n",
    },
    Case {
        event: 5,
        bytes: EMPTY,
        alone: Alone::Works,
        more: b"boot c\nsay c 1A2B -\nreset c\nboot c\ndump c\n",
        played: b"\
4 boot c
5 reserve c nwk 8
5 commit c
5 seal c nwk network 000102030405060708090A0B0C0D0E0F 00124B0000000001 4 2D \
             08022B1A00001E042D0400000001000000004B120000 0001000004010104
5 send c 3 08022B1A00001E04280400000001000000004B1200002ABCF3508004A55396FAC599
6 down c reset
7 down c disk
8 dump c -
end 8 3 0 0 yes yes
",
    },
    Case {
        event: 5,
        bytes: FURTHER,
        alone: Alone::IsOff,
        more: b"stop c 0 -\nboot c\nboot c\nboot c\n",
        played: b"5 down c disk\n6 stopped c\n7 boot c\nend 7 2 0 0 yes yes\n",
    },
    Case {
        event: 6,
        bytes: FURTHER,
        alone: Alone::IsOff,
        more: b"boot c\nstop c 5 A5\nsay c 1A2B -\nboot c\ndump c\n",
        played: b"4 boot c\n6 down c disk\n7 boot c\n8 dump c 0300000000000000000000000100000000010203\
                  0405060708090A0B0C0D0E0F0003280000000000000000\nend 8 2 0 0 yes yes\n",
    },
];

/// A bench that puts a disk under the centre, which is the first node, before one event.
#[derive(Drop)]
struct Swap {
    event: u32,
    disk: Option<MemDisk>,
}

impl Bench for Swap {
    ghost use Rattle.std.specs.Prelude.{◌&&◌, false, if◌then◌else◌, nat_eq, None};

    ghost still = { λ bench. false };

    ghost asked = { λ bench. None };

    ghost gave = { λ bench. None };

    ghost gives = { λ bench event node. if nat_eq event bench.event && nat_eq node 0 then bench.disk else None };

    fn swap(&mut self, event: u32, node: u8) -> Option<MemDisk> {
        if event == self.event && node == 0 {
            self.disk.take()
        } else {
            None
        }
    }
}

/// Returns the disk of a case.
fn disk_of(rt: &(impl AllocGlobal + Abort), case: &Case) -> MemDisk {
    let mut disk = MemDisk::new(rt.alloc(), &case.bytes).expect(rt, "memory");
    match case.alone {
        Alone::Works => {}
        Alone::Fails(call) => disk.arm_fail(call),
        Alone::Stops(calls) => disk.arm_stop(calls, ArrayVec::new()),
        Alone::IsOff => {
            disk.arm_stop(0, ArrayVec::new());
            let _ = disk.sync();
        }
    }
    disk
}

/// Returns the transcript of a run with the disk of a case.
fn played(rt: &(impl AllocGlobal + Abort), case: &Case) -> Result<MemSink, Fail> {
    let mut text = Vec::new(rt.alloc());
    add(rt, &mut text, &[BEFORE, case.more]);
    let schedule = read(rt.alloc(), &text.as_slice()[..text.len().min(4_096)])?;
    let mut bench = Swap {
        event: case.event,
        disk: Some(disk_of(rt, case)),
    };
    let mut disks = Vec::new(rt.alloc());
    let mut sink = MemSink::new(rt.alloc(), 4_096, &[])?;
    play(rt.alloc(), &schedule, &mut disks, &mut bench, &mut sink)?;
    Ok(sink)
}

#[test]
fn a_node_goes_on_with_the_disk_under_it(rt: HostRuntime) -> Result<(), Fail> {
    for case in &CASES {
        let mut wanted = Vec::new(rt.alloc());
        add(&rt, &mut wanted, &[BEFORE_PLAYED, case.played]);
        assert!(rt; played(&rt, case)?.taken() == wanted.as_slice());
    }
    Ok(())
}
