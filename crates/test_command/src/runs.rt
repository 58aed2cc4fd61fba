//! Whole runs over objects in memory. The expected results come from worked examples outside this repository.
use crate::captures;
use crate::worked::*;
use std::process::Abort;
use std::thread::Threads;
use zb_base::{MemSink, MemSource};
use zb_command::{Cause, Status, run};
use zb_disk::MemDisk;

const CODE: &str = "83FED3407A939723A5C639B26916D505C3B5";

const KEY: &str = "000102030405060708090A0B0C0D0E0F";

/// The result of a run: its status, and what the sink received.
#[derive(Drop)]
pub(crate) struct Ran {
    pub status: Status,
    pub sink: MemSink,
}

// Words, each as a text of its own.
fn texts_of(rt: &(impl AllocGlobal + Abort), words: &[&str]) -> Vec<String> {
    let mut texts = Vec::new(rt.alloc());
    for word in words {
        let text = String::from_str(rt.alloc(), word).expect(rt, "memory");
        texts.push(text).expect(rt, "memory");
    }
    texts
}

/// Appends texts to a text.
pub(crate) fn add(rt: &impl Abort, text: &mut Vec<u8>, parts: &[&[u8]]) {
    for part in parts {
        text.extend_from_slice(part).expect(rt, "memory");
    }
}

/// Runs words over an input and a sink. Their calls of some numbers fail.
pub(crate) fn over<H: AllocGlobal + Threads + Sync + Abort>(
    rt: &H,
    words: &[&str],
    input: &[u8],
    fails: &[u32],
    sink_fails: &[u32],
) -> Ran {
    let texts = texts_of(rt, words);
    let mut source = MemSource::new(rt.alloc(), input, fails).expect(rt, "memory");
    let mut sink = MemSink::new(rt.alloc(), 65_536, sink_fails).expect(rt, "memory");
    let mut store = MemDisk::new(rt.alloc(), &[]).expect(rt, "memory");
    let status = run(
        rt,
        rt.alloc(),
        texts.as_slice(),
        &mut source,
        &mut sink,
        &mut store,
    );
    Ran { status, sink }
}

/// Words, inputs and outputs. A constant has at most 10,000 bytes, so they are in three.
const WORKED: [(&[&str], &[u8], &[u8]); 17] = [
    (&["play"], TWO_FRAMES, TWO_FRAMES_PLAYED),
    (&["play"], WITHOUT_A_KEY, WITHOUT_A_KEY_PLAYED),
    // Comments, empty lines, carriage returns, and a last line without a line feed.
    (
        &["play"],
        b"# \xFF any byte\r\n\r\n\nnode c centre 00124b0000000001 0000 65536 1024\r\nsay c FFF8 -",
        b"0 node c centre 00124B0000000001 0000 65536 1024\n1 refuse c event no-key\nend 1 0 0 1 yes yes\n",
    ),
    (&["make", "1"], b"", MADE_FOR_ONE),
    (
        &["install", CODE],
        b"",
        b"66B6900981E1EE3CA4206B6B861C02BB\n",
    ),
    (
        &["install", "83FED3407A932B70"],
        b"",
        b"CD4FA064773F46941EC986C09963D1A8\n",
    ),
    (&["inspect", "2"], b"", b"end 0 0 1\n"),
    (&["sniff", "1", KEY], &CAPTURE_FILE, CAPTURE_FILE_SHOWN),
    (&["sniff", "4", KEY], &CAPTURE_FILE, CAPTURE_FILE_SHOWN),
    (&["sniff", "1", KEY], &CHECKED, PASSED_OVER),
    (&["sniff", "4", KEY], &CHECKED, PASSED_OVER),
    (&["campaign", "4", "0", "1"], b"", FOUR_RUNS),
    (&["campaign", "7", "12", "64"], b"", SEVEN_RUNS),
    (&["audit"], TWO_FRAMES_PLAYED, b"sound 2 0 locked\n"),
    (&["audit"], WITHOUT_A_KEY_PLAYED, b"sound 2 0 locked\n"),
    (&["admin", "store"], SCRIPT, SCRIPT_SERVED),
    (&["admin", "store"], RESTORING, RESTORED),
];

/// A join through a router.
const JOINED: [(&[&str], &[u8], &[u8]); 1] = [(&["play"], JOIN, JOIN_PLAYED)];

/// Captures.
const HEARD: [(&[&str], &[u8], &[u8]); 4] = [
    (&["inspect", "1"], captures::CAPTURE, captures::REPORT),
    (&["inspect", "64"], captures::JOIN, captures::JOIN_REPORT),
    (
        &["inspect", "3"],
        captures::SOURCES,
        captures::SOURCES_SHOWN,
    ),
    (
        &["inspect", "3"],
        captures::TUNNELS,
        captures::TUNNELS_SHOWN,
    ),
];

#[test]
fn worked_runs_have_their_outputs(rt: HostRuntime) {
    for table in [WORKED.as_slice(), &JOINED, &HEARD] {
        for (words, input, output) in table {
            let ran = over(&rt, words, input, &[], &[]);
            let is_so = ran.status == Status::Ok && ran.sink.taken() == *output;
            assert!(rt; is_so, "{words:?}");
        }
    }
}

/// Schedules in which outsiders send frames, in parts, and how their transcripts end.
const OUTSIDE: [(&[&[u8]], &[u8]); 6] = [
    (&[INJECTED], b"\nend 12 2 0 6 yes yes\n"),
    (&[FORGED], b"\nend 4 0 2 2 yes no\n"),
    (&[FORGED_UNSEALED], b"\nend 1 0 0 0 yes yes\n"),
    (&[JOIN, FORGED_BEHIND], b"\nend 19 19 15 1 yes no\n"),
    (&[HOSTILE], HOSTILE_END),
    (
        &[STRANGE],
        b"\n2 refuse c nwk not-member\nend 2 0 0 1 yes yes\n",
    ),
];

#[test]
fn what_outsiders_send_is_played(rt: HostRuntime) {
    for (place, (parts, end)) in OUTSIDE.iter().enumerate() {
        let mut schedule = Vec::new(rt.alloc());
        add(&rt, &mut schedule, parts);
        let ran = over(&rt, &["play"], schedule.as_slice(), &[], &[]);
        let is_so = ran.status == Status::Ok && ran.sink.taken().ends_with(end);
        assert!(rt; is_so, "run {place}");
    }
}

/// Words, the input, calls that fail, the status, and the output of which the sink has a prefix.
///
/// The calls that fail are first those of the source, then those of the sink. The first call of the source reads the
/// text of a schedule, and the second one its end.
const FAILED: [(&[&str], &[u8], &[u32], &[u32], Status, &[u8]); 13] = [
    (&["help"], b"", &[], &[], Status::Usage, b""),
    (
        &["play"],
        b"node c centre 00124B0000000001 0000 4 2
boom
",
        &[],
        &[],
        Status::Refused {
            line: 2,
            cause: Cause::Syntax,
        },
        b"",
    ),
    (&["play"], TWO_FRAMES, &[1], &[], Status::ReadFault, b""),
    (&["play"], TWO_FRAMES, &[2], &[], Status::ReadFault, b""),
    (&["play"], TWO_FRAMES, &[], &[1], Status::WriteFault, b""),
    (
        &["play"],
        TWO_FRAMES,
        &[],
        &[4],
        Status::WriteFault,
        TWO_FRAMES_PLAYED,
    ),
    (&["make", "1"], b"", &[], &[1], Status::WriteFault, b""),
    (&["install", CODE], b"", &[], &[1], Status::WriteFault, b""),
    (
        &["install", "83FED3407A939723A5C639B26916D505C3B4"],
        b"",
        &[],
        &[],
        Status::Refused {
            line: 1,
            cause: Cause::Crc {
                kept: 0xB4C3,
                found: 0xB5C3,
            },
        },
        b"",
    ),
    (
        &["sniff", "1", KEY],
        b"\xD4\xC3\xB2\xA1",
        &[],
        &[],
        Status::Refused {
            line: 0,
            cause: Cause::Magic,
        },
        b"",
    ),
    (
        &["audit"],
        b"",
        &[],
        &[],
        Status::Broken { line: 1, clause: 6 },
        b"",
    ),
    (
        &["campaign", "4", "0", "2"],
        b"",
        &[],
        &[1],
        Status::WriteFault,
        FOUR_RUNS,
    ),
    (
        &["admin", "store"],
        SCRIPT,
        &[],
        &[3],
        Status::WriteFault,
        SCRIPT_SERVED,
    ),
];

#[test]
fn a_run_that_fails_ends_so(rt: HostRuntime) {
    for (place, case) in FAILED.iter().enumerate() {
        let (words, input, fails, sink_fails, status, output) = *case;
        let ran = over(&rt, words, input, fails, sink_fails);
        let is_so = ran.status == status && output.starts_with(ran.sink.taken());
        assert!(rt; is_so, "run {place}");
    }
}

/// The head of a long capture: a frame after its key.
const LONG_HEAD: &[u8] = b"key 000102030405060708090A0B0C0D0E0F
frame 08022B1A00001E00280000000001000000004B12000063DD603D8198631D3B765B34BA85
#";

/// The frame that is repeated at its end.
const LONG_END: &[u8] = b"
frame 08022B1A00001E00280000000001000000004B12000063DD603D8198631D3B765B34BA85
";

/// What is shown of a long capture.
const LONG_SHOWN: &[u8] = b"1 nwk key 1 00124B0000000001 0 00010000040101000102
1 aps not-secured
2 nwk key 1 00124B0000000001 0 00010000040101000102
2 aps not-secured
key 1 000102030405060708090A0B0C0D0E0F given
end 2 1 1
";

/// Returns a frame after its key, more bytes than are read before several jobs begin, and the frame again.
fn long_capture(rt: &(impl AllocGlobal + Abort), byte: u8) -> Vec<u8> {
    let mut text = Vec::new(rt.alloc());
    add(rt, &mut text, &[LONG_HEAD]);
    text.resize(5_000_000, byte).expect(rt, "memory");
    add(rt, &mut text, &[LONG_END]);
    text
}

/// What fills a long capture, the jobs, calls that fail, the status, and what is shown.
///
/// The calls are those of the source. The filling is a line of many bytes, or many lines.
const LONG: [(u8, &str, &[u32], Status, &[u8]); 3] = [
    (b'.', "64", &[], Status::Ok, LONG_SHOWN),
    (b'\n', "2", &[], Status::Ok, LONG_SHOWN),
    (b'\n', "64", &[307], Status::ReadFault, b""),
];

#[test]
fn long_captures_are_read_by_several_jobs(rt: HostRuntime) {
    for (byte, jobs, fails, status, shown) in LONG {
        let text = long_capture(&rt, byte);
        let ran = over(&rt, &["inspect", jobs], text.as_slice(), fails, &[]);
        let is_so = ran.status == status && ran.sink.taken() == shown;
        assert!(rt; is_so, "by {jobs} jobs");
    }
}
