//! The printed text of schedules and of a transcript's line. The expected texts were written by hand from the page of
//! formats; the install code is published.

use std::process::Abort;
use std::test::Fail;
use zb_base::{Eui, Key, Layer, MemSink, Name};
use zb_sched::{read, write};
use zb_trace::{Line, text, write_line};

/// A schedule with each form of line once, as it is printed.
const ALL_FORMS: &[u8] = b"node c centre 00124B0000000001 0000 8 4
node d device 00124B0000000002 1A2B 65536 1024
node r router 00124B0000000003 3C4D 1 1
code d 83FED3407A939723A5C639B26916D505C3B5
netkey c 000102030405060708090A0B0C0D0E0F 0
netkey r 000102030405060708090A0B0C0D0E0F 255
counter c nwk 4294967295
counter r nwk 1
counter r aps 2
draw A0A1A2A3A4A5A6A7A8A9AAABACADAEAF
say c FFFF -
deliver 1 d
timer c
knock d
rejoin r
child c d join
child r d rejoin
provision d 83FED3407A939723A5C639B26916D505C3B5
again d
roll
switch
remove d via c
remove d via r
reset c
boot c
dump d
stop d 5 -
fail d 6
inject 00
forge 0000 1A2B 00124B0000000002 net 000102030405060708090A0B0C0D0E0F 0 50 00
forge 0000 1A2B 00124B0000000002 net 000102030405060708090A0B0C0D0E0F 255 4294967295 aps data \
A0A1A2A3A4A5A6A7A8A9AAABACADAEAF 50 0804
forge FFFF FFFF 00124B00000000FF open aps load A0A1A2A3A4A5A6A7A8A9AAABACADAEAF 0 0804
ask d r
share d r
tell r d 0102
";

/// A schedule in another order, with comments, letters of both cases and a counter of 0.
const ANY_ORDER: &[u8] = b"# any order of declarations, either case, and a counter of 0
draw a0a1a2a3a4a5a6a7a8a9aaabacadaeaf
node r router 00124b0000000003 3c4d 8 4\r
counter r aps 7
netkey r 000102030405060708090A0B0C0D0E0F 0

node c centre 00124B0000000001 0000 8 4
counter c nwk 0
counter r nwk 4
netkey c 000102030405060708090A0B0C0D0E0F 0";

/// The same as it is printed.
const ONE_ORDER: &[u8] = b"node r router 00124B0000000003 3C4D 8 4
node c centre 00124B0000000001 0000 8 4
netkey r 000102030405060708090A0B0C0D0E0F 0
netkey c 000102030405060708090A0B0C0D0E0F 0
counter r nwk 4
counter r aps 7
draw A0A1A2A3A4A5A6A7A8A9AAABACADAEAF
";

#[test]
fn schedules_are_read_and_printed(rt: HostRuntime) -> Result<(), Fail> {
    for (text, printed) in [(ALL_FORMS, ALL_FORMS), (ANY_ORDER, ONE_ORDER)] {
        let schedule = read(rt.alloc(), &text[..text.len().min(4_096)])?;
        let mut sink = MemSink::new(rt.alloc(), 4_096, &[])?;
        write(rt.alloc(), &schedule, &mut sink)?;
        assert!(rt; sink.taken() == printed);
    }
    Ok(())
}

#[test]
fn a_line_has_its_text(rt: HostRuntime) -> Result<(), Fail> {
    let line = Line::Floor {
        event: 12,
        node: Name::from("d1").expect(&rt, "a name"),
        layer: Layer::Nwk,
        key: Key([0xA5; 16]),
        sender: Eui(0x0012_4B00_0000_0001),
        value: 6,
    };
    let wanted = b"12 floor d1 nwk A5A5A5A5A5A5A5A5A5A5A5A5A5A5A5A5 00124B0000000001 6\n";
    assert!(rt; text(rt.alloc(), &line)?.as_slice() == wanted.as_slice());
    let mut sink = MemSink::new(rt.alloc(), 4_096, &[])?;
    write_line(&mut Vec::new(rt.alloc()), &mut sink, &line)?;
    assert!(rt; sink.taken() == wanted.as_slice());
    Ok(())
}
