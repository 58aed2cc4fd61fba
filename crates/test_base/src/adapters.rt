//! The adapters over readers and writers of std, which promise nothing about these, also over readers and writers
//! that fail.
use std::io::{Cursor, Error, ErrorKind, Read, Write};
use zb_base::{Failed, Sink, Source, StdSink, StdSource};

/// A reader whose every call fails.
#[derive(Drop)]
struct Broken;

impl Read for Broken {
    fn read(&mut self, _buf: &mut [u8]) -> std::io::Result<usize> {
        Err(Error::from(ErrorKind::Other))
    }
}

/// A writer that takes one byte in each call as long as it has room, and then none.
#[derive(Drop)]
struct Narrow {
    room: u32,
}

impl Write for Narrow {
    fn write(&mut self, buf: &[u8]) -> std::io::Result<usize> {
        if self.room == 0 || buf.is_empty() {
            return Ok(0);
        }
        self.room -= 1;
        Ok(1)
    }

    fn flush(&mut self) -> std::io::Result<()> {
        Err(Error::from(ErrorKind::Other))
    }
}

#[test]
fn an_adapter_reads_what_its_reader_gives(rt: HostRuntime) {
    let mut source = StdSource::new(Cursor::new(b"abc".as_slice()));
    // How many of the two requested bytes are read, and what the buffer then has.
    for (count, bytes) in [(2, b"ab"), (1, b"c\0"), (0, b"\0\0")] {
        let mut buf = [0; 2];
        assert!(rt; source.read(&mut buf) == Ok(count) && buf == *bytes);
    }
    assert!(rt; StdSource::new(Broken).read(&mut [0; 2]) == Err(Failed));
}

// Pieces, of which the last exceeds the room, and whether each is written.
const PIECES: [(&[u8], bool); 3] = [(b"abc", true), (b"", true), (b"de", false)];

#[test]
fn an_adapter_writes_the_whole_piece_or_fails(rt: HostRuntime) {
    let mut sink = StdSink::new(Narrow { room: 4 });
    for (piece, is_taken) in PIECES {
        assert!(rt; sink.write(piece).is_ok() == is_taken);
    }
    assert!(rt; sink.flush() == Err(Failed));
}
