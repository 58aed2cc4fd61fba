//! Two pieces of a capture, and two shares of a campaign, really run at once. No contract says anything about a gate.
use crate::captures::{CAPTURE, JOIN, JOIN_REPORT, REPORT};
use crate::worked::FOUR_RUNS;
use std::sync::atomic::{AtomicU32, Ordering};
use std::test::Fail;
use zb_base::MemSink;
use zb_campaign::campaign;
use zb_capture::read_in_pieces;
use zb_inspect::report;
use zb_parallel::Gate;

/// A gate for two pieces, which holds the first pass of each phase until there was a second one.
///
/// Both must be passes of pieces that have passed once in each phase before, so they are of two pieces.
#[derive(Drop)]
struct Held {
    passed: AtomicU32,
    of_piece_0: AtomicU32,
    of_piece_1: AtomicU32,
    wrong: AtomicU32,
}

impl Held {
    fn new() -> Held {
        Held {
            passed: AtomicU32::new(0),
            of_piece_0: AtomicU32::new(0),
            of_piece_1: AtomicU32::new(0),
            wrong: AtomicU32::new(0),
        }
    }

    /// Counts a pass of a piece, and returns how many passes it had before.
    fn count(&self, piece: u32) -> u32 {
        match piece {
            0 => self.of_piece_0.fetch_add(1, Ordering::SeqCst),
            1 => self.of_piece_1.fetch_add(1, Ordering::SeqCst),
            _ => u32::MAX,
        }
    }

    /// Waits until there were more passes than `passes`, or gives up after a very long time.
    fn hold(&self, passes: u32) {
        for _turn in 0..1_000_000_000u32 {
            if self.passed.load(Ordering::SeqCst) > passes {
                return;
            }
        }
        self.wrong.store(1, Ordering::SeqCst);
    }

    /// Returns whether nothing went wrong, and each piece passed `times` times.
    fn each_passed(&self, times: u32) -> bool {
        self.wrong.load(Ordering::SeqCst) == 0
            && self.of_piece_0.load(Ordering::SeqCst) == times
            && self.of_piece_1.load(Ordering::SeqCst) == times
    }
}

impl Gate for Held {
    fn pass(&self, piece: u32) {
        let own = self.count(piece);
        let before = self.passed.fetch_add(1, Ordering::SeqCst);
        let phase = before / 2;
        if own != phase {
            self.wrong.store(1, Ordering::SeqCst);
        }
        if before % 2 == 0 {
            self.hold(before.saturating_add(1));
        }
    }
}

// Captures with reports of one round, two and three. Each piece passes once in each round, and once to be printed.
#[test]
fn two_pieces_run_at_once_in_each_phase(rt: HostRuntime) -> Result<(), Fail> {
    let captures: [(&[u8], &[u8], u32); 3] = [
        (
            b"frame 08\nframe 08\n",
            b"1 nwk malformed\n2 nwk malformed\nend 2 0 1\n",
            2,
        ),
        (CAPTURE, REPORT, 3),
        (JOIN, JOIN_REPORT, 4),
    ];
    for (text, shown, phases) in captures {
        let gate = Held::new();
        let capture = read_in_pieces(&rt, rt.alloc(), 2, &text[..text.len().min(4_096)])?;
        let mut sink = MemSink::new(rt.alloc(), 4_096, &[])?;
        report(&rt, rt.alloc(), &capture, 2, &gate, &mut sink)?;
        assert!(rt; sink.taken() == shown && gate.each_passed(phases));
    }
    Ok(())
}

#[test]
fn two_shares_of_a_campaign_run_at_once(rt: HostRuntime) -> Result<(), Fail> {
    let gate = Held::new();
    let mut sink = MemSink::new(rt.alloc(), 4_096, &[])?;
    campaign(&rt, rt.alloc(), 4, 0, 2, &gate, &mut sink)?;
    assert!(rt; sink.taken() == FOUR_RUNS && gate.each_passed(1));
    Ok(())
}
