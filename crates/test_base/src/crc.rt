//! Published remainders.
use zb_install::divide;

// The check values of the catalogue of CRCs over the nine digits: started with zeros (KERMIT), and started and ended
// with ones (X-25).
#[test]
fn published_check_values(rt: HostRuntime) {
    for (start, end, value) in [(0, 0, 0x2189), (0xffff, 0xffff, 0x906e)] {
        assert!(rt; divide(start, b"123456789") ^ end == value);
    }
}
