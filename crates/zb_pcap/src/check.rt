//! The check sequence of a packet.
ghost use Rattle.std.specs.Prelude.{◌≡◌};
ghost use Rattle.zb_pcap.specs.CheckSequence.{check_sequence};

use zb_install::divide;

/// Computes the frame check sequence of the bytes of a packet (IEEE 802.15.4).
#[tactic(auto, unfolding(crate::specs::CheckSequence::check_sequence))]
pub fn fcs(bytes: &[u8]) -> u16
    ensures { result ≡ check_sequence bytes.now }
{
    divide(0, bytes)
}
