//! Laws of sealing and opening. Each function here says a law and does nothing.

ghost use Rattle.std.specs.Prelude.{◌≡◌, ℕ, ◌≤◌, List, length, Some};
ghost use Rattle.zb_ccm.specs.Ccm.{opens, sealed};

/// States that what was sealed opens to the message.
pub fn a_sealed_message_opens()
    ensures { (key nonce associated message : List ℕ) (size : ℕ) → length key ≡ 16 → size ≤ 16
        → opens key nonce associated (sealed key nonce associated message size).text
        (sealed key nonce associated message size).mic ≡ Some message }
{}

/// States that what opens to a message is that message, sealed.
pub fn what_opens_was_sealed()
    ensures { (key nonce associated text mic message : List ℕ) → length key ≡ 16
        → opens key nonce associated text mic ≡ Some message
        → sealed key nonce associated message (length mic) ≡ record { text = text; mic = mic } }
{}
