//! Checks whether a transcript keeps the six claims about every run. The answer is the first bad line and the claim
//! that it breaks, or that the transcript is sound.
//!
//! An audit reads only the lines, whoever wrote them. It never asks what this program would have done. A line is bad
//! if it breaks one of six claims:
//!
//! 1. No nonce is used twice.
//! 2. No counter is accepted twice.
//! 3. Only stored keys are confirmed.
//! 4. Counters are those that the lines before require.
//! 5. Removed devices are locked out.
//! 6. The end line sums up.
#![tactic(auto)]

mod auditor;
mod confirming;
mod ending;
mod fault;
mod laws;
mod nonces;
mod numbers;
mod taking;
mod words;

pub use auditor::{Auditor, audit};
pub use confirming::{Confirming, LinkRow};
pub use ending::Ending;
pub use fault::{AuditFault, BadLine, Verdict};
pub use laws::confirmable_seals_are_of_stored_keys;
pub use nonces::{Nonces, Stamp};
pub use taking::{Channel, Taking};
pub use words::{ideal, private};
