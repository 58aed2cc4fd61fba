//! Worked schedules, each from its text to the schedule of the model whose run zb_model computes line for line.
//!
//! It is a crate of computed cases (`proofs/`), apart from law_schedules because each costs the checker seconds: CRC
//! and AES of install codes are computed from their definitions.
#![tactic(auto)]
