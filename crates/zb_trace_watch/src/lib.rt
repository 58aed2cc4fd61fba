//! Finds the two words of a transcript's end line, line by line. The words say whether everything accepted or
//! installed came from earlier terms, and whether outsiders forged only with what they may know. It keeps only what
//! these words need, and no line.
//!
//! `EndWords` serves every way to read lines: the caller says which node a line has. `Watch` reads the lines of a
//! run, by EUIs.
#![tactic(auto)]

mod carrying;
pub mod exposure;
pub mod holdings;
pub mod keys;
mod laws;
pub mod nodes;
pub mod origins;
pub mod passing;
pub mod speaker;
pub mod terms;
pub mod watch;
pub mod words;

pub use carrying::carried_key;
pub use speaker::{NOBODY, Speaker};
pub use watch::Watch;
pub use words::EndWords;
