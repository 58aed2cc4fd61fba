//! The scribe of a run. It prints each line of a transcript as soon as it is known, and keeps of the lines what the
//! rest of the run needs. That is the frames on the air, how many draws are used, the counts and the words of the end.
//! It keeps no line, and where nobody reads the transcript it prints none.
#![tactic(auto)]

mod air;
mod laws;
mod page;
mod scribe;
mod transcript;

pub use air::Air;
pub use laws::{lines_are_told_in_turn, no_lines_are_told};
pub use page::Page;
pub use scribe::Scribe;
pub use transcript::Transcript;
