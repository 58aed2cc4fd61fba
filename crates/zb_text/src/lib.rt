//! Texts in lines of words, for example schedules, transcripts, captures and scripts. The crate has a reader of lines
//! and words, the words that these texts share, and printers of these words.
//!
//! A line ends with a line feed, and one carriage return before that is dropped; the last line may lack the line
//! feed. Words are separated by one space.
#![tactic(auto)]

pub mod choices;
pub mod fields;
pub mod hexadecimal;
mod laws;
pub mod lines;
pub mod numbers;
pub mod page;
pub mod words;

pub use laws::{
    printed_bytes_read, printed_choices_read, printed_digits_read, printed_eui_reads,
    printed_lines_read, printed_name_reads, printed_number_reads, printed_short_reads,
    printed_words_read,
};
