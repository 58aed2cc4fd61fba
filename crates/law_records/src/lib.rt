//! That tables come back from their record: what `from_record` makes of the bytes that `record_bytes` wrote.
#![tactic(auto)]

mod again;
mod widths;

pub use again::{a_record_is_read_as_its_tables, written_and_read};
pub use widths::tables_fit_a_record;
