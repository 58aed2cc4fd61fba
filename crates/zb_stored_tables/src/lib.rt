//! Tables over a store: what a core over them needs.
#![tactic(auto)]

mod entry;
mod law;
mod restore;
mod stored;

pub use crate::entry::{change_bytes, hold_ranges};
pub use crate::law::{
    a_boot_gives_the_tables_again, a_core_of_setting_and_tables_keeps_the_law,
    a_core_over_tables_keeps_the_law, a_reserve_makes_room, changes_keep_to_the_widths,
    few_changes_fit_an_entry, what_bytes_give_is_kept, what_is_in_memory_alone_is_not_recorded,
    what_is_read_fits_a_record, what_is_read_has_these_bytes_as_its_record,
    what_is_read_is_in_range,
};
pub use crate::stored::StoredTables;
