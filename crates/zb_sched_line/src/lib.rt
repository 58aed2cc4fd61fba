//! The lines of a schedule, one by one: what a line says, how it is read and how it is printed. What lines may stand
//! together is judged in `zb_sched`.
#![tactic(auto)]

mod codes;
mod declarations;
mod event;
mod events;
mod fields;
mod forge;
mod laws;
mod line;
mod print;
mod print_event;
mod print_forged;

pub use event::Event;
pub use laws::printed_line_reads;
pub use line::{Line, read_line, read_own_event};
pub use print::{put_code, put_counter, put_draw, put_netkey, put_node};
pub use print_event::put_event;
