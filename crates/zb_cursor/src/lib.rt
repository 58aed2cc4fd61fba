//! Fields of bytes, read and written: a `Reader` that takes fields from the start of bytes, and writing at the end of
//! a frame of 127 bytes.
//!
//! Numbers are least significant byte first.
#![tactic(auto)]

mod bits;
mod laws;
mod reader;
mod whole;
mod writing;

pub use bits::has_bit;
pub use laws::spelled_is_read;
pub use reader::Reader;
pub use whole::read_whole;
pub use writing::{
    TooLong, fill, frame_from, put, put_byte, put_eui, put_key, put_number16, put_number32,
    put_optional_byte, put_optional_eui, put_optional_number16, put_short, put_shorts,
};
