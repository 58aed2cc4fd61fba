//! Taking the whole input of a command, or ending with the status of why it can't be had.

/// Gives the whole input, or returns the status of why it isn't known whole.
macro_rules! whole_input {
    ($alloc:expr, $input:expr) => {
        match zb_input::read_input($alloc, $input) {
            Ok(bytes) => bytes,
            Err(zb_input::InputFault::Read) => return $crate::status::Status::ReadFault,
            Err(zb_input::InputFault::TooLong) => {
                return $crate::status::Status::TooLong {
                    limit: zb_input::LONGEST,
                };
            }
            Err(zb_input::InputFault::NoMemory) => return $crate::status::Status::NoMemory,
        }
    };
}

pub(crate) use whole_input;
