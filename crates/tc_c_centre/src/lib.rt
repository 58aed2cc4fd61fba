//! The centre for C, over the bytes of a store: a script or the lines of a session go in, the new bytes and an answer
//! come out.
//!
//! Each call is a function of what it is given. The caller stores the new bytes, and only then sends what the answer
//! says. The header is `include/tc.h`.
#![tactic(auto)]

mod admin;
mod fault;
mod live;
mod outside;
mod used;

pub use admin::tc_admin;
pub use fault::CallFault;
pub use live::tc_live;
pub use used::TcUsed;
