//! A session with a live trust centre: what each of its lines does, and what it writes.
//!
//! A session declares its network, opens the store, and then lets the centre handle events. What an event changes is
//! stored before anything that it writes is on the page. `specs/Living.antt` says what a line does.
#![tactic(auto)]

mod answer;
mod cause;
mod event;
mod fault;
mod feed;
mod line;
mod line_event;
mod question;
mod serving;
mod session;
mod telling;

pub use answer::{put_ok, put_refused};
pub use cause::Cause;
pub use fault::LiveFault;
pub use line::{Line, Log, read_line};
pub use question::Question;
pub use serving::live;
pub use session::Session;
