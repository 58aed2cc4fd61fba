//! What a frame shows under the keys of a ring: what each of its layers is, and which key opens it. The keys that
//! opened contents carry and the lines of a report on the frame are here too.
#![tactic(auto)]

mod addresses;
mod carried;
mod further;
mod layer;
mod lines;
mod settled;
mod shown;

pub use addresses::Addresses;
pub use carried::{Carried, carried_keys};
pub use further::{show_below, stays_closed};
pub use layer::Finding;
pub use lines::{put_frames, put_unopened};
pub use settled::{is_settled, is_unopened};
pub use shown::{Below, Shown, show};
