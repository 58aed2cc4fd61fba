//! Scripts for a centre's store: the network, and what is to be done with the store, one command a line. `read` takes
//! exactly the texts that are scripts, and reports of others the first bad line and why. A `Draft` takes the lines of
//! the network one by one.
//!
//! A script has a line `centre NAME EUI OUT IN`, then lines `peer NAME ROLE EUI SHORT`, then commands: `init KEY`,
//! `provision NAME HEX`, `remove NAME via PARENT`, `list`, `backup`, `restore SKIP JSON`. Empty lines and lines that
//! begin with `#` are skipped, and count as lines.
#![tactic(auto)]

mod draft;
mod error;
mod line;
mod reader;
mod script;

pub use draft::Draft;
pub use error::{ScriptCause, ScriptError};
pub use line::{Line, read_line};
pub use reader::read;
pub use script::{Order, Script, Step};
pub use zb_event::{Said, Unresolved, resolve};
