//! Finds where a transcript, whoever wrote it, first breaks lockout.
//!
//! Lockout has two parts. A removed device that isn't admitted again obtains no key that is drawn later. A node that
//! holds no network key that outsiders may know accepts in the network layer neither what a removed device sealed
//! since its removal nor what was forged. `Lockout` keeps what this needs of the lines so far, and no line.
#![tactic(auto)]

mod back;
mod bags;
mod before;
mod evidence;
mod fact;
mod groups;
mod levels;
mod lockout;
mod numbers;
mod opened;
mod past;
mod reach;
mod shown;
mod spread;
mod windows;

pub use lockout::Lockout;
