//! The model of a Zigbee trust centre: what a transcript is, what a node's state is, what each node answers to each
//! event, and what we claim about whole runs. The crate has definitions (`specs/`) alone; the crates `law_*` have the
//! laws that hold for them.
#![tactic(auto)]
