//! What a line of the model is as text.
//!
//! A line of the model names a node by its EUI, and its text by the name that the node's own line gives. So a text is
//! that of lines and of declared nodes. `laws` says that a text fixes its lines, and that texts of lines follow each
//! other; `making` makes the program's lines, each with what it is in the model.
#![tactic(auto)]

mod answer;
mod laws;
mod making;

pub use answer::{Group, Teller, tell_answer, tell_stored};
pub use laws::{
    a_text_fixes_its_lines, each_line_is_said, names_lead_to_their_nodes, texts_follow_each_other,
};
pub use making::{
    accept_line, boot_line, change_line, commit_line, counter_line, disk_line, dump_line, end_line,
    forge_line, given_link_line, given_net_line, inject_line, node_line, refuse_line, reset_line,
    seal_line, send_line, stopped_line,
};
