//! The answers to the lines of a script, as bytes.
//!
//! Each call pushes one answer with its newline behind what a buffer holds; the machine of scripts calls them.
#![tactic(auto)]

mod answers;
mod event_answers;
mod names;
mod replies;

pub use answers::{
    push_access_made, push_answer, push_begun, push_gone, push_got, push_refused, push_step,
    push_words,
};
pub use event_answers::{push_event_asked, push_event_step, push_expired};
