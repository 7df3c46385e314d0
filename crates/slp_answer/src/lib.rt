//! What is answered to a message: the bytes of the reply, and the line that tells of it.
#![tactic(auto)]

mod acknowledgements;
mod adverts;
mod calls;
mod gathering;
mod questions;
mod service_replies;
mod text_replies;

pub use acknowledgements::{AskedChange, acknowledge_heard, read_heard};
pub use calls::{acknowledge, reply, step};
pub use directory_questions::{Call, Heard, asked, is_change};
pub use gathering::{Begun, begin_asked, end_asked, takes_long};
pub use questions::{ReadQuestion, answer_heard};
pub use slp_replies::{
    Answer, Audit, Sent, ShortLine, ShortReply, audit_line, refusal, refused_line, refused_line_of,
    refused_reply, told_whole,
};
