//! One reply and the line that tells of it: how each is written, whatever directory answers.
#![tactic(auto)]

mod adverts;
mod answer;
mod audit;
mod copies;
mod octets;
mod refusals;
mod replies;
mod sink;
mod text_lists;
mod texts;

pub use answer::{Answer, Sent, told_whole};
pub use copies::{Audit, audit_line};
pub use refusals::{ShortReply, refusal, refused_line, refused_line_of, refused_reply};
pub use replies::{Reply, is_unsent};
pub use sink::ShortLine;
pub use text_lists::Form;
pub use texts::{AttributeTexts, Texts};
