//! Headers of messages (RFC 2608, section 8): reading one where it lies, and the replies that are a header and a code.
//! Nothing here takes memory.
#![tactic(auto)]

mod beginning;
pub mod flag;
pub mod laws;
pub mod offset;
mod reading;
mod reply;
mod view;

pub use beginning::{VERSION, opening, two_bytes};
pub use reading::read_header;
pub use reply::{error_reply, reply_function, reply_opening};
pub use view::HeaderView;
