//! What bytes ask of a directory, and what may be answered at a history: the verdict, the answer set,
//! the cut of a reply and what is silent.
#![tactic(auto)]

mod call;
mod fault;
mod heard;
mod query;
mod question;
mod reading;
mod request;
mod responders;

pub use call::Call;
pub use fault::decider_of;
pub use heard::Heard;
pub use query::{AgentQuery, AttrQuery, Authority, QueryFault, ServiceQuery, Target, TypeQuery};
pub use question::{Question, asked};
pub use reading::asked_change;
pub use request::{Request, is_change};
