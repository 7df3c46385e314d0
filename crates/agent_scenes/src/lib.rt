//! The scenes of rows against the server and the client: what each row does, and what is printed of it. `CONTRIBUTING.md` has the rows, and
//! `agent_rows` runs the server that they meet.
#![tactic(auto)]

mod fake;
mod handed;
mod kinds;
mod loops;
mod meeting;
mod printing;
mod props;
mod scene;
mod sockets;
mod terminal;
mod words;

pub use handed::Handed;
pub use meeting::Meeting;
pub use props::Props;
pub use scene::{CONFIG, PATIENT, Scene};
pub use terminal::{Terminal, open_terminal};
pub use words::words_of;
