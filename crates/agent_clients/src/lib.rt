//! The two clients: what a user agent asks, and what a service agent keeps registered.
#![tactic(auto)]

mod asker;
mod asking;
mod fault;
mod items;
mod keeping;
mod leases;
mod outside;
mod replies;
mod requests;
mod service_agent;
mod sockets;
mod user_agent;
mod wire;

pub use asking::ask;
pub use fault::ClientFault;
pub use items::Items;
pub use keeping::keep_alive;
pub use requests::{
    RequestHeader, attribute_request, registration, service_request, type_request, withdrawal,
};
pub use service_agent::ServiceAgent;
pub use user_agent::{Event, Step, UserAgent};
