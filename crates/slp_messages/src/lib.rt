//! Messages of SLPv2 as values (RFC 2608, sections 8 to 10): what they hold, and the layout of each. Their bytes are
//! the codec's.
#![tactic(auto)]

pub mod code;
pub mod function;
mod header;
mod kind;
mod message;
mod views;

pub use header::{Flags, Header, Tag};
pub use kind::Kind;
pub use message::{
    AttributeReply, AttributeRequest, Authority, DirectoryAdvert, DirectoryAgent, ErrorCode,
    Message, Registration, ServiceAgent, ServiceReply, ServiceRequest, TypeReply, TypeRequest,
    UrlEntry, Withdrawal,
};
pub use views::{
    AttributeRequestView, AuthorityView, ChangeView, EntryView, KeptHeader, RegistrationView,
    ServiceRequestView, TypeRequestView, WithdrawalView,
};
