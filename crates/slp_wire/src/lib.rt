//! Messages of SLPv2 on the wire (RFC 2608, sections 7 to 10): what bytes spell, and the first fault
//! where they spell nothing.
#![tactic(auto)]

mod body;
mod extensions;
pub mod laws;
mod question;
mod reading;
mod writing;

pub use question::QuestionView;
pub use reading::{decode, read_change, read_question};
pub use slp_fields::{WireFault, append, entry_length, put_entry};
pub use slp_headers::{
    HeaderView, error_reply, flag, offset, read_header, reply_function, reply_opening, two_bytes,
};
pub use slp_messages::{
    AttributeReply, AttributeRequest, AttributeRequestView, Authority, AuthorityView, ChangeView,
    DirectoryAdvert, DirectoryAgent, ErrorCode, Flags, Header, Message, Registration, ServiceAgent,
    ServiceReply, ServiceRequest, ServiceRequestView, Tag, TypeReply, TypeRequest, TypeRequestView,
    UrlEntry, Withdrawal, code, function,
};
pub use writing::encode;
