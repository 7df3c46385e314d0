//! Bodies of messages on the wire, by family (RFC 2608, sections 8 to 10): each is read, and its fields are listed.
#![tactic(auto)]

mod adverts;
mod attributes;
mod registrations;
mod replies;
mod services;
mod types;

pub use adverts::{
    directory_advert_of, directory_agent_fields, service_agent_fields, service_agent_of,
};
pub use attributes::{
    attribute_reply_of, attribute_request_fields, attribute_request_of, attribute_request_view_of,
    attributes_fields,
};
pub use registrations::{
    registration_fields, registration_of, registration_view_of, withdrawal_fields, withdrawal_of,
    withdrawal_view_of,
};
pub use replies::refusal_fields;
pub use services::{
    service_reply_of, service_request_fields, service_request_of, service_request_view_of,
    services_fields,
};
pub use types::{
    type_reply_of, type_request_fields, type_request_of, type_request_view_of, types_fields,
};
