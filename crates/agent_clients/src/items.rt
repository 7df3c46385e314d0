use slp_text::{Row, Text};
use slp_wire::UrlEntry;

/// What a reply of code 0 holds, its texts as the reply spells them.
#[derive(Drop)]
pub enum Items {
    /// The URLs of a service reply, each with the seconds that are left of its lifetime.
    Urls(Row<UrlEntry>),
    /// The attribute list of an attribute reply.
    Attributes(Text),
    /// The service types of a type reply, joined by commas.
    Types(Text),
    /// A registration or a withdrawal was accepted.
    Acknowledged,
    /// A directory agent tells of itself: its URL, and the scopes that it supports.
    Advert { url: Text, scopes: Text },
}
