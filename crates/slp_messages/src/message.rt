ghost use Rattle.std.specs.Prelude.{◌≡◌, ◌<◌};

use crate::header::Header;
use slp_text::{Row, Text};
use std::marker::Model;

/// A URL and how long it is registered (RFC 2608, section 4.3).
pub struct UrlEntry {
    /// In seconds.
    pub lifetime: u16,
    pub url: Text,
}

impl Drop for UrlEntry {
    #[inline(always)]
    fn drop(self) {
        let UrlEntry {
            lifetime: _,
            url: _,
        } = self;
    }
}

/// SrvRqst, function 1 (RFC 2608, section 8.1).
pub struct ServiceRequest {
    /// The addresses of those who answered already, joined by commas.
    pub responders: Text,
    pub kind: Text,
    pub scopes: Text,
    pub predicate: Text,
}

impl Drop for ServiceRequest {
    #[inline(always)]
    fn drop(self) {
        let ServiceRequest {
            responders: _,
            kind: _,
            scopes: _,
            predicate: _,
        } = self;
    }
}

/// An error code that is not 0 (RFC 2608, section 7). Contracts see the number.
#[derive(Drop)]
pub struct ErrorCode {
    code: u16,
}

impl Model for ErrorCode {
    ghost use Rattle.std.specs.Prelude.{ℕ, ◌<◌};

    ghost Value = { ℕ };

    ghost view = { λ a. a.code };

    ghost invariant = { λ a. 0 < a.code };
}

impl ErrorCode {
    /// The code of this number.
    pub fn new(code: u16) -> ErrorCode
        requires { 0 < code }
        ensures { result ≡ code }
    {
        ErrorCode { code }
    }

    /// The number of the code.
    pub fn get(&self) -> u16
        ensures value { result ≡ self.now }
        ensures nonzero { 0 < result }
    {
        self.code
    }
}

/// SrvRply, function 2 (RFC 2608, section 8.2). After an error code nothing is kept.
#[derive(Drop)]
pub enum ServiceReply {
    Found(Row<UrlEntry>),
    Refused(ErrorCode),
}

/// SrvReg, function 3 (RFC 2608, section 8.3).
pub struct Registration {
    pub entry: UrlEntry,
    pub kind: Text,
    pub scopes: Text,
    pub attributes: Text,
}

impl Drop for Registration {
    #[inline(always)]
    fn drop(self) {
        let Registration {
            entry: _,
            kind: _,
            scopes: _,
            attributes: _,
        } = self;
    }
}

/// SrvDeReg, function 4 (RFC 2608, section 10.6).
pub struct Withdrawal {
    pub scopes: Text,
    pub entry: UrlEntry,
    /// The tags that are withdrawn; where there is none, the URL is.
    pub tags: Text,
}

impl Drop for Withdrawal {
    #[inline(always)]
    fn drop(self) {
        let Withdrawal {
            scopes: _,
            entry: _,
            tags: _,
        } = self;
    }
}

/// AttrRqst, function 6 (RFC 2608, section 10.3).
pub struct AttributeRequest {
    /// The addresses of those who answered already, joined by commas.
    pub responders: Text,
    /// A service type, or a URL.
    pub subject: Text,
    pub scopes: Text,
    /// The tags that are asked for; where there is none, all are.
    pub tags: Text,
}

impl Drop for AttributeRequest {
    #[inline(always)]
    fn drop(self) {
        let AttributeRequest {
            responders: _,
            subject: _,
            scopes: _,
            tags: _,
        } = self;
    }
}

/// AttrRply, function 7 (RFC 2608, section 10.4). After an error code nothing is kept.
#[derive(Drop)]
pub enum AttributeReply {
    /// An attribute list.
    Found(Text),
    Refused(ErrorCode),
}

/// What a directory agent says of itself (RFC 2608, section 8.5).
#[derive(Drop)]
pub struct DirectoryAgent {
    /// When it began, in seconds of its own clock; 0 where it ends.
    pub boot: u32,
    pub url: Text,
    pub scopes: Text,
    pub attributes: Text,
    /// The security parameter indices that it understands, joined by commas.
    pub indices: Text,
}

/// DAAdvert, function 8 (RFC 2608, section 8.5). After an error code nothing is kept.
#[derive(Drop)]
pub enum DirectoryAdvert {
    Present(DirectoryAgent),
    Refused(ErrorCode),
}

/// Whose service types are asked for (RFC 2608, section 10.1).
pub enum Authority {
    /// Those of every naming authority.
    All,
    /// Those of this one; where it is empty, those without one.
    Named(Text),
}

impl Drop for Authority {
    #[inline(always)]
    fn drop(self) {
        match self {
            Authority::All => {}
            Authority::Named(_) => {}
        }
    }
}

/// SrvTypeRqst, function 9 (RFC 2608, section 10.1).
pub struct TypeRequest {
    /// The addresses of those who answered already, joined by commas.
    pub responders: Text,
    pub authority: Authority,
    pub scopes: Text,
}

impl Drop for TypeRequest {
    #[inline(always)]
    fn drop(self) {
        let TypeRequest {
            responders: _,
            authority: _,
            scopes: _,
        } = self;
    }
}

/// SrvTypeRply, function 10 (RFC 2608, section 10.2). After an error code nothing is kept.
#[derive(Drop)]
pub enum TypeReply {
    /// Service types, joined by commas.
    Found(Text),
    Refused(ErrorCode),
}

/// SAAdvert, function 11 (RFC 2608, section 8.6).
pub struct ServiceAgent {
    pub url: Text,
    pub scopes: Text,
    pub attributes: Text,
}

impl Drop for ServiceAgent {
    fn drop(self) {
        let ServiceAgent {
            url: _,
            scopes: _,
            attributes: _,
        } = self;
    }
}

/// A message (RFC 2608, section 8) with what its header keeps. Texts are as they were written.
#[derive(Drop)]
pub enum Message {
    ServiceRequest(Header, ServiceRequest),
    ServiceReply(Header, ServiceReply),
    Registration(Header, Registration),
    Withdrawal(Header, Withdrawal),
    /// SrvAck, function 5 (RFC 2608, section 8.4), with its code, which may be 0.
    Acknowledgement(Header, u16),
    AttributeRequest(Header, AttributeRequest),
    AttributeReply(Header, AttributeReply),
    DirectoryAdvert(Header, DirectoryAdvert),
    TypeRequest(Header, TypeRequest),
    TypeReply(Header, TypeReply),
    ServiceAdvert(Header, ServiceAgent),
}
