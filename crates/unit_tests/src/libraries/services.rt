use crate::tables::{Asking, Question, assert_table};
use service_url::{ServiceType, Url, UrlFault, parse_authority};
use slp_text::NoMemory;
use std::alloc::Global;

#[derive(Clone, Copy)]
struct Services;

// A type, its authority, and whether it covers another.
fn print_type(alloc: Global, text: &str, other: &str, out: &mut String) -> Result<(), UrlFault> {
    let kind = ServiceType::parse(alloc, text)?;
    let other = ServiceType::parse(alloc, other)?;
    let covers = if kind.covers(&other) { "yes" } else { "no" };
    let authority = kind.authority().unwrap_or("none");
    match write!(out, "{} {authority} {covers}", kind.text()) {
        Ok(()) => Ok(()),
        Err(_) => Err(UrlFault::NoMemory),
    }
}

fn print_authority(alloc: Global, text: &str, out: &mut String) -> Result<(), UrlFault> {
    let authority = parse_authority(alloc, text)?;
    Ok(put(out, authority.as_str())?)
}

fn print_url(alloc: Global, text: &str, out: &mut String) -> Result<(), UrlFault> {
    let url = Url::parse(alloc, text)?;
    Ok(put(out, url.text())?)
}

fn put(out: &mut String, text: &str) -> Result<(), NoMemory> {
    Ok(out.push_str(text)?)
}

impl Asking for Services {
    type Fault = UrlFault;

    fn print(self, alloc: Global, row: Question<'_>, out: &mut String) -> Result<(), UrlFault> {
        match row.word {
            "type" => print_type(alloc, row.text, row.beside, out),
            "authority" => print_authority(alloc, row.text, out),
            _ => print_url(alloc, row.text, out),
        }
    }
}

// Types with another beside them: how they are kept, their authority and whether they cover the other. Authorities and URLs,
// of which the longest has 1,024 bytes.
const TABLE: &str = "
type¦ SERVICE:Printer: ¦x¦service:printer none no
type¦service:printer¦x¦service:printer none no
type¦service:printer:lpr¦x¦service:printer:lpr none no
type¦service:a.b:c.d¦x¦service:a.b:c.d b no
type¦HTTP¦x¦http none no
type¦ http.Acme ¦x¦http.acme acme no
type¦service:a..b¦x¦service:a..b .b no
type¦http.ACME¦x¦http.acme acme no
type¦service:a.¦x¦service:a. none no
type¦service:a:c.d¦x¦service:a:c.d none no
type¦service:a¦x¦service:a none no
type¦http¦x¦http none no
authority¦Acme¦¦acme
authority¦-x.¦¦-x.
type¦service:printer¦service:printer¦service:printer none yes
type¦service:printer¦service:printer:lpr¦service:printer none yes
type¦service:printer¦service:printer:ipp¦service:printer none yes
type¦service:printer¦service:print¦service:printer none no
type¦service:print¦service:printer¦service:print none no
type¦service:print¦service:printer:lpr¦service:print none no
type¦service:printer:lpr¦service:printer:lpr¦service:printer:lpr none yes
type¦service:printer:lpr¦service:printer¦service:printer:lpr none no
type¦service:printer:lpr¦service:printer:ipp¦service:printer:lpr none no
url¦service:printer:lpr://A¦¦service:printer:lpr://A
url¦service:printer:lpr://a/<<1000 b>>¦¦service:printer:lpr://a/<<1000 b>>
type¦¦x¦! BadType
type¦http:¦x¦! BadType
type¦-http¦x¦! BadType
type¦service:¦x¦! BadType
type¦service:-a¦x¦! BadType
type¦service:a:b:¦x¦! BadType
type¦service:a::¦x¦! BadType
type¦service:a b¦x¦! BadType
authority¦¦¦! BadType
authority¦ ¦¦! BadType
authority¦a:b¦¦! BadType
url¦¦¦! BadUrl
url¦x¦¦! BadUrl
url¦ a:b¦¦! BadUrl
url¦a:b c¦¦! BadUrl
url¦1:b¦¦! BadUrl
url¦a:\u{7f}¦¦! BadUrl
url¦service:printer:lpr://a/<<1001 b>>¦¦! TooLong
";

#[test]
fn types_and_urls_are_read(rt: HostRuntime) {
    assert_table(&rt, rt.alloc(), Services, TABLE);
}
