//! DAAdvert and SAAdvert, functions 8 and 11 (RFC 2608, sections 8.5 and 8.6).
ghost use Rattle.std.specs.Prelude.{◌≡◌, ◌++◌};
ghost use Rattle.std.specs.List.{AllByRecursion};
ghost use Rattle.byteorder.specs.Endian.{big_bytes};
ghost use Rattle.slp_messages.specs.Layouts as layout;
ghost use Rattle.slp_messages.specs.Layouts.{FitsLayout};
ghost use Rattle.slp_fields.specs.Reading.{layout_at};
ghost use Rattle.slp_fields.specs.Spelling.{layout_bytes};
ghost use Rattle.slp_fields.specs.Steps.{Gives};
ghost use Rattle.slp_fields.specs.Writing.{fields_bytes, IsField};
ghost use Rattle.slp_bodies.specs.Bodies.{directory_advert_at, service_agent_at};

use crate::replies::after_code;
use slp_fields::{Field, WireFault, after_no_block, long_of, number_of, text_of};
use slp_messages::{DirectoryAdvert, DirectoryAgent, ErrorCode, Kind, ServiceAgent, code};
use std::alloc::Global;

fn directory_agent_of(alloc: Global, bytes: &[u8]) -> Result<(DirectoryAgent, &[u8]), WireFault>
    ensures { Gives (λ x. (x.0, x.1.now)) result (layout_at layout.directory_agent bytes.now) }
{
    let (boot, rest) = long_of(bytes)?;
    let (url, rest) = text_of(alloc, rest)?;
    let (scopes, rest) = text_of(alloc, rest)?;
    let (attributes, rest) = text_of(alloc, rest)?;
    let (indices, rest) = text_of(alloc, rest)?;
    let rest = after_no_block(rest)?;
    let agent = DirectoryAgent {
        boot,
        url,
        scopes,
        attributes,
        indices,
    };
    Ok((agent, rest))
}

/// Reads a directory agent's advert. So many bytes at the end are not part of it.
#[tactic(auto, unfolding(crate::specs::Bodies::directory_advert_at))]
pub fn directory_advert_of(
    alloc: Global,
    tail: usize,
    bytes: &[u8],
) -> Result<(DirectoryAdvert, &[u8]), WireFault>
    ensures { Gives (λ x. (x.0, x.1.now)) result (directory_advert_at tail bytes.now) }
{
    let (code, rest) = number_of(bytes)?;
    if code != code::OK {
        let kinds = [
            Kind::Long,
            Kind::Text,
            Kind::Text,
            Kind::Text,
            Kind::Text,
            Kind::NoBlock,
        ];
        let rest = after_code(&kinds, tail, rest)?;
        return Ok((DirectoryAdvert::Refused(ErrorCode::new(code)), rest));
    }
    let (agent, rest) = directory_agent_of(alloc, rest)?;
    Ok((DirectoryAdvert::Present(agent), rest))
}

/// The fields of an advert of this agent.
pub fn directory_agent_fields(agent: &DirectoryAgent) -> [Field<'_>; 7]
    ensures bytes { fields_bytes result ≡ big_bytes 2 0 ++ layout_bytes layout.directory_agent agent.now }
    ensures sound { AllByRecursion IsField result → FitsLayout layout.directory_agent agent.now }
{
    [
        Field::Number(code::OK),
        Field::Long(agent.boot),
        Field::Text(&agent.url),
        Field::Text(&agent.scopes),
        Field::Text(&agent.attributes),
        Field::Text(&agent.indices),
        Field::NoBlock,
    ]
}

/// Reads a service agent's advert.
#[tactic(auto, unfolding(crate::specs::Bodies::service_agent_at))]
pub fn service_agent_of(alloc: Global, bytes: &[u8]) -> Result<(ServiceAgent, &[u8]), WireFault>
    ensures { Gives (λ x. (x.0, x.1.now)) result (service_agent_at bytes.now) }
{
    let (url, rest) = text_of(alloc, bytes)?;
    let (scopes, rest) = text_of(alloc, rest)?;
    let (attributes, rest) = text_of(alloc, rest)?;
    let rest = after_no_block(rest)?;
    let agent = ServiceAgent {
        url,
        scopes,
        attributes,
    };
    Ok((agent, rest))
}

/// The fields of an advert of this agent.
pub fn service_agent_fields(service: &ServiceAgent) -> [Field<'_>; 4]
    ensures bytes { fields_bytes result ≡ layout_bytes layout.service_agent service.now }
    ensures sound { AllByRecursion IsField result → FitsLayout layout.service_agent service.now }
{
    [
        Field::Text(&service.url),
        Field::Text(&service.scopes),
        Field::Text(&service.attributes),
        Field::NoBlock,
    ]
}
