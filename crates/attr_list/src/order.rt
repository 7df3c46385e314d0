//! The order of the values of a tag.
ghost use Rattle.std.specs.Prelude.{◌≡◌, ◌≤◌, true, length, map, IfOk};
ghost use Rattle.std.specs.List.{range_with_len};
ghost use Rattle.attr_list.specs.Gathering.{AreInOrder, AreRanked};
ghost use Rattle.attr_list.specs.Lists.{distinct_values};
ghost use Rattle.attr_list.specs.Orders.{value_at, IsOrder};

use crate::distinct::{Identity, identity_of};
use attr_values::Value;
use slp_text::NoMemory;
use std::alloc::Global;

/// What a value has in common with those that are the same, and its place.
#[derive(Drop)]
pub struct Ranked {
    pub identity: Identity,
    pub place: u16,
}

// Each value's identity, with its place.
fn identities(alloc: Global, values: &[Value]) -> Result<Vec<Ranked>, NoMemory>
    requires { length values.now ≤ 65536 }
    ensures ranked { IfOk result (λ r. AreRanked values.now r.items) }
    ensures places { IfOk result (λ r. map (λ a. a.place) r.items ≡ range_with_len 0 (length values.now)) }
{
    let mut ranked = Vec::with_capacity(alloc, values.len())?;
    for place in 0..values.len() {
        let identity = identity_of(alloc, &values[place])?;
        let place = place as u16;
        ranked.push(Ranked { identity, place })?;
    }
    Ok(ranked)
}

/// Each value's identity, with its place: the least value's first. And whether it was seen that no two are the same.
pub fn ranked_in_order(alloc: Global, values: &[Value]) -> Result<(Vec<Ranked>, bool), NoMemory>
    requires { length values.now ≤ 65536 }
    ensures order { IfOk result (λ r. AreInOrder values.now r.0.items) }
    ensures apart { IfOk result (λ r. r.1 ≡ true → distinct_values values.now ≡ values.now) }
{
    let mut ranked = identities(alloc, values)?;
    ranked.sort_unstable_by(|a, b| a.identity.cmp(&b.identity));
    let are_apart = ranked.is_sorted_by(|a, b| a.identity.cmp(&b.identity).is_lt());
    Ok((ranked, are_apart))
}

/// Their places.
pub fn places(alloc: Global, ranked: &[Ranked]) -> Result<Vec<u16>, NoMemory>
    ensures { IfOk result (λ p. p.items ≡ map (λ a. a.place) ranked.now) }
{
    let mut places = Vec::with_capacity(alloc, ranked.len())?;
    for one in ranked {
        places.push(one.place)?;
    }
    Ok(places)
}

/// The places of values in their order. It takes time for the number of values and its logarithm.
pub fn order_of(alloc: Global, values: &[Value]) -> Result<Vec<u16>, NoMemory>
    requires { length values.now ≤ 65536 }
    ensures { IfOk result (λ o. IsOrder values.now o.items) }
{
    let (ranked, _) = ranked_in_order(alloc, values)?;
    let order = places(alloc, &ranked)?;
    Ok(order)
}
