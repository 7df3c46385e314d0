//! The first of values that are the same, and their order.
ghost use Rattle.std.specs.Prelude.{◌≡◌, ◌<◌, ◌≤◌, true, filter, length, map, slice_index_or, IfOk};
ghost use Rattle.std.specs.List.{All};
ghost use Rattle.attr_list.specs.Gathering.{AreFirsts, AreInOrder, AreNewPlaces};
ghost use Rattle.attr_list.specs.Lists.{distinct_values};
ghost use Rattle.attr_list.specs.Orders.{IsOrder};

use crate::distinct::keep_if;
use crate::order::{Ranked, places, ranked_in_order};
use attr_values::Value;
use slp_text::NoMemory;
use std::alloc::Global;

// Whether each value is the first of those that are the same.
fn find_firsts(alloc: Global, values: &[Value], ranked: &[Ranked]) -> Result<Vec<bool>, NoMemory>
    requires { AreInOrder values.now ranked.now }
    ensures { IfOk result (λ f. AreFirsts values.now f.items) }
{
    let mut firsts = vec![in alloc; true; values.len()]?;
    // The earliest place of those that are the same as the last one.
    let mut first = match ranked {
        [one, ..] => one.place,
        [] => 0,
    };
    for next in 1..ranked.len() {
        let place = ranked[next].place;
        let ties = ranked[next - 1]
            .identity
            .cmp(&ranked[next].identity)
            .is_eq();
        if !ties {
            first = place;
        } else if first < place {
            firsts[place as usize] = false;
        } else {
            firsts[first as usize] = false;
            first = place;
        }
    }
    Ok(firsts)
}

// The first values, and for each place how many of them stand before it.
fn keep_firsts(
    alloc: Global,
    values: Vec<Value>,
    firsts: &[bool],
) -> Result<(Vec<Value>, Vec<u16>), NoMemory>
    requires few { length values.items ≤ 65536 }
    requires firsts { AreFirsts values.items firsts.now }
    ensures kept { IfOk result (λ k. k.0.items ≡ distinct_values values.items) }
    ensures places { IfOk result (λ k. AreNewPlaces values.items k.1.items) }
{
    let mut kept = Vec::new(alloc);
    let mut new_places = Vec::with_capacity(alloc, values.len())?;
    for value in values {
        let is_first = firsts[new_places.len()];
        new_places.push(kept.len() as u16)?;
        keep_if(is_first, value, &mut kept)?;
    }
    Ok((kept, new_places))
}

// The new places of the first values, in their order.
fn order_of_firsts(
    alloc: Global,
    ranked: &[Ranked],
    firsts: &[bool],
    new_places: &[u16],
) -> Result<Vec<u16>, NoMemory>
    requires firsts { All (λ r. r.place < length firsts.now) ranked.now }
    requires places { All (λ r. r.place < length new_places.now) ranked.now }
    ensures { IfOk result (λ o. o.items ≡ map (λ p. slice_index_or new_places.now p 0) (filter (λ p. slice_index_or firsts.now p true) (map (λ r. r.place) ranked.now))) }
{
    let mut order = Vec::new(alloc);
    for one in ranked {
        let place = one.place as usize;
        if firsts[place] {
            order.push(new_places[place])?;
        }
    }
    Ok(order)
}

/// The first of values that are the same, in the order in which they were given, and the places of these in their order. It takes time for the number of values and its logarithm.
pub fn distinct_in_order(
    alloc: Global,
    values: Vec<Value>,
) -> Result<(Vec<Value>, Vec<u16>), NoMemory>
    requires { length values.items ≤ 65536 }
    ensures values { IfOk result (λ d. d.0.items ≡ distinct_values values.items) }
    ensures order { IfOk result (λ d. IsOrder d.0.items d.1.items) }
{
    let (ranked, are_apart) = ranked_in_order(alloc, &values)?;
    if are_apart {
        let order = places(alloc, &ranked)?;
        return Ok((values, order));
    }
    let firsts = find_firsts(alloc, &values, &ranked)?;
    let (kept, new_places) = keep_firsts(alloc, values, &firsts)?;
    let order = order_of_firsts(alloc, &ranked, &firsts, &new_places)?;
    Ok((kept, order))
}
