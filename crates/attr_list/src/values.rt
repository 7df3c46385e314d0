//! The values of a tag, and the order in which they are searched.
ghost use Rattle.std.specs.Prelude.{◌≡◌, ◌≤◌, true, not, length, IfOk};
ghost use Rattle.std.specs.List.{list_any};
ghost use Rattle.std.specs.Ordering.{is_eq};
ghost use Rattle.std.specs.declared.cmp.Ordering.{Ordering};
ghost use Rattle.attr_values.specs.Ranks.{Rises};
ghost use Rattle.attr_values.specs.declared.value.Value.{Value as Item};
ghost use Rattle.attr_list.specs.Lists.{distinct_values};
ghost use Rattle.attr_list.specs.Orders.{value_at, IsOrder};
ghost use Rattle.attr_list.specs.Tests.{StandsAs};

use crate::distinct::distinct;
use crate::firsts::distinct_in_order;
use crate::order::order_of;
use attr_values::Value;
use slp_text::NoMemory;
use std::alloc::Global;
use std::cmp::Ordering;
use std::marker::Model;

// So few values are looked at one after the other.
const FEW: usize = 16;

// The places of so many can be told.
const MOST: usize = 65_536;

/// The values of a tag, in the order in which they were given. Many have an order by what they are, too,
/// so that one is found by halves.
pub struct Values {
    items: Vec<Value>,
    order: Option<Box<Vec<u16>>>,
}

impl Drop for Values {
    #[inline(always)]
    fn drop(self) {
        let Values { items: _, order: _ } = self;
    }
}

impl Model for Values {
    ghost use Rattle.std.specs.Prelude.{List, IfSome};
    ghost use Rattle.attr_values.specs.declared.value.Value.{Value as Item};
    ghost use Rattle.attr_list.specs.Orders.{IsOrder};

    ghost Value = { List Item };

    ghost view = { λ a. a.items.items };

    ghost invariant = { λ a. IfSome a.order (λ o. IsOrder a.items.items o.value.items) };
}

/// Equal values, in the same order.
pub fn copies(alloc: Global, values: &[Value]) -> Result<Vec<Value>, NoMemory>
    ensures { IfOk result (λ copied. copied.items ≡ values.now) }
{
    let mut copied = Vec::with_capacity(alloc, values.len())?;
    for value in values {
        copied.push(value.copy(alloc)?)?;
    }
    Ok(copied)
}

// Whether values have an order beside them: they are many, and the places of all can be told.
fn has_order(values: &[Value]) -> bool
    ensures { result ≡ true → length values.now ≤ 65536 }
{
    FEW < values.len() && values.len() <= MOST
}

// Where the value at a place stands.
fn stand_at<F: Fn(&Value) -> Ordering>(values: &[Value], place: u16, stand: &F) -> Ordering
    requires { F.IsAlwaysCallable stand.now }
    ensures { (s : Item → Ordering) → StandsAs F.Fn stand.now s → result ≡ s (value_at values.now place) }
{
    match values.get(place as usize) {
        Some(value) => stand(value),
        None => stand(&Value::Bool(false)),
    }
}

impl Values {
    // The first of those that are the same. It takes time for the number of values and its logarithm.
    pub(crate) fn distinct(alloc: Global, items: Vec<Value>) -> Result<Values, NoMemory>
        ensures { IfOk result (λ v. v ≡ distinct_values items.items) }
    {
        if has_order(&items) {
            let (firsts, order) = distinct_in_order(alloc, items)?;
            return Values::with_order(alloc, firsts, order);
        }
        Values::of(alloc, distinct(alloc, items)?)
    }

    // These values.
    fn of(alloc: Global, items: Vec<Value>) -> Result<Values, NoMemory>
        ensures { IfOk result (λ v. v ≡ items.items) }
    {
        if !has_order(&items) {
            return Ok(Values { items, order: None });
        }
        let order = order_of(alloc, &items)?;
        Values::with_order(alloc, items, order)
    }

    // These values, with their order, unless they are few.
    fn with_order(alloc: Global, items: Vec<Value>, order: Vec<u16>) -> Result<Values, NoMemory>
        requires { IsOrder items.items order.items }
        ensures { IfOk result (λ v. v ≡ items.items) }
    {
        if !has_order(&items) {
            return Ok(Values { items, order: None });
        }
        let order = Box::new(alloc, order)?;
        Ok(Values {
            items,
            order: Some(order),
        })
    }

    /// The values, in the order in which they were given. Takes no memory.
    pub fn as_slice(&self) -> &[Value]
        ensures { result.now ≡ self.now }
    {
        &self.items
    }

    /// The same values.
    pub fn copy(&self, alloc: Global) -> Result<Values, NoMemory>
        ensures { IfOk result (λ v. v ≡ self.now) }
    {
        let items = copies(alloc, &self.items)?;
        let order = match &self.order {
            Some(order) => Some(Box::new(alloc, order.as_slice().to_vec(alloc)?)?),
            None => None,
        };
        Ok(Values { items, order })
    }

    /// Whether some value stands at `Equal`. Of many, it takes time for the logarithm of their number, and no
    /// memory.
    pub fn has_one<F: Fn(&Value) -> Ordering>(&self, stand: &F) -> bool
        requires { F.IsAlwaysCallable stand.now }
        ensures { (s : Item → Ordering) → StandsAs F.Fn stand.now s → Rises s → result ≡ list_any (λ v. is_eq (s v)) self.now }
    {
        match &self.order {
            Some(order) => order
                .binary_search_by(
                    |place|
                        requires { F.IsAlwaysCallable stand.now }
                    { stand_at(&self.items, *place, stand) },
                )
                .is_ok(),
            None => self.items.iter().any(|value| stand(value).is_eq()),
        }
    }

    /// Whether some value does not. Of many, two are looked at.
    pub fn has_other<F: Fn(&Value) -> Ordering>(&self, stand: &F) -> bool
        requires { F.IsAlwaysCallable stand.now }
        ensures { (s : Item → Ordering) → StandsAs F.Fn stand.now s → Rises s → result ≡ list_any (λ v. not (is_eq (s v))) self.now }
    {
        let Some(order) = &self.order else {
            return self.items.iter().any(|value| !stand(value).is_eq());
        };
        if order.is_empty() {
            return false;
        }
        let first = order[0];
        let last = order[order.len() - 1];
        !stand_at(&self.items, first, stand).is_eq() || !stand_at(&self.items, last, stand).is_eq()
    }
}
