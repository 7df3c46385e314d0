ghost use Rattle.std.specs.Prelude.{◌≡◌, ℕ, Bool, List, not, if◌then◌else◌};
ghost use Rattle.std.specs.List.{list_any};
ghost use Rattle.std.specs.Option.{option_copied};
ghost use Rattle.attr_list.specs.Maps.{kept_attributes};
ghost use Rattle.attr_list.specs.Tests.{AcceptsAs};
ghost use Rattle.search_filter.specs.Conditions as spec;
ghost use Rattle.search_filter.specs.Looks.{IsLast};
ghost use Rattle.search_filter.specs.Conditions.{is_met, is_missed, item_holds, negated_item_holds};

use crate::looks::{Keeps, Look, held_at};
use attr_list::{Attrs, Held, Value, Values};
use attr_operands::Operand;
use slp_text::Key;
use text_patterns::Pattern;

// What is asked of the values of a tag.
/// What an item asks of the values of its tag (RFC 2254).
pub enum Condition {
    Present,
    Equal(Operand),
    AtLeast(Operand),
    AtMost(Operand),
    Like(Pattern),
}

impl Drop for Condition {
    fn drop(self) {
        match self {
            Condition::Present => {}
            Condition::Equal(_) => {}
            Condition::AtLeast(_) => {}
            Condition::AtMost(_) => {}
            Condition::Like(_) => {}
        }
    }
}

// What is asked of a tag.
/// A tag, and what is asked of its values.
pub struct Item {
    pub tag: Key,
    pub condition: Condition,
}

impl Drop for Item {
    fn drop(self) {
        let Item {
            tag: _,
            condition: _,
        } = self;
    }
}

impl Condition {
    fn meets(&self, value: &Value) -> bool
        ensures { result ≡ spec.meets self.now value.now }
    {
        match self {
            Condition::Present => true,
            Condition::Equal(operand) => operand.is_equal(value),
            Condition::AtLeast(operand) => operand.is_at_least(value),
            Condition::AtMost(operand) => operand.is_at_most(value),
            Condition::Like(pattern) => match value {
                Value::Text(text) => pattern.matches(text.as_str()),
                _ => false,
            },
        }
    }

    // Whether some value meets the condition. Of many, those that are equal, or lie on one side, are found by
    // their order.
    #[inline(never)]
    fn meets_some(&self, values: &Values) -> bool
        ensures { result ≡ list_any (spec.meets self.now) values.now }
    {
        match self {
            Condition::Equal(operand) => values.has_one(&|value: &Value| operand.stand_of(value)),
            Condition::AtLeast(operand) => {
                values.has_one(&|value: &Value| operand.stand_at_least(value))
            }
            Condition::AtMost(operand) => {
                values.has_one(&|value: &Value| operand.stand_at_most(value))
            }
            _ => values.as_slice().iter().any(|value| self.meets(value)),
        }
    }

    // Whether some value does not.
    #[inline(never)]
    fn misses_some(&self, values: &Values) -> bool
        ensures { result ≡ list_any (λ v. not (spec.meets self.now v)) values.now }
    {
        match self {
            Condition::Equal(operand) => values.has_other(&|value: &Value| operand.stand_of(value)),
            Condition::AtLeast(operand) => {
                values.has_other(&|value: &Value| operand.stand_at_least(value))
            }
            Condition::AtMost(operand) => {
                values.has_other(&|value: &Value| operand.stand_at_most(value))
            }
            _ => values.as_slice().iter().any(|value| !self.meets(value)),
        }
    }

    // Whether what a tag holds, if it is there, meets the condition, or its negation.
    #[inline(always)]
    fn holds(&self, held: Option<&Held>, positive: bool) -> bool
        ensures { result ≡ (if positive then is_met self.now (option_copied held.entry) else is_missed self.now (option_copied held.entry)) }
    {
        match (self, held) {
            (_, None) => !positive,
            (Condition::Present, Some(_)) => positive,
            (_, Some(Held::Keyword)) => !positive,
            (_, Some(Held::Values(values))) => {
                if positive {
                    self.meets_some(values)
                } else {
                    self.misses_some(values)
                }
            }
        }
    }
}

impl Item {
    // Whether the item holds on the attributes whose tags a test accepts, or its negation. It takes no memory.
    pub fn holds<'a, K: Keeps, F: Fn(&Key) -> bool>(
        &'a self,
        attributes: &'a Attrs,
        positive: bool,
        accepts: &F,
        last: &mut Option<Look<'a>>,
    ) -> bool
        requires callable { F.IsAlwaysCallable accepts.now }
        requires last { IsLast F.Fn accepts.now attributes.now last.old }
        ensures holds { (p : List ℕ → Bool) → AcceptsAs F.Fn accepts.now p → result ≡ (if positive then item_holds self.now (kept_attributes attributes.now p) else negated_item_holds self.now (kept_attributes attributes.now p)) }
        ensures last { IsLast F.Fn accepts.now attributes.now last.new }
    {
        let held = held_at::<K, F>(&self.tag, attributes, accepts, last);
        self.condition.holds(held, positive)
    }
}
