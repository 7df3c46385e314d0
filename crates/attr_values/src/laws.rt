//! Laws of values, which callers may use.

ghost use Rattle.std.specs.Prelude.{◌≡◌, Ok, chars};
ghost use Rattle.attr_values.specs.Kinds.{IsValue};
ghost use Rattle.attr_values.specs.Values.{value_of, value_text};
ghost use Rattle.attr_values.specs.declared.value.Value.{Value};

/// Each value that there is, once written, is read again as the same value.
pub fn values_are_read_again()
    ensures { (v : Value) → IsValue v → value_of (chars (value_text v)) ≡ Ok v }
{}
