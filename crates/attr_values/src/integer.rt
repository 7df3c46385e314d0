ghost use Rattle.std.specs.Prelude.{◌≡◌, chars};
ghost use Rattle.attr_values.specs.Values as spec;

/// The whole number that a text is, if it is one: digits, or `-` and digits, from -2147483648 to
/// 2147483647.
pub fn integer_of(text: &str) -> Option<i32>
    ensures { result ≡ spec.integer_of (chars text.now) }
{
    // A `+` may begin what `parse` takes.
    if text.starts_with('+') {
        return None;
    }
    text.parse().ok()
}
