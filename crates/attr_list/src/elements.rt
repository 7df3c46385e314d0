use attr_values::Value;
use slp_text::Key;

// An element of a list: a tag, and the values that it gives it, none where it stands alone.
#[derive(Drop)]
pub struct Element {
    pub tag: Key,
    pub values: Vec<Value>,
}
