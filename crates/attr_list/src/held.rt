ghost use Rattle.std.specs.Prelude.{◌≡◌, IfOk};
ghost use Rattle.attr_list.specs.Lists.{values_in};

use crate::values::Values;
use attr_values::Value;
use slp_text::NoMemory;
use std::alloc::Global;

/// What a tag holds: nothing but that it is there, or one value at least.
pub enum Held {
    Keyword,
    Values(Values),
}

impl Drop for Held {
    #[inline(always)]
    fn drop(self) {
        match self {
            Held::Keyword => {}
            Held::Values(_) => {}
        }
    }
}

impl Held {
    /// The same held.
    pub fn copy(&self, alloc: Global) -> Result<Held, NoMemory>
        ensures { IfOk result (λ h. h ≡ self.now) }
    {
        match self {
            Held::Keyword => Ok(Held::Keyword),
            Held::Values(values) => {
                let copied = values.copy(alloc)?;
                Ok(Held::Values(copied))
            }
        }
    }

    /// The values that a tag holds: none of a keyword. Takes no memory.
    pub fn values(&self) -> &[Value]
        ensures { result.now ≡ values_in self.now }
    {
        match self {
            Held::Keyword => &[],
            Held::Values(values) => values.as_slice(),
        }
    }
}
