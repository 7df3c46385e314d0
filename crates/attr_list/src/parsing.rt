ghost use Rattle.std.specs.Prelude.{◌≡◌, IfOk};
ghost use Rattle.std.specs.Result.{result_ok};
ghost use Rattle.attr_values.specs.Reading.{IsReading};
ghost use Rattle.attr_list.specs.Reading.{attributes_in};

use crate::attrs::Attrs;
use crate::gathering::join;
use crate::reading::read_elements;
use attr_values::AttrFault;
use slp_text::NoMemory;
use std::alloc::Global;

impl Attrs {
    /// The attributes that a text means (RFC 2608, section 5). A text that means none is refused by its
    /// first fault from the left: an escape that is not one is `BadEscape`, an empty tag before `=` or
    /// a reserved character in a tag `BadTag`, all else `BadList`. It takes time for the length of the
    /// text and its logarithm.
    pub fn parse(alloc: Global, text: &str) -> Result<Attrs, AttrFault>
        ensures { IsReading result (attributes_in text.now) }
    {
        let elements = read_elements(alloc, text)?;
        let attributes = join(alloc, elements)?;
        Ok(attributes)
    }

    /// The same, or `None` where a text is no list of attributes.
    pub fn read(alloc: Global, text: &str) -> Result<Option<Attrs>, NoMemory>
        ensures { IfOk result (λ a. a ≡ result_ok (attributes_in text.now)) }
    {
        match Attrs::parse(alloc, text) {
            Ok(attrs) => Ok(Some(attrs)),
            Err(AttrFault::NoMemory) => Err(NoMemory),
            Err(_) => Ok(None),
        }
    }
}
