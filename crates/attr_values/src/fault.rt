ghost use Rattle.std.specs.Prelude.{◌≡◌};
ghost use Rattle.attr_values.specs.Values.{fault_in_value};
ghost use Rattle.attr_values.specs.declared.fault.AttrFault.TheVariants as fault;

use slp_text::{NoMemory, TextFault};
use std::alloc::{AllocError, AllocFailed};
use thiserror::Error;

/// Why a text is not an attribute list, or not a value of one.
#[derive(Clone, Copy, Debug, PartialEq, Eq, Error)]
pub enum AttrFault {
    #[error("a malformed escape")]
    BadEscape = 1,
    #[error("a malformed tag")]
    BadTag = 2,
    #[error("not an attribute list")]
    BadList = 3,
    #[error("out of memory")]
    NoMemory = 4,
}

impl From<AllocError> for AttrFault {
    ghost from_gives = { λ _ e. e ≡ fault.NoMemory };

    fn from(_e: AllocError) -> AttrFault {
        AttrFault::NoMemory
    }
}

impl<T: Drop> From<AllocFailed<T>> for AttrFault {
    ghost from_gives = { λ _ e. e ≡ fault.NoMemory };

    fn from(_e: AllocFailed<T>) -> AttrFault {
        AttrFault::NoMemory
    }
}

impl From<NoMemory> for AttrFault {
    ghost from_gives = { λ _ e. e ≡ fault.NoMemory };

    fn from(_e: NoMemory) -> AttrFault {
        AttrFault::NoMemory
    }
}

// The fault of a value: what is reserved stands raw. It is no `From`, since in a tag that is another fault.
pub fn value_fault(e: TextFault) -> AttrFault
    ensures { result ≡ fault_in_value e }
{
    match e {
        TextFault::BadEscape => AttrFault::BadEscape,
        TextFault::Reserved | TextFault::NotUtf8 => AttrFault::BadList,
        TextFault::NoMemory => AttrFault::NoMemory,
    }
}
