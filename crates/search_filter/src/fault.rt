ghost use Rattle.std.specs.Prelude.{◌≡◌};
ghost use Rattle.search_filter.specs.Outcomes.{fault_in_text, fault_in_tag};
ghost use Rattle.search_filter.specs.declared.fault.FilterFault.TheVariants as fault;

use attr_list::AttrFault;
use slp_text::{NoMemory, TextFault};
use std::alloc::{AllocError, AllocFailed};
use thiserror::Error;

/// Why a text is not a filter: the first fault from the left.
#[derive(Clone, Copy, Debug, PartialEq, Eq, Error)]
pub enum FilterFault {
    #[error("not a filter")]
    Syntax = 1,
    /// A `*` where none may stand.
    #[error("a `*` outside `=`")]
    Wildcard = 2,
    /// A filter in 32 others.
    #[error("filters nested too deeply")]
    TooDeep = 3,
    #[error("out of memory")]
    NoMemory = 4,
}

impl From<AllocError> for FilterFault {
    ghost from_gives = { λ _ e. e ≡ fault.NoMemory };

    fn from(_e: AllocError) -> FilterFault {
        FilterFault::NoMemory
    }
}

impl<T: Drop> From<AllocFailed<T>> for FilterFault {
    ghost from_gives = { λ _ e. e ≡ fault.NoMemory };

    fn from(_e: AllocFailed<T>) -> FilterFault {
        FilterFault::NoMemory
    }
}

impl From<NoMemory> for FilterFault {
    ghost from_gives = { λ _ e. e ≡ fault.NoMemory };

    fn from(_e: NoMemory) -> FilterFault {
        FilterFault::NoMemory
    }
}

impl From<TextFault> for FilterFault {
    ghost from_gives = { λ t e. e ≡ fault_in_text t };

    fn from(e: TextFault) -> FilterFault {
        match e {
            TextFault::NoMemory => FilterFault::NoMemory,
            TextFault::BadEscape | TextFault::Reserved | TextFault::NotUtf8 => FilterFault::Syntax,
        }
    }
}

impl From<AttrFault> for FilterFault {
    ghost from_gives = { λ t e. e ≡ fault_in_tag t };

    fn from(e: AttrFault) -> FilterFault {
        match e {
            AttrFault::NoMemory => FilterFault::NoMemory,
            AttrFault::BadEscape | AttrFault::BadTag | AttrFault::BadList => FilterFault::Syntax,
        }
    }
}
