ghost use Rattle.std.specs.Prelude.{◌≡◌};
ghost use Rattle.site_config.specs.declared.fault.ConfigFault.TheVariants as fault;

use slp_text::NoMemory;
use std::alloc::{AllocError, AllocFailed};
use thiserror::Error;

/// Why a text is not a configuration.
#[derive(Clone, Copy, Debug, PartialEq, Eq, Error)]
pub enum ConfigFault {
    /// It is not TOML.
    #[error("not TOML")]
    Toml = 1,
    /// A key that has to be there is missing.
    #[error("a key is missing")]
    Missing = 2,
    /// A value is of another kind or outside its limits, a key is unknown, or the text is longer than
    /// 1,048,576 bytes, which is asked first.
    #[error("a value is out of its range")]
    Range = 3,
    #[error("out of memory")]
    NoMemory = 4,
}

impl From<NoMemory> for ConfigFault {
    ghost from_gives = { λ _ e. e ≡ fault.NoMemory };

    fn from(_e: NoMemory) -> ConfigFault {
        ConfigFault::NoMemory
    }
}

impl From<AllocError> for ConfigFault {
    ghost from_gives = { λ _ e. e ≡ fault.NoMemory };

    fn from(_e: AllocError) -> ConfigFault {
        ConfigFault::NoMemory
    }
}

impl<T: Drop> From<AllocFailed<T>> for ConfigFault {
    ghost from_gives = { λ _ e. e ≡ fault.NoMemory };

    fn from(_e: AllocFailed<T>) -> ConfigFault {
        ConfigFault::NoMemory
    }
}
