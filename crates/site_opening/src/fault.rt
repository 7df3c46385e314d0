ghost use Rattle.std.specs.Prelude.{◌≡◌, OnOk};
ghost use Rattle.std.specs.Io.KnownBytes.{Appends};
ghost use Rattle.site_opening.specs.Statuses.{start_status, start_text};
ghost use Rattle.site_opening.specs.declared.fault.StartFault.TheVariants as start;

use crate::files::FileFault;
use rule_files::RuleFault;
use site_config::ConfigFault;
use site_reports::{print_config_fault, print_rules_fault, print_template_fault};
use slp_text::NoMemory;
use srv_template::ParseFault;
use std::alloc::{AllocError, AllocFailed};
use std::io::{self, Write};

/// Why a server does not start.
#[derive(Clone, Copy, Debug, PartialEq, Eq)]
pub enum StartFault {
    /// A file or a socket failed.
    Failed,
    Config(ConfigFault),
    Rules(RuleFault),
    Template(ParseFault),
    NoMemory,
}

impl StartFault {
    /// The status of a server that does not start.
    pub fn status(self) -> u8
        ensures { result ≡ start_status self }
    {
        match self {
            StartFault::Failed => 1,
            StartFault::Config(_) | StartFault::Rules(_) | StartFault::Template(_) => 2,
            StartFault::NoMemory => 3,
        }
    }

    /// Writes what was refused; nothing where a file, a socket or memory failed.
    pub fn print<W: Write>(self, writer: &mut W) -> io::Result<()>
        ensures { OnOk result (Appends (W.contents writer.old) (W.contents writer.new) (start_text self)) }
    {
        match self {
            StartFault::Failed | StartFault::NoMemory => writer.write_all(b""),
            StartFault::Config(fault) => print_config_fault(fault, writer),
            StartFault::Rules(fault) => print_rules_fault(fault, writer),
            StartFault::Template(fault) => print_template_fault(fault, writer),
        }
    }
}

impl From<AllocError> for StartFault {
    ghost from_gives = { λ _ e. e ≡ start.NoMemory };

    fn from(_e: AllocError) -> StartFault {
        StartFault::NoMemory
    }
}

impl<T: Drop> From<AllocFailed<T>> for StartFault {
    ghost from_gives = { λ _ e. e ≡ start.NoMemory };

    fn from(_e: AllocFailed<T>) -> StartFault {
        StartFault::NoMemory
    }
}

impl From<NoMemory> for StartFault {
    ghost from_gives = { λ _ e. e ≡ start.NoMemory };

    fn from(_e: NoMemory) -> StartFault {
        StartFault::NoMemory
    }
}

impl From<FileFault> for StartFault {
    ghost use Rattle.site_opening.specs.Statuses.{file_start};

    ghost from_gives = { λ fault e. e ≡ file_start fault };

    fn from(e: FileFault) -> StartFault {
        match e {
            FileFault::NoMemory => StartFault::NoMemory,
            FileFault::Missing | FileFault::Unread | FileFault::NotText => StartFault::Failed,
        }
    }
}

/// Why the rules in a file are not read.
#[derive(Clone, Copy, Debug, PartialEq, Eq)]
pub enum ReadFault {
    /// The file failed, or is no text.
    Failed,
    /// They are refused, or memory ran out.
    Refused(RuleFault),
}

impl From<FileFault> for ReadFault {
    ghost use Rattle.site_opening.specs.Statuses.{file_read};

    ghost from_gives = { λ fault e. e ≡ file_read fault };

    fn from(e: FileFault) -> ReadFault {
        match e {
            FileFault::NoMemory => ReadFault::Refused(RuleFault::NoMemory),
            FileFault::Missing | FileFault::Unread | FileFault::NotText => ReadFault::Failed,
        }
    }
}

impl From<ReadFault> for StartFault {
    ghost use Rattle.site_opening.specs.Statuses.{read_start};

    ghost from_gives = { λ fault e. e ≡ read_start fault };

    fn from(e: ReadFault) -> StartFault {
        match e {
            ReadFault::Failed => StartFault::Failed,
            ReadFault::Refused(fault) => StartFault::from(fault),
        }
    }
}

impl From<ConfigFault> for StartFault {
    ghost use Rattle.site_opening.specs.Statuses.{config_start};

    ghost from_gives = { λ fault e. e ≡ config_start fault };

    fn from(e: ConfigFault) -> StartFault {
        match e {
            ConfigFault::NoMemory => StartFault::NoMemory,
            fault => StartFault::Config(fault),
        }
    }
}

impl From<RuleFault> for StartFault {
    ghost use Rattle.site_opening.specs.Statuses.{rules_start};

    ghost from_gives = { λ fault e. e ≡ rules_start fault };

    fn from(e: RuleFault) -> StartFault {
        match e {
            RuleFault::NoMemory => StartFault::NoMemory,
            fault => StartFault::Rules(fault),
        }
    }
}

impl From<ParseFault> for StartFault {
    ghost use Rattle.site_opening.specs.Statuses.{template_start};

    ghost from_gives = { λ fault e. e ≡ template_start fault };

    fn from(e: ParseFault) -> StartFault {
        match e {
            ParseFault::NoMemory => StartFault::NoMemory,
            fault => StartFault::Template(fault),
        }
    }
}
