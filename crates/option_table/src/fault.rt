//! Why a command line asks for nothing that a program does.

ghost use Rattle.std.specs.Prelude.{◌≡◌};
ghost use Rattle.option_table.specs.Fault.{ReportsError, command_fault_number};
ghost use Rattle.option_table.specs.Fault.{command_fault_status};
ghost use Rattle.option_table.specs.declared.fault.CommandFault.TheVariants.{NoMemory};

use clap::Error;
use clap::error::ErrorKind;
use std::alloc::AllocError;
use thiserror::Error as ErrorText;

/// Why a program does nothing.
#[derive(Debug, Drop, ErrorText)]
pub enum CommandFault {
    /// The options do not go together, or a value of one is invalid.
    #[error("usage 1 Usage")]
    Usage,
    /// The words cannot be parsed, or ask for help or the version: the text to print.
    #[error("usage 2 Words")]
    Words { help: bool, text: String },
    /// An allocation failed.
    #[error("usage 3 NoMemory")]
    NoMemory,
}

impl CommandFault {
    /// The fault's number, 1 to 3 in the order of the variants.
    pub fn number(&self) -> u8
        ensures { result ≡ command_fault_number self.now }
    {
        match self {
            CommandFault::Usage => 1,
            CommandFault::Words { .. } => 2,
            CommandFault::NoMemory => 3,
        }
    }

    /// The exit status: 0 if help or the version is printed, 2 if the words are refused.
    pub fn status(&self) -> u8
        ensures { result ≡ command_fault_status self.now }
    {
        match self {
            CommandFault::Words { help: true, .. } => 0,
            CommandFault::Usage | CommandFault::Words { help: false, .. } => 2,
            CommandFault::NoMemory => 255,
        }
    }
}

impl From<AllocError> for CommandFault {
    ghost from_gives = { λ _ fault. fault ≡ NoMemory };

    fn from(_refused: AllocError) -> CommandFault {
        CommandFault::NoMemory
    }
}

/// Why words cannot be parsed, or the help or the version that they ask for, with the text to print
/// unless memory ran out for it.
pub fn fault_of(error: &Error, text: Result<String, AllocError>) -> CommandFault
    ensures { ReportsError error.now result }
{
    match text {
        Ok(text) if error.kind() != ErrorKind::OutOfMemory => CommandFault::Words {
            help: !error.use_stderr(),
            text,
        },
        _ => CommandFault::NoMemory,
    }
}
