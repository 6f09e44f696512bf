//! Why a line or a file is not read.

ghost use Rattle.std.specs.Prelude.{◌≡◌};
ghost use Rattle.audit_lines.specs.Why.{refusal_why, why_text};

use key_text::PrivateFault;
use line_pieces::{Printed, Words, put};
use run_faults::{KeyCause, line_words};
use std::alloc::{AllocError, Global};

/// Why a file is not read.
#[derive(Clone, Copy)]
pub enum Refusal {
    /// There is no file of this name.
    Missing,
    /// The user may not read it.
    Denied,
    /// It is a pipe, a socket or a device.
    Irregular,
    /// A link leads back to itself.
    Loop,
    /// A link that was found in a directory leads to a directory.
    DirectoryLink,
    /// A directory that is named has no file that is read.
    NoFile,
    /// The name of a file has more than 4,096 bytes.
    LongName,
    /// Opening another file of its owner took long, and opening it may take as long.
    Slow,
    /// It is on a file system of the kernel, where reading may wait or change something.
    Kernel,
    /// It cannot be opened for another reason.
    Open,
    /// It cannot be read to its end.
    Read,
    /// It is larger than 16,777,216 bytes.
    TooLong,
    /// It is a command that sshd runs for keys, and an audit runs none.
    NotAsked,
    /// It has wildcards, which sshd expands since OpenSSH 10, and an audit does not.
    Wildcards,
}

/// Why a line or a file is not read.
#[derive(Clone, Copy)]
pub enum Why {
    /// A line has no key, or none that is known.
    Key(KeyCause),
    /// The key ID of a certificate has a zero byte.
    ZeroInId,
    /// A private key file is truncated or misspelt.
    Private(PrivateFault),
    /// A file is not read.
    File(Refusal),
    /// A file has no key, and this number of lines that are not keys.
    NoKeys(u64),
}

/// Why a line or a file is not read, in words for people.
#[derive(Clone, Copy)]
pub struct Told {
    /// The allocator for the words of a fault.
    pub alloc: Global,
    /// Why it is not read.
    pub why: Why,
}

impl Printed for Told {
    ghost text = { λ told. why_text told.why };

    fn push_to(&self, out: &mut Vec<u8>) -> Result<(), AllocError> {
        match self.why {
            Why::Key(KeyCause::Line(fault)) => put!(out; Words(line_words(fault))),
            Why::Key(KeyCause::Subject(fault)) => {
                let said = fault.to_string(self.alloc)?;
                put!(out; b"the key is cut or misspelt: ", Words(said.as_bytes()))
            }
            Why::ZeroInId => put!(out; b"its key ID has a zero byte"),
            Why::Private(fault) => {
                let said = fault.to_string(self.alloc)?;
                put!(out; b"the private key file is cut or misspelt: ", Words(said.as_bytes()))
            }
            Why::File(refusal) => put!(out; Words(refusal_words(refusal))),
            Why::NoKeys(lines) => put!(out; b"none of its ", lines, b" lines is a key"),
        }
    }
}

/// The words for a file that is not read.
pub fn refusal_words(refusal: Refusal) -> &'static [u8]
    ensures { result.now ≡ refusal_why refusal }
{
    match refusal {
        Refusal::Missing => b"No such file or directory",
        Refusal::Denied => b"Permission denied",
        Refusal::Irregular => b"no regular file",
        Refusal::Loop => b"Too many levels of symbolic links",
        Refusal::DirectoryLink => b"a link to a directory: name it",
        Refusal::NoFile => b"no file in this directory is read by its name",
        Refusal::LongName => b"its name has more than 4,096 bytes",
        Refusal::Slow => b"opening another file of its owner took too long",
        Refusal::Kernel => b"it is on a file system of the kernel",
        Refusal::Open => b"it cannot be opened",
        Refusal::Read => b"it cannot be read to its end",
        Refusal::TooLong => b"it has more than 16 MiB",
        Refusal::NotAsked => b"it is not asked: give its output by --command-output",
        Refusal::Wildcards => b"sshd may read what its wildcards match: name these files",
    }
}
