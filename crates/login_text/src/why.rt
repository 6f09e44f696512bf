//! Why a line or a log is not read.

ghost use Rattle.std.specs.Prelude.{◌≡◌};
ghost use Rattle.login_text.specs.Why.{login_why_text, packed_words, why_name, why_number};

use line_pieces::{Printed, Words, put};
use login_lines::LoginFault;
use std::alloc::AllocError;

/// The format of a file that is not a log as text.
#[derive(Clone, Copy)]
pub enum Packed {
    /// gzip (RFC 1952).
    Gzip,
    /// xz (The .xz File Format, version 1.2.1).
    Xz,
    /// Zstandard (RFC 8878).
    Zstd,
    /// A journal of systemd (Journal File Format).
    Journal,
}

/// Why a line or a log is not read.
#[derive(Clone, Copy)]
pub enum LoginWhy {
    /// A line reports a login that cannot be read.
    Line(LoginFault),
    /// A line has more than 16,777,216 bytes, and what follows it is not read.
    LongLine,
    /// The file is not text.
    Packed(Packed),
}

impl LoginWhy {
    /// The number of the fault.
    pub fn number(self) -> u64
        ensures { result ≡ why_number self }
    {
        match self {
            LoginWhy::Line(LoginFault::Cut) => 1,
            LoginWhy::Line(LoginFault::Malformed) => 2,
            LoginWhy::Line(LoginFault::Hostbased) => 3,
            LoginWhy::LongLine => 4,
            LoginWhy::Packed(_) => 5,
        }
    }

    // The name of the fault.
    fn name(self) -> &'static [u8]
        ensures { result.now ≡ why_name self }
    {
        match self {
            LoginWhy::Line(LoginFault::Cut) => b"Cut",
            LoginWhy::Line(LoginFault::Malformed) => b"Malformed",
            LoginWhy::Line(LoginFault::Hostbased) => b"Hostbased",
            LoginWhy::LongLine => b"LongLine",
            LoginWhy::Packed(_) => b"Packed",
        }
    }
}

// The words for people.
impl Printed for LoginWhy {
    ghost text = { login_why_text };

    fn push_to(&self, out: &mut Vec<u8>) -> Result<(), AllocError> {
        match *self {
            LoginWhy::Line(LoginFault::Cut) => put!(out; b"the line of a login is cut"),
            LoginWhy::Line(LoginFault::Malformed) => {
                put!(out; b"the line of a login is malformed")
            }
            LoginWhy::Line(LoginFault::Hostbased) => {
                put!(out; b"a login by the key of a host is not looked at")
            }
            LoginWhy::LongLine => {
                put!(out; b"the line has more than 16 MiB, and what follows is not read")
            }
            LoginWhy::Packed(packed) => put!(out; Words(packed_words(packed))),
        }
    }
}

// The words for a file that is not text.
fn packed_words(packed: Packed) -> &'static [u8]
    ensures { result.now ≡ packed_words packed }
{
    match packed {
        Packed::Gzip => b"it is compressed: zcat prints it",
        Packed::Xz => b"it is compressed: xzcat prints it",
        Packed::Zstd => b"it is compressed: zstdcat prints it",
        Packed::Journal => b"it is a journal: journalctl --file prints it",
    }
}

/// The fault by its family, its number and its name.
#[derive(Clone, Copy)]
pub(crate) struct Named(pub(crate) LoginWhy);

impl Printed for Named {
    ghost use Rattle.login_text.specs.Why.{login_fault_text};

    ghost text = { λ named. login_fault_text named.0 };

    fn push_to(&self, out: &mut Vec<u8>) -> Result<(), AllocError> {
        put!(out; b"login ", self.0.number(), b" ", Words(self.0.name()))
    }
}
