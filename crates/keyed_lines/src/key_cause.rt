//! Why a line has no key.

ghost use Rattle.std.specs.Prelude.{Some};
ghost use Rattle.keyed_lines.specs.KeyCause.{key_cause_text};

use key_text::LineFault;
use ssh_cert::SubjectFault;
use std::fmt;

/// Why a line has no key. It prints as the fault that it carries.
#[derive(Clone, Copy, Debug, PartialEq, Eq)]
pub enum KeyCause {
    /// It is not a key line.
    Line(LineFault),
    /// Its blob is neither that of a plain key nor of a certificate.
    Subject(SubjectFault),
}

impl fmt::Display for KeyCause {
    ghost output = { λ cause. Some (key_cause_text cause) };

    fn fmt<W: fmt::Write>(&self, f: &mut fmt::Formatter<W>) -> fmt::Result {
        match self {
            KeyCause::Line(fault) => fault.fmt(f),
            KeyCause::Subject(fault) => fault.fmt(f),
        }
    }
}
