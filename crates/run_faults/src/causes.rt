//! Why a run stops, in words for people.

ghost use Rattle.std.specs.Prelude.{◌≡◌};
ghost use Rattle.run_faults.specs.Causes.{cause_words, file_words, krl_words, line_words};

use crate::cause::Cause;
use crate::file_fault::FileFault;
use key_text::LineFault;
use keyed_lines::KeyCause;
use krl_types::KrlFault;

/// Why a run stops at a file, in words. `krl` says more about a file that is not opened.
pub fn cause_words(cause: Cause) -> &'static [u8]
    ensures { result.now ≡ cause_words cause }
{
    match cause {
        Cause::File(fault) => file_words(fault),
        Cause::Krl(fault) => krl_words(fault),
        Cause::Key(KeyCause::Line(fault)) => line_words(fault),
        Cause::Key(KeyCause::Subject(_)) => b"the key is cut or misspelt",
        Cause::Private(_) => b"the private key file is cut or misspelt",
        Cause::Spec(_) => b"no line of a specification file",
        Cause::NoMemory => b"out of memory",
        Cause::VersionFull => b"its version is the largest that there is",
        Cause::TextTooLong => b"it would be longer than 64 MiB",
        Cause::Output { .. } => b"it takes no more bytes",
    }
}

// The words for a file that cannot be used as a whole.
fn file_words(fault: FileFault) -> &'static [u8]
    ensures { result.now ≡ file_words fault }
{
    match fault {
        FileFault::Open => b"it cannot be opened",
        FileFault::Read => b"it cannot be read to its end",
        FileFault::TooLong => b"it has more than 16 MiB",
        FileFault::NoMemory => b"out of memory",
        FileFault::NoKeys => b"it has no key",
        FileFault::NoCertificate => b"it has no certificate",
        FileFault::Locked => b"another update of it does not end",
    }
}

// The words for a list that cannot be read.
fn krl_words(fault: KrlFault) -> &'static [u8]
    ensures { result.now ≡ krl_words fault }
{
    match fault {
        KrlFault::Magic => b"it does not begin as a revocation list",
        KrlFault::FormatVersion => b"a format of lists other than version 1",
        KrlFault::EndsEarly => b"truncated, in its header or within a section",
        KrlFault::UnknownSection => b"a section of an unknown type",
        KrlFault::UnknownCertSection => b"a section of certificates has a part of an unknown type",
        KrlFault::Length => b"a length and the bytes that it counts do not agree",
        KrlFault::RangeReversed => b"a range of serial numbers ends below its first one",
        KrlFault::BitmapNegative => b"a bitmap of serial numbers is a negative number",
        KrlFault::BitmapWraps => b"a bitmap names serial numbers above the largest one",
        KrlFault::HashLength => b"a hash of a wrong length",
        KrlFault::AfterSignature => b"bytes that are no signature after its signature",
        KrlFault::TooLong => b"it has more than 64 MiB",
        KrlFault::Read => b"it cannot be read to its end",
        KrlFault::NoMemory => b"out of memory",
        KrlFault::CriticalExtension => b"a critical extension, which this program does not know",
    }
}

/// The words for a line without a key.
pub fn line_words(fault: LineFault) -> &'static [u8]
    ensures { result.now ≡ line_words fault }
{
    match fault {
        LineFault::NoKey => b"no key type stands there",
        LineFault::Base64 => b"the key is not whole base64",
        LineFault::WordDiffers => b"the key is of another type",
        LineFault::NoMemory => b"out of memory",
    }
}
