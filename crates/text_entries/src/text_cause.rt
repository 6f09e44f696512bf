//! Why a line of the text of a list is faulty.

ghost use Rattle.std.specs.Prelude.{◌≡◌, Some};
ghost use Rattle.text_entries.specs.TextCause.{no_memory, text_cause_number, text_cause_text};

use run_faults::SpecCause;
use std::alloc::AllocError;
use std::error::Error;
use std::fmt;

/// Why a line of the text of a list is faulty. It prints as `text`, its number and its name; after
/// `Spec` comes the fault as in a specification file.
#[derive(Clone, Copy, Debug, PartialEq, Eq)]
pub enum TextCause {
    /// It has a fault that lines of specification files can have too.
    Spec(SpecCause),
    /// A certificate authority is given by a certificate, and not by its key.
    Certificate,
    /// A certificate authority that is given by its bytes has none.
    NoBytes,
    /// Bytes are not given in base64 with padding, its unused bits zero.
    Base64,
    /// Bytes are not given by pairs of hexadecimal digits.
    Hex,
    /// A `#` with no blank before it cuts a key ID short.
    CutId,
    /// It begins neither with a word of texts and a colon nor with the type name of a key.
    UnknownWord,
    /// A key ID has a control character, and is not given by its bytes.
    ControlInId,
    /// A key ID has a zero byte.
    ZeroInId,
    /// A key ID begins with the type name of a key and a blank, and is not given by its bytes.
    KeyAsId,
    /// A serial number begins with 0 and has more digits.
    LeadingZero,
    /// A key ID is between quotes, and is not given by its bytes.
    QuotedId,
    /// A key ID has a comma and a blank, and is not given by its bytes.
    SeveralIds,
    /// The name that a certificate authority is given is none.
    BadName,
    /// The name that a certificate authority is given has another key.
    OtherKey,
    /// No line before it names a certificate authority by this name.
    UnknownName,
    /// Neither a colon nor the word of an entry of certificates is behind the name of an authority.
    MarkedWord,
    /// No day is behind the word of a last day.
    BadDate,
    /// It has a last day, and names no certificates.
    NoLastDay,
    /// A last day is in its comment, and not before its entry.
    DateInComment,
    /// A key ID has the word of a last day and a date, and is not given by its bytes.
    DateInId,
}

impl TextCause {
    /// The fault's number, 1 to 21 in the order of the variants.
    pub fn number(self) -> u8
        ensures { result ≡ text_cause_number self }
    {
        match self {
            TextCause::Spec(_) => 1,
            TextCause::Certificate => 2,
            TextCause::NoBytes => 3,
            TextCause::Base64 => 4,
            TextCause::Hex => 5,
            TextCause::CutId => 6,
            TextCause::UnknownWord => 7,
            TextCause::ControlInId => 8,
            TextCause::ZeroInId => 9,
            TextCause::KeyAsId => 10,
            TextCause::LeadingZero => 11,
            TextCause::QuotedId => 12,
            TextCause::SeveralIds => 13,
            TextCause::BadName => 14,
            TextCause::OtherKey => 15,
            TextCause::UnknownName => 16,
            TextCause::MarkedWord => 17,
            TextCause::BadDate => 18,
            TextCause::NoLastDay => 19,
            TextCause::DateInComment => 20,
            TextCause::DateInId => 21,
        }
    }
}

impl fmt::Display for TextCause {
    ghost output = { λ cause. Some (text_cause_text cause) };

    fn fmt<W: fmt::Write>(&self, f: &mut fmt::Formatter<W>) -> fmt::Result {
        match self {
            TextCause::Spec(cause) => write!(f, "text 1 Spec, {cause}"),
            TextCause::Certificate => f.write_str("text 2 Certificate"),
            TextCause::NoBytes => f.write_str("text 3 NoBytes"),
            TextCause::Base64 => f.write_str("text 4 Base64"),
            TextCause::Hex => f.write_str("text 5 Hex"),
            TextCause::CutId => f.write_str("text 6 CutId"),
            TextCause::UnknownWord => f.write_str("text 7 UnknownWord"),
            TextCause::ControlInId => f.write_str("text 8 ControlInId"),
            TextCause::ZeroInId => f.write_str("text 9 ZeroInId"),
            TextCause::KeyAsId => f.write_str("text 10 KeyAsId"),
            TextCause::LeadingZero => f.write_str("text 11 LeadingZero"),
            TextCause::QuotedId => f.write_str("text 12 QuotedId"),
            TextCause::SeveralIds => f.write_str("text 13 SeveralIds"),
            TextCause::BadName => f.write_str("text 14 BadName"),
            TextCause::OtherKey => f.write_str("text 15 OtherKey"),
            TextCause::UnknownName => f.write_str("text 16 UnknownName"),
            TextCause::MarkedWord => f.write_str("text 17 MarkedWord"),
            TextCause::BadDate => f.write_str("text 18 BadDate"),
            TextCause::NoLastDay => f.write_str("text 19 NoLastDay"),
            TextCause::DateInComment => f.write_str("text 20 DateInComment"),
            TextCause::DateInId => f.write_str("text 21 DateInId"),
        }
    }
}

impl Error for TextCause {}

impl From<AllocError> for TextCause {
    ghost from_gives = { λ _ cause. cause ≡ no_memory };

    fn from(_error: AllocError) -> TextCause {
        TextCause::Spec(SpecCause::NoMemory)
    }
}
