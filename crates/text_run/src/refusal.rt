//! The line about a fault that stopped the run (krl(1), KRL MAKE).

ghost use Rattle.std.specs.Prelude.{◌≡◌, IfOk};
ghost use Rattle.run_faults.specs.RunFault.{line_part};
ghost use Rattle.text_run.specs.Words.{fault_line, hint_words, make_words, meant_words};
ghost use Rattle.text_run.specs.Words.{other_words, spec_words, text_words, unknown_words};
ghost use Rattle.text_run.specs.Words.{why_words};

use crate::make_fault::{MakeCause, MakeFault};
use crate::naming::{can_be_meant, naming_in, naming_meant};
use crate::text::Text;
use line_pieces::{Printed, Visible, Words, put};
use run_faults::{Cause, SpecCause, cause_words};
use std::alloc::{AllocError, Global};
use text_entries::{Hint, Misspelt, TextCause};

const UNKNOWN_WORD: &[u8] = b"a line begins with ca:, ca-blob:, serial:, id:, id-hex:, key:, \
key-blob:, sha1:, sha256: or hash:, with @NAME, or with the type of a key, and nothing may be \
before it, such as options";

const CONTROL_IN_ID: &[u8] = b"a key ID has a control character, such as a tab or a carriage \
return: use id-hex:";

const KEY_AS_ID: &[u8] = b"a key stands where a key ID belongs: use key:, or id-hex: for a key ID \
that begins so";

const LEADING_ZERO: &[u8] = b"a serial number has a leading zero: OpenSSH would read octal digits";

const QUOTED_ID: &[u8] = b"a key ID has no quotes around it: use id-hex: for one that has them";

const SEVERAL_IDS: &[u8] = b"a line has one key ID: use id-hex: for one that has a comma and a \
blank";

const BAD_NAME: &[u8] = b"a name behind @ has 1 to 64 letters, digits, -, _ and ., and is not all";

const OTHER_KEY: &[u8] = b"the name has another key";

const UNKNOWN_NAME: &[u8] = b"no CA has this name above";

const MARKED_WORD: &[u8] = b"behind @NAME comes a colon and a key, or serial:, id: or id-hex:";

const NO_AUTHORITY: &[u8] = b"no CA is given: by @NAME before the word, or by a ca: line with no \
key or hash between";

const NO_LAST_DAY: &[u8] = b"only a serial number, a key ID or a certificate has a last day";

const DATE_IN_COMMENT: &[u8] = b"a day in a comment ends nothing: begin the line with until \
YYYY-MM-DD";

const DATE_IN_ID: &[u8] = b"a day in a key ID ends nothing: begin the line with until YYYY-MM-DD, \
or use id-hex: for a key ID that has one";

const COLON_BEHIND_NAME: &[u8] = b"behind @NAME and a colon comes a key: an entry has no colon \
there";

const LAST_DAY: &[u8] = b"a last day comes first on a line: until YYYY-MM-DD";

const NO_LAST_DAY_IN_COMMENT: &[u8] = b"a key has no last day: take the day out of its comment";

const EMPTY: &[u8] = b"the list would revoke nobody: no text has an entry, or each is over";

// The number of a line, if there is one.
#[derive(Clone, Copy)]
struct Line(Option<u64>);

impl Printed for Line {
    ghost text = { λ line. line_part line.0 };

    fn push_to(&self, out: &mut Vec<u8>) -> Result<(), AllocError> {
        match self.0 {
            None => Ok(()),
            Some(number) => put!(out; b"line ", number, b": "),
        }
    }
}

/// The line about a fault: the name of the text or of the list, the number of the line, and why no
/// list is made, in words and by its number. The words may name a line of the texts.
pub fn fault_line<'a>(
    alloc: Global,
    fault: &MakeFault<'_>,
    texts: &'a [Text<'a>],
) -> Result<Vec<u8>, AllocError>
    ensures { IfOk result (λ text. text.items ≡ fault_line texts.now fault.now) }
{
    let cause = fault.cause.to_string(alloc)?;
    let why = why_words(alloc, fault, texts)?;
    let mut text = Vec::new(alloc);
    put!(&mut text; b"krl: ", Visible(fault.name.as_bytes(), false), b": ", Line(fault.line),
        Words(&why), b" [", Words(cause.as_bytes()), b"]\n")?;
    Ok(text)
}

// Why no list is made, or what the line may be meant as.
fn why_words<'a>(
    alloc: Global,
    fault: &MakeFault<'_>,
    texts: &'a [Text<'a>],
) -> Result<Vec<u8>, AllocError>
    ensures { IfOk result
        (λ text. text.items ≡ why_words texts.now fault.now.hint fault.now.cause) }
{
    match &fault.hint {
        None => Vec::from_slice(alloc, make_words(fault.cause)),
        Some(hint) => hint_words(alloc, fault.cause, hint, texts),
    }
}

// The words for the form that a line may be meant in.
fn hint_words<'a>(
    alloc: Global,
    cause: MakeCause,
    hint: &Hint<'_>,
    texts: &'a [Text<'a>],
) -> Result<Vec<u8>, AllocError>
    ensures { IfOk result (λ text. text.items ≡ hint_words cause texts.now hint.now) }
{
    match hint {
        Hint::Misspelt(misspelt) => meant_words(alloc, misspelt),
        Hint::Fingerprint => Vec::from_slice(alloc, b"a fingerprint needs \"hash:\" before it"),
        Hint::KeyFile => Vec::from_slice(alloc, b"the key itself stands here, not its file"),
        Hint::ByteOrderMark => Vec::from_slice(alloc, b"the file begins with a byte order mark"),
        Hint::Hexadecimal => Vec::from_slice(alloc, b"hexadecimal digits need 0x before them"),
        Hint::ColonBehindName => Vec::from_slice(alloc, COLON_BEHIND_NAME),
        Hint::LastDay => Vec::from_slice(alloc, LAST_DAY),
        Hint::NoLastDay => Vec::from_slice(alloc, NO_LAST_DAY_IN_COMMENT),
        Hint::Name(line) => {
            if cause == MakeCause::Line(TextCause::OtherKey) {
                other_words(alloc, line.name, texts)
            } else {
                unknown_words(alloc, line.name, texts)
            }
        }
    }
}

// The line that gives a name to another key.
fn other_words<'a>(alloc: Global, name: &[u8], texts: &'a [Text<'a>]) -> Result<Vec<u8>, AllocError>
    ensures { IfOk result (λ text. text.items ≡ other_words texts.now name.now) }
{
    let Some(found) = naming_in(texts, name, true) else {
        return Vec::from_slice(alloc, OTHER_KEY);
    };
    let mut text = Vec::new(alloc);
    put!(&mut text; b"the name \"", Visible(name, true), b"\" has another key: ",
        Visible(found.text.as_bytes(), false), b", line ", found.line)?;
    Ok(text)
}

// A name that no CA has, and the same or one that is close to it in another line.
fn unknown_words<'a>(
    alloc: Global,
    name: &[u8],
    texts: &'a [Text<'a>],
) -> Result<Vec<u8>, AllocError>
    ensures { IfOk result (λ text. text.items ≡ unknown_words texts.now name.now) }
{
    if !can_be_meant(name) {
        return Vec::from_slice(alloc, UNKNOWN_NAME);
    }
    let mut text = Vec::new(alloc);
    let Some(found) = naming_meant(texts, name) else {
        put!(&mut text; b"no CA is named \"", Visible(name, true), b"\" above")?;
        return Ok(text);
    };
    put!(&mut text; b"no CA is named \"", Visible(name, true), b"\" above",
        b": did you mean \"", Visible(found.name, true), b"\" (",
        Visible(found.text.as_bytes(), false), b", line ", found.line, b")?")?;
    Ok(text)
}

// A misspelt word, and the one that was meant, with its colon.
fn meant_words(alloc: Global, misspelt: &Misspelt<'_>) -> Result<Vec<u8>, AllocError>
    ensures { IfOk result (λ text. text.items ≡ meant_words misspelt.now) }
{
    let mut text = Vec::new(alloc);
    put!(&mut text; b"\"", Visible(misspelt.word, true),
        b"\" is no word of a text: did you mean \"", Words(misspelt.meant.as_bytes()), b":\"?")?;
    Ok(text)
}

// Why no list is made, in words.
fn make_words(cause: MakeCause) -> &'static [u8]
    ensures { result.now ≡ make_words cause }
{
    match cause {
        MakeCause::Run(cause) => cause_words(cause),
        MakeCause::Line(cause) => text_words(cause),
        MakeCause::Empty => EMPTY,
        MakeCause::NoEntry => b"it has no entry, which --allow-empty allows",
        MakeCause::OldVersion => b"the list there has this version or a later one",
    }
}

// Why a line has a fault, in words.
fn text_words(cause: TextCause) -> &'static [u8]
    ensures { result.now ≡ text_words cause }
{
    match cause {
        TextCause::Spec(cause) => spec_words(cause),
        TextCause::Certificate => b"a CA is given by its key, and not by a certificate",
        TextCause::NoBytes => b"a CA has bytes",
        TextCause::Base64 => b"no whole base64 with padding",
        TextCause::Hex => b"no pairs of hexadecimal digits",
        TextCause::CutId => b"a # with no blank before it would cut the key ID short: use id-hex:",
        TextCause::UnknownWord => UNKNOWN_WORD,
        TextCause::ControlInId => CONTROL_IN_ID,
        TextCause::ZeroInId => b"OpenSSH takes no key ID with a zero byte: use serial:",
        TextCause::KeyAsId => KEY_AS_ID,
        TextCause::LeadingZero => LEADING_ZERO,
        TextCause::QuotedId => QUOTED_ID,
        TextCause::SeveralIds => SEVERAL_IDS,
        TextCause::BadName => BAD_NAME,
        TextCause::OtherKey => OTHER_KEY,
        TextCause::UnknownName => UNKNOWN_NAME,
        TextCause::MarkedWord => MARKED_WORD,
        TextCause::BadDate => b"until needs a day, as YYYY-MM-DD",
        TextCause::NoLastDay => NO_LAST_DAY,
        TextCause::DateInComment => DATE_IN_COMMENT,
        TextCause::DateInId => DATE_IN_ID,
    }
}

// The words for a fault that lines of specification files can have too.
fn spec_words(cause: SpecCause) -> &'static [u8]
    ensures { result.now ≡ spec_words cause }
{
    match cause {
        SpecCause::Number => b"a serial number is a number below 2^64",
        SpecCause::Zero => b"serial number 0 names no certificate",
        SpecCause::Reversed => b"a range of serial numbers ends below its first one",
        SpecCause::NoAuthority => NO_AUTHORITY,
        SpecCause::EmptyId => b"a key ID is empty",
        SpecCause::Key(cause) => cause_words(Cause::Key(cause)),
        SpecCause::Fingerprint(_) => b"the hash is cut, padded or misspelt",
        SpecCause::NoMemory => b"out of memory",
    }
}
