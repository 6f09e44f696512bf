//! The key of a line.

ghost use Rattle.plain_list.specs.Key.{Gives, judged_key, line_key, text_key};

use crate::fault::PlainFault;
use crate::line::{begins_with_key, content_of, is_remark};
use key_text::{LineFault, read_line};
use keyed_lines::KeyCause;
use openssh_keys::{Judgement, judge};
use ssh_cert::{SubjectFault, read_any};
use ssh_key::{KeyFault, PublicKey, plain_blob};
use ssh_wire::Bytes;
use std::alloc::Global;

/// The key that a line with this number revokes, if it revokes one.
#[tactic(auto, unfolding(crate::specs::Key::line_key))]
pub(crate) fn key_of_line(
    alloc: Global,
    number: u64,
    line: &[u8],
) -> Result<Option<Bytes>, PlainFault>
    ensures { Gives number result (line_key line.now) }
{
    let content = content_of(line);
    if is_remark(content) {
        return Ok(None);
    }
    key_of_text(alloc, number, content)
}

// The key that the content of a line revokes, if it is neither empty nor a comment: its plain key,
// or that of its certificate.
#[tactic(auto, unfolding(crate::specs::Key::text_key, keyed_lines::specs::Keys::subject_in))]
fn key_of_text(alloc: Global, number: u64, content: &[u8]) -> Result<Option<Bytes>, PlainFault>
    ensures { Gives number result (text_key content.now) }
{
    if !begins_with_key(content) {
        let cause = KeyCause::Line(LineFault::NoKey);
        return Err(PlainFault::Line { number, cause });
    }
    match read_line(alloc, content) {
        Ok(line) => match read_any(line.blob.as_slice()) {
            Ok(any) => judged_key(alloc, number, any.plain()),
            Err(fault) => Err(PlainFault::Line {
                number,
                cause: KeyCause::Subject(fault),
            }),
        },
        Err(LineFault::NoMemory) => Err(PlainFault::NoMemory),
        Err(fault) => Err(PlainFault::Line {
            number,
            cause: KeyCause::Line(fault),
        }),
    }
}

// The plain key, if OpenSSH's judgement accepts it.
fn judged_key(alloc: Global, number: u64, key: &PublicKey) -> Result<Option<Bytes>, PlainFault>
    ensures { Gives number result (judged_key key.now) }
{
    let fault = match judge(key) {
        Judgement::Accepted => {
            return match plain_blob(alloc, key) {
                Ok(blob) => Ok(Some(Bytes::from_vec(blob))),
                Err(_) => Err(PlainFault::NoMemory),
            };
        }
        Judgement::Short => return Ok(None),
        Judgement::Long => KeyFault::TooLong,
        Judgement::Point => KeyFault::Point,
    };
    Err(PlainFault::Line {
        number,
        cause: KeyCause::Subject(SubjectFault::Key(fault)),
    })
}
