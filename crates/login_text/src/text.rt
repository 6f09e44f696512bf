//! The lines of findings about logins.

ghost use Rattle.std.specs.Prelude.{◌≡◌, ◌++◌, OnOk, codes, option_map};
ghost use Rattle.login_lines.specs.Logins.{known, reported_of};
ghost use Rattle.text_index.specs.Explaining.{explained_of};
ghost use Rattle.audit_text.specs.Place.{place_of};
ghost use Rattle.line_pieces.specs.Visible.{visible};
ghost use Rattle.login_text.specs.Text.{answer_of, login_line, login_text, unread_login_line};
ghost use Rattle.login_text.specs.Text.{id_words};

use crate::why::LoginWhy;
use audit_text::{
    KeyPrint, Location, ReasonWords, Spelling, push_explained, unread_mark, verdict_mark,
};
use krl_entries::Reasons;
use krl_fingerprints::KeysBy;
use krl_types::Subject;
use line_pieces::{Printed, Visible, Words, pieces, put};
use login_lines::{Certificate, Login};
use std::alloc::{AllocError, Global};
use text_index::Explanation;

/// The facts about a login: the query for it, and the answer.
#[derive(Clone, Copy)]
pub struct LoginVerdict<'a> {
    /// The login.
    pub login: &'a Login<'a>,
    /// The decoded key ID of its certificate.
    pub id: &'a [u8],
    /// The query for it, by fingerprints.
    pub subject: &'a Subject<'a>,
    /// The reasons why its key or certificate is revoked.
    pub reasons: Reasons,
    /// The lines of texts that give these reasons, if texts are given.
    pub explanation: &'a Option<Explanation<'a>>,
}

// The key ID of a certificate, if it is one.
#[derive(Clone, Copy)]
struct IdOf<'a>(bool, &'a [u8]);

impl<'a> Printed for IdOf<'a> {
    ghost text = { λ of. id_words of.0 of.1.now };

    fn push_to(&self, out: &mut Vec<u8>) -> Result<(), AllocError> {
        if !self.0 {
            return Ok(());
        }
        put!(out; b" (ID ", Visible(self.1, false), b")")
    }
}

/// Makes the line of a login, in colour or not, and the lines that explain it. A line feed ends
/// each.
pub(crate) fn write_login(
    alloc: Global,
    coloured: bool,
    location: Location<'_, '_>,
    verdict: &LoginVerdict<'_>,
    line: &mut Vec<u8>,
) -> Result<(), AllocError>
    ensures { OnOk result (line.new.items ≡ login_text coloured (place_of location.entry)
        (reported_of verdict.now.login.now) verdict.now.id.now
        verdict.now.subject.now (answer_of verdict.now)) }
{
    write_login_line(alloc, coloured, location, verdict, line)?;
    match verdict.explanation {
        None => Ok(()),
        Some(explanation) => {
            push_explained(
                alloc,
                line,
                KeysBy::Fingerprint,
                verdict.subject,
                explanation,
            )
        }
    }
}

// Makes the line of a login, with its line feed, in colour or not.
fn write_login_line(
    alloc: Global,
    coloured: bool,
    location: Location<'_, '_>,
    verdict: &LoginVerdict<'_>,
    line: &mut Vec<u8>,
) -> Result<(), AllocError>
    ensures { OnOk result (line.new.items ≡ login_line coloured (place_of location.entry)
        (reported_of verdict.now.login.now) verdict.now.id.now
        verdict.now.subject.now (answer_of verdict.now)) }
{
    let by = KeysBy::Fingerprint;
    let LoginVerdict {
        login,
        id,
        subject,
        reasons,
        explanation,
    } = *verdict;
    let spelling = Spelling::explained(by, explanation);
    let key = subject.plain.as_slice();
    line.clear();
    put!(line; location, verdict_mark(coloured, reasons.any()),
        pieces!(Words(login.key.kind), b" ", KeyPrint { alloc, by, key }),
        ReasonWords { alloc, spelling, subject, reasons },
        pieces!(b": ", Visible(login.user, false), b" from ", Visible(login.address, false),
        IdOf(login.certificate.is_some(), id)), b"\n")
}

/// Makes the line for a line or a log that is not read, with its line feed, in colour or not.
pub(crate) fn write_unread(
    coloured: bool,
    location: Location<'_, '_>,
    why: LoginWhy,
    line: &mut Vec<u8>,
) -> Result<(), AllocError>
    ensures { OnOk result (line.new.items
        ≡ unread_login_line coloured (place_of location.entry) why) }
{
    line.clear();
    put!(line; location, unread_mark(coloured), why, b"\n")
}
