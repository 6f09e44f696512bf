//! Findings about logins, for people or as JSON objects.

ghost use Rattle.std.specs.Prelude.{◌≡◌, OnOk, option_map};
ghost use Rattle.json_lines.specs.Field.{json_line};
ghost use Rattle.login_lines.specs.Logins.{reported_of};
ghost use Rattle.audit_text.specs.Place.{place_of};
ghost use Rattle.login_text.specs.Object.{login_object, login_said, prefix_fields, step_word};
ghost use Rattle.login_text.specs.Object.{unread_login_fields, unread_login_object};
ghost use Rattle.login_text.specs.Object.{unread_login_said};
ghost use Rattle.login_text.specs.Text.{answer_of};

use crate::text::{LoginVerdict, write_login, write_unread};
use crate::why::{LoginWhy, Named as FaultOf};
use audit_text::{
    CertOf, ExplainedOf, Fingerprint, Format, Location, ReasonsOf, Spelling, status_word,
};
use json_lines::{Array, Fields, LineWriter, Text, fields, object, put_fields};
use krl_fingerprints::KeysBy;
use line_pieces::put;
use login_lines::Step;
use std::alloc::{AllocError, Global};

/// Makes the line of a login, and those that explain it.
pub fn say_login(
    alloc: Global,
    form: Format,
    location: Location<'_, '_>,
    verdict: &LoginVerdict<'_>,
    line: &mut Vec<u8>,
) -> Result<(), AllocError>
    ensures { OnOk result (line.new.items ≡ login_said form (place_of location.entry)
        (reported_of verdict.now.login.now) verdict.now.id.now
        verdict.now.subject.now (answer_of verdict.now)) }
{
    match form {
        Format::Text => write_login(alloc, false, location, verdict, line),
        Format::Colour => write_login(alloc, true, location, verdict, line),
        Format::Json => write_login_object(location, verdict, line),
    }
}

/// Makes the line for a line or a log that is not read.
pub fn say_unread_login(
    form: Format,
    location: Location<'_, '_>,
    why: LoginWhy,
    line: &mut Vec<u8>,
) -> Result<(), AllocError>
    ensures { OnOk result (line.new.items
        ≡ unread_login_said form (place_of location.entry) why) }
{
    match form {
        Format::Text => write_unread(false, location, why, line),
        Format::Colour => write_unread(true, location, why, line),
        Format::Json => object!(line; location, why),
    }
}

// Makes the object of a login.
fn write_login_object(
    location: Location<'_, '_>,
    verdict: &LoginVerdict<'_>,
    line: &mut Vec<u8>,
) -> Result<(), AllocError>
    ensures { OnOk result (line.new.items ≡ json_line (login_object (place_of location.entry)
        (reported_of verdict.now.login.now) verdict.now.subject.now
        (answer_of verdict.now))) }
{
    let by = KeysBy::Fingerprint;
    let subject = verdict.subject;
    let login = verdict.login;
    let spelling = Spelling::explained(by, verdict.explanation);
    object!(line; location,
        "status": status_word(verdict.reasons),
        "type": Text(login.key.kind),
        "fingerprint": Fingerprint(by, subject.plain.as_slice()),
        "user": Text(login.user),
        "from": Text(login.address),
        Prefix(login.prefix),
        "step": step_word(login.step),
        CertOf(by, &subject.cert),
        "reasons": Array(ReasonsOf(spelling, subject, verdict.reasons)),
        ExplainedOf(by, subject, verdict.explanation))
}

// The text before the message, if there is any.
#[derive(Drop)]
struct Prefix<'a>(&'a [u8]);

impl<'a> Fields for Prefix<'a> {
    ghost fields = { λ prefix. prefix_fields prefix.0.now };

    #[tactic(auto, unfolding(json_lines::specs::Field::fields_tokens))]
    fn put_fields(&self, alloc: Global, out: &mut LineWriter) -> Result<(), AllocError> {
        if self.0.is_empty() {
            return Ok(());
        }
        put_fields!(alloc, out; "time": Text(self.0))
    }
}

// Whether the user is logged in, or another step follows.
fn step_word(step: Step) -> &'static str
    ensures { result.now ≡ step_word step }
{
    match step {
        Step::Accepted => "accepted",
        Step::Partial => "partial",
    }
}

// Why a line or a log is not read.
impl Fields for LoginWhy {
    ghost fields = { unread_login_fields };

    fn put_fields(&self, alloc: Global, out: &mut LineWriter) -> Result<(), AllocError> {
        let mut fault = Vec::new(alloc);
        put!(&mut fault; FaultOf(*self))?;
        let mut why = Vec::new(alloc);
        put!(&mut why; *self)?;
        put_fields!(alloc, out; "status": "unread", "fault": Text(&fault), "why": Text(&why))
    }
}
