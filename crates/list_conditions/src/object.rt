//! The object of a condition, and the last one of a check.

ghost use Rattle.std.specs.Prelude.{◌≡◌, OnOk};
ghost use Rattle.json_lines.specs.Field.{json_line};
ghost use Rattle.list_conditions.specs.Object.{condition_object, end_object, finding_fields};
ghost use Rattle.list_conditions.specs.Object.{kind_word};

use crate::condition::{Condition, SshdUse};
use crate::text::{Dsa, no_date, no_version};
use cert_listing::time_text;
use json_lines::{Digits, Fields, LineWriter, Named, Text, object, put_fields};
use line_pieces::put;
use std::alloc::{AllocError, Global};

/// Makes the line of a condition about the list or the file of this name.
pub(crate) fn write_object(
    name: &str,
    condition: Condition<'_>,
    line: &mut Vec<u8>,
) -> Result<(), AllocError>
    ensures { OnOk result (line.new.items
        ≡ json_line (condition_object name.now condition.entry)) }
{
    object!(line; "condition": condition.word(), "passed": !condition.fails(),
        Named(kind_word(condition), name), Finding(condition))
}

/// Makes the last line of a check.
pub(crate) fn write_end(refused: bool, line: &mut Vec<u8>) -> Result<(), AllocError>
    ensures { OnOk result (line.new.items ≡ json_line (end_object refused)) }
{
    object!(line; "status": "done", "passed": !refused)
}

// The name of the field that has the name of the list or of the file.
fn kind_word(condition: Condition<'_>) -> &'static str
    ensures { result.now ≡ kind_word condition.entry }
{
    match condition {
        Condition::Keys(..) => "file",
        _ => "list",
    }
}

// The finding of a condition: the last fields of its object.
#[derive(Drop)]
struct Finding<'a>(Condition<'a>);

impl<'a> Fields for Finding<'a> {
    ghost fields = { λ finding. finding_fields finding.0 };

    #[tactic(auto, unfolding(json_lines::specs::Field::fields_tokens))]
    fn put_fields(&self, alloc: Global, out: &mut LineWriter) -> Result<(), AllocError> {
        match self.0 {
            Condition::OpenSsh(None) | Condition::OpenSshLines(None) | Condition::Empty(_) => {
                Ok(())
            }
            Condition::OpenSsh(Some(difference)) => {
                put_fields!(alloc, out; "why": difference.words())
            }
            Condition::OpenSshLines(Some(line)) => {
                let mut why = Vec::new(alloc);
                put!(&mut why; Dsa(line))?;
                put_fields!(alloc, out; "why": Text(&why))
            }
            Condition::Slow(authorities, most) => {
                put_fields!(alloc, out; "cas": authorities, "most": most)
            }
            Condition::Version(version, least) => {
                put_fields!(alloc, out; "version": Digits(u128::from(version)),
                    "least": Digits(u128::from(least)))
            }
            Condition::NoVersion => put_fields!(alloc, out; "why": no_version()),
            Condition::Age(generated, now, max_age) => {
                let made = time_text(alloc, generated)?;
                let present = time_text(alloc, now)?;
                put_fields!(alloc, out; "generated": Text(&made), "now": Text(&present),
                    "max_age": max_age)
            }
            Condition::NoDate => put_fields!(alloc, out; "why": no_date()),
            Condition::NothingLost(other) => {
                put_fields!(alloc, out; "other": other, "entries": 0_u64)
            }
            Condition::Lost(other, entries) => {
                put_fields!(alloc, out; "other": other, "entries": entries)
            }
            Condition::Sshd(output, SshdUse::This) => put_fields!(alloc, out; "sshd": output),
            Condition::Sshd(output, SshdUse::Nothing) => {
                put_fields!(alloc, out; "sshd": output, "why": "it uses no list")
            }
            Condition::Sshd(output, SshdUse::Other) => {
                put_fields!(alloc, out; "sshd": output, "why": "it uses another list")
            }
            Condition::Keys(_, counts) => counts.put_fields(alloc, out),
        }
    }
}
