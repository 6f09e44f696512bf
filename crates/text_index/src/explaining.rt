//! Which lines explain that a key or a certificate is revoked.

ghost use Rattle.std.specs.Prelude.{◌≡◌, IfOk, OnOk};
ghost use Rattle.std.specs.List.{filter_map, slice_get};
ghost use Rattle.std.specs.List.Sorted.{IsStrictlySortedBy};
ghost use Rattle.std.specs.Option.{option_map};
ghost use Rattle.std.specs.Ordering.{nat_cmp};
ghost use Rattle.krl_entries.specs.Named.{named};
ghost use Rattle.text_entries.specs.AuthorityNames.{key_named};
ghost use Rattle.text_index.specs.Explaining.{authority_name, explained_by, explained_of};
ghost use Rattle.text_index.specs.Found.{FindsAll, FindsAsked, HasMore};
ghost use Rattle.text_index.specs.Indexing.{HasRegister};
ghost use Rattle.text_index.specs.NamingLines.{Register};

use crate::indexing::TextIndex;
use crate::name_index::NameIndex;
use crate::text_line::TextLine;
use krl_entries::{Name, Reason, Reasons};
use krl_types::Subject;
use ssh_wire::Bytes;
use std::alloc::{AllocError, Global};
use std::collections::BTreeSet;

/// The lines that give reasons for which a key or a certificate is revoked, the reasons that no line
/// gives, and the name of the certificate's authority.
#[derive(Drop)]
pub struct Explanation<'t> {
    /// The lines, each once, in the order of the texts.
    pub lines: Vec<TextLine<'t>>,
    /// Those of the reasons that no line gives.
    pub unnamed: Reasons,
    /// The name of the certificate's authority, if the texts give it one.
    pub authority: Option<Bytes>,
}

impl<'t> TextIndex<'t> {
    /// The lines whose entries give one of these reasons for the key or the certificate, those of
    /// the reasons that no line gives, and the name of the authority. Fails only if an allocation
    /// fails.
    pub fn explain(
        &self,
        alloc: Global,
        subject: &Subject<'_>,
        reasons: Reasons,
    ) -> Result<Explanation<'t>, AllocError>
        ensures { IfOk result (λ explanation. (texts : Register) → HasRegister self.now texts
            → explained_of explanation ≡ explained_by texts subject.now reasons) }
    {
        let mut found = BTreeSet::new(alloc);
        let unnamed = look_up(alloc, &self.names, subject, reasons, &mut found)?;
        let lines = self.lines_at(alloc, found)?;
        let authority = self.authority_of(alloc, subject)?;
        Ok(Explanation {
            lines,
            unnamed,
            authority,
        })
    }

    // The name of the authority of a certificate, if it has one.
    fn authority_of(
        &self,
        alloc: Global,
        subject: &Subject<'_>,
    ) -> Result<Option<Bytes>, AllocError>
        ensures { IfOk result (λ name.
            name ≡ authority_name (key_named self.now.authorities) subject.now.cert) }
    {
        let Some(cert) = &subject.cert else {
            return Ok(None);
        };
        let Some(name) = self.authorities.name(cert.authority) else {
            return Ok(None);
        };
        Ok(Some(Bytes::from_vec(Vec::from_slice(alloc, name)?)))
    }

    // The lines with these numbers, in their order.
    fn lines_at(
        &self,
        alloc: Global,
        mut found: BTreeSet<usize>,
    ) -> Result<Vec<TextLine<'t>>, AllocError>
        ensures lines { IfOk result (λ lines.
            lines.items ≡ filter_map (slice_get self.now.lines.items) found.keys) }
        ensures ordered { OnOk result (IsStrictlySortedBy nat_cmp found.keys) }
    {
        let mut lines = Vec::with_capacity(alloc, found.len())?;
        'numbers: while let Some(number) = found.pop_first() {
            if let Some(line) = self.lines.get(number) {
                lines.push(*line)?;
            }
        }
        Ok(lines)
    }
}

// Finds the lines that give these reasons. Returns the reasons that no line gives.
fn look_up(
    alloc: Global,
    names: &NameIndex,
    subject: &Subject<'_>,
    reasons: Reasons,
    found: &mut BTreeSet<usize>,
) -> Result<Reasons, AllocError>
    ensures { IfOk result (λ unnamed. FindsAll names.now subject.now reasons unnamed
        found.old.keys found.new.keys) }
{
    let mut bits = 0;
    let mut left = Reason::ALL.len();
    'reasons: while left > 0 {
        left -= 1;
        let reason = Reason::ALL[left];
        let name = reason.name(&*subject);
        let missing = is_missing(alloc, names, reasons.has(reason), name, found)?;
        bits = 2 * bits + u16::from(missing);
    }
    Ok(Reasons { bits })
}

// Finds the lines that have a name, if they are asked for. Returns whether they are, and there are
// none.
fn is_missing(
    alloc: Global,
    names: &NameIndex,
    asked: bool,
    name: Option<Name<'_>>,
    found: &mut BTreeSet<usize>,
) -> Result<bool, AllocError>
    ensures { IfOk result (λ missing. FindsAsked names.now asked (option_map named name.entry)
        missing found.old.keys found.new.keys) }
{
    if !asked {
        return Ok(false);
    }
    let Some(name) = name else {
        return Ok(true);
    };
    let lines = names.find(alloc, name)?;
    insert_all(found, &lines)?;
    Ok(lines.is_empty())
}

// Adds numbers to a set.
fn insert_all(found: &mut BTreeSet<usize>, lines: &[usize]) -> Result<(), AllocError>
    ensures { OnOk result (HasMore lines.now found.old.keys found.new.keys) }
{
    'lines: for line in lines {
        found.insert(*line)?;
    }
    Ok(())
}
