//! Lines of texts, and what they name.

ghost use Rattle.std.specs.Prelude.{◌≡◌, ◌++◌, ◌∷◌, [], OnOk};
ghost use Rattle.text_entries.specs.Lines.{beginning};
ghost use Rattle.text_entries.specs.Says.{line_says};
ghost use Rattle.text_index.specs.Indexing.{IndexesLine, IndexesText, Indexes, NamesAuthorities};

use crate::name_index::NameIndex;
use crate::text_line::TextLine;
use key_text::split_line;
use krl_entries::Revocations;
use krl_fingerprints::{KeysBy, list_by};
use span_sets::Held;
use std::alloc::{AllocError, Global};
use text_entries::{NamesByKey, Standing, TextCause, TextFault, read_text, take_line};

/// Texts by what their lines name. Contracts see the lines that have an entry, each with its entry,
/// in the order of the texts, and the names of authorities.
#[derive(Drop)]
pub struct TextIndex<'t> {
    pub(crate) by: KeysBy,
    pub(crate) lines: Vec<TextLine<'t>>,
    pub(crate) names: NameIndex,
    pub(crate) authorities: NamesByKey,
}

impl<'t> TextIndex<'t> {
    /// No texts, for queries that give keys so. Allocates nothing.
    pub fn new(alloc: Global, by: KeysBy) -> TextIndex<'t>
        ensures none { Indexes result [] }
        ensures by { result.by ≡ by }
    {
        TextIndex {
            by,
            lines: Vec::new(alloc),
            names: NameIndex::new(alloc),
            authorities: NamesByKey::new(alloc),
        }
    }

    /// Adds the lines of a text behind those of the texts before it. After a fault, which is the
    /// one that `read_text` reports, the index and the standing are of no more use.
    pub fn add_text(
        &mut self,
        alloc: Global,
        standing: &mut Standing,
        file: &'t str,
        text: &'t [u8],
    ) -> Result<(), TextFault>
        ensures { IndexesText file.now text.now result standing.old standing.new
            self.old self.new }
    {
        if let Err(error) = begin(alloc, standing) {
            return Err(TextFault {
                line: 1,
                cause: TextCause::from(error),
            });
        }
        let mut rest = text;
        let mut passed = 0;
        'lines: loop {
            let (line, after) = split_line(rest);
            let number = passed + 1;
            let added = self.add_line(
                alloc,
                standing,
                TextLine {
                    file,
                    number,
                    text: line,
                },
            );
            if let Err(cause) = added {
                return Err(TextFault {
                    line: number,
                    cause,
                });
            }
            let Some(after) = after else {
                return Ok(());
            };
            rest = after;
            passed = number;
        }
    }

    /// Gives authorities the names that stand behind the texts. Fails only if an allocation fails.
    pub fn name_authorities(&mut self, standing: &Standing) -> Result<(), AllocError>
        ensures { OnOk result (NamesAuthorities standing.now.names self.old self.new) }
    {
        let names = standing.names();
        self.authorities = match self.by {
            KeysBy::Blob => names.by_key()?,
            KeysBy::Fingerprint => names.by_fingerprint()?,
        };
        Ok(())
    }

    // Adds a line behind those before it, if it has no fault.
    fn add_line(
        &mut self,
        alloc: Global,
        standing: &mut Standing,
        line: TextLine<'t>,
    ) -> Result<(), TextCause>
        ensures { IndexesLine line.entry (line_says standing.old line.entry.text.now) result
            standing.old standing.new self.old self.new }
    {
        let mut held: Revocations<Held> = Revocations::new(alloc);
        take_line(alloc, &mut held, standing, line.text)?;
        let held = list_by(alloc, self.by, held)?;
        self.names.add(alloc, self.lines.len(), &held)?;
        push(&mut self.lines, line)?;
        Ok(())
    }
}

// No authority is current from now on, as at the beginning of a text. An empty text does that.
fn begin(alloc: Global, standing: &mut Standing) -> Result<(), AllocError>
    ensures { OnOk result (standing.new ≡ beginning standing.old) }
{
    let mut held: Revocations<Held> = Revocations::new(alloc);
    match read_text(alloc, &mut held, standing, b"") {
        Ok(()) => Ok(()),
        Err(_) => Err(AllocError),
    }
}

// Puts a line behind others.
fn push<'t>(lines: &mut Vec<TextLine<'t>>, line: TextLine<'t>) -> Result<(), AllocError>
    ensures { OnOk result (lines.new.items ≡ lines.old.items ++ line.entry ∷ []) }
{
    lines.push(line)?;
    Ok(())
}
