//! Making a list from an old one and from specification files.

ghost use Rattle.std.specs.Prelude.{◌≡◌, IfErr, IfOk, Ok, false, option_map};
ghost use Rattle.std.specs.Option.{ForSome};
ghost use Rattle.krl_make.specs.Making.{HasNumbers, IsCurrentFile, Makes, WritesList, WritesMore};
ghost use Rattle.krl_make.specs.Making.{after_old, files_entries};
ghost use Rattle.krl_make.specs.Over.{Refuses, RunsOver};
ghost use Rattle.krl_spec.specs.Under.{authority_under};

use crate::authority::{AuthorityOption, first_key};
use crate::base::{Base, read_base};
use crate::files::add_files;
use byte_streams::Source;
use krl_core::{Header, Revocations};
use krl_spec::Under;
use krl_writer::{TextFault, krl_text};
use list_making::{Made, next_version};
use run_faults::{Cause, Named, RunFault};
use span_sets::Held;
use std::alloc::Global;

// The version of a list that follows no other.
const FIRST: u64 = 0;

/// The list that is wanted, apart from the content of the old one.
#[derive(Drop)]
pub struct Wanted<'a> {
    /// Its name.
    pub name: &'a str,
    /// Whether the old list is updated.
    pub update: bool,
    /// Its version, unless that of the old list decides it.
    pub version: Option<u64>,
    /// Its date in seconds since 1970.
    pub date: u64,
    /// The authority of serials and key IDs.
    pub authority: &'a AuthorityOption<'a>,
    /// The files whose lines it names.
    pub files: &'a [Named<'a>],
}

/// The bytes of a list that revokes what the old one revoked, if it is updated, and what the lines
/// of the files name. Its version is the given one, otherwise one more than that of the old list,
/// otherwise 0, and its comment is that of the old list.
///
/// The first fault stops the run: that of the old list; that its version is the largest; that of
/// the authority's file; those of the files and lines in order; that the list would be too long to
/// be read.
pub fn make_run<'a, R: Source + Drop>(
    alloc: Global,
    wanted: &Wanted<'a>,
    old: Option<R>,
) -> Result<Made<()>, RunFault<'a>>
    requires { ForSome old (λ reader. R.has_failed reader ≡ false) }
    ensures made { IfOk result (λ made.
        RunsOver wanted.now (option_map R.left old) (Ok made.bytes.items)) }
    ensures refused { IfErr result (Refuses wanted.now (option_map R.left old)) }
{
    let base = match read_base(alloc, wanted, old) {
        Ok(base) => base,
        Err(stop) => return Err(stop),
    };
    match wanted.make_over(alloc, base) {
        Ok(bytes) => Ok(Made { bytes, facts: () }),
        Err(stop) => Err(stop),
    }
}

impl<'a> Wanted<'a> {
    // The bytes of a list with the old revocations and those that the lines of the files name.
    fn make_over(&self, alloc: Global, base: Base) -> Result<Vec<u8>, RunFault<'a>>
        ensures { Makes (λ made. made.items) self.now.name.now (Ok base) self.now.authority.now
            self.now.version self.now.files.now
            (after_old self.now.name.now self.now.authority.now self.now.version self.now.date
            self.now.files.now base) result }
    {
        let Some(version) = next_version(self.version, base.version, FIRST) else {
            return Err(RunFault::whole(self.name, Cause::VersionFull));
        };
        let header = Header {
            version,
            date: self.date,
            comment: base.comment,
        };
        let held = base.revocations;
        match self.authority {
            AuthorityOption::NotGiven => self.add_and_write(alloc, &header, held, Under::NotGiven),
            AuthorityOption::All => self.add_and_write(alloc, &header, held, Under::All),
            AuthorityOption::File(file) => {
                let key = first_key(alloc, file)?;
                self.add_and_write(alloc, &header, held, Under::Of(key.as_slice()))
            }
        }
    }

    // Adds the entries of the files' lines to the revocations, and writes the list.
    fn add_and_write(
        &self,
        alloc: Global,
        header: &Header,
        held: Revocations<Held>,
        under: Under,
    ) -> Result<Vec<u8>, RunFault<'a>>
        requires { HasNumbers header.now }
        ensures { WritesMore (λ made. made.items) self.now.name.now header.now held
            (IsCurrentFile (authority_under under.entry) self.now.files.now)
            (files_entries (authority_under under.entry) self.now.files.now) result }
    {
        let mut revocations = held;
        add_files(alloc, &mut revocations, under, self.files)?;
        write_list(alloc, self.name, header, &revocations)
    }
}

// The text of a list.
fn write_list<'a>(
    alloc: Global,
    name: &'a str,
    header: &Header,
    revocations: &Revocations<Held>,
) -> Result<Vec<u8>, RunFault<'a>>
    requires { HasNumbers header.now }
    ensures { WritesList (λ made. made.items) name.now header.now revocations.now result }
{
    match krl_text(alloc, header, revocations) {
        Ok(text) => Ok(text),
        Err(TextFault::NoMemory) => Err(RunFault::whole(name, Cause::NoMemory)),
        Err(TextFault::TooLong) => Err(RunFault::whole(name, Cause::TextTooLong)),
    }
}
