//! Where an audit finds files.

ghost use Rattle.std.specs.Prelude.{◌≡◌, true, false, IfErr, IfOk, Err, Ok};
ghost use Rattle.audit_run.specs.Fact.{Breaks, Elsewhere, Excludes, Fact, Fails, Leads, Lists};
ghost use Rattle.audit_run.specs.Fact.{Opens, Sought, open_file};

use crate::file_kind::{Found, Opened};
use audit_lines::Refusal;
use byte_streams::Source;
use std::alloc::AllocError;

/// Files and directories by their paths. The answers about a path may change from one call to the
/// next.
pub trait Tree {
    /// A reader of the names of a directory, each ended by a zero byte.
    type Names: Source + Drop;

    /// A reader of an open file.
    type File: Source + Drop;

    // the facts that it may state
    ghost states: { Self → Fact → Type 0 };

    /// Looks where a path leads. A link is followed or not.
    fn look(&self, path: &str, followed: bool) -> Result<Found, Refusal>
        ensures { states self.now (Leads path.now followed result) };

    /// Whether the command excludes a name of a directory.
    fn is_excluded(&self, name: &[u8]) -> bool
        ensures { states self.now (Excludes name.now result) };

    /// Whether the directory that a link leads to has a name that is looked for.
    fn leads_to_sought(&self, path: &str) -> bool
        ensures { states self.now (Sought path.now result) };

    /// Whether a directory that was found is on another file system than the directory that was
    /// named last, and the audit stays on one.
    fn is_elsewhere(&self, path: &str) -> bool
        ensures { states self.now (Elsewhere path.now result) };

    /// Opens what is at a path, or says why not: what a look has found, or, without one, what the
    /// command names, which is waited for. Fails only if an allocation fails.
    fn open(
        &self,
        path: &str,
        looked: Option<Found>,
    ) -> Result<Result<Opened<Self::File>, Refusal>, AllocError>
        ensures opened { IfOk result (λ opened. IfOk opened (λ it.
            states self.now (Opens path.now looked
            (Ok (open_file it.is_file it.identity (Self.File.left it.file)))))) }
        ensures closed { IfOk result (λ opened. IfErr opened (λ refusal.
            states self.now (Opens path.now looked (Err refusal)))) }
        ensures working { IfOk result (λ opened. IfOk opened (λ it.
            Self.File.has_failed it.file ≡ false)) };

    /// Why an open file could not be read to its end.
    fn why_unread(&self, path: &str, file: &Self::File) -> Refusal
        requires { Self.File.has_failed file.now ≡ true }
        ensures { states self.now (Fails path.now result) };

    /// A reader of the names of a directory that is named or was found, or why it cannot be
    /// entered. One that is named may be a link. Fails only if an allocation fails.
    fn enter(&self, path: &str, named: bool) -> Result<Result<Self::Names, Refusal>, AllocError>
        ensures entered { IfOk result (λ entered. IfOk entered (λ names.
            states self.now (Lists path.now named (Ok (Self.Names.left names))))) }
        ensures closed { IfOk result (λ entered. IfErr entered (λ refusal.
            states self.now (Lists path.now named (Err refusal)))) }
        ensures working { IfOk result (λ entered. IfOk entered (λ names.
            Self.Names.has_failed names ≡ false)) };

    /// Why the names of a directory could not be read to their end.
    fn why_broken(&self, path: &str, named: bool, names: &Self::Names) -> Refusal
        requires { Self.Names.has_failed names.now ≡ true }
        ensures { states self.now (Breaks path.now named result) };
}
