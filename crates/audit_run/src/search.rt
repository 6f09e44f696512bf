//! Which files of directories are read, and where keys are sought in their lines.

ghost use Rattle.std.specs.Prelude.{◌≡◌};
ghost use Rattle.krl_audit.specs.Audit.{name_by};
ghost use Rattle.audit_run.specs.Search.{name_in, search_in, search_of, selects_every};

use audit_lines::reads_every;
use krl_audit::FileName;

/// Which files of directories are read, and where keys are sought in their lines.
#[derive(Clone, Copy)]
pub enum Search {
    /// Files with the names of files of keys, and private key files. A line has its key where sshd
    /// or ssh reads it.
    KeyFiles,
    /// Every regular file, whatever its name. A line has its key where sshd or ssh reads it.
    EveryFile,
    /// Every regular file, whatever its name. A line may have keys anywhere.
    Anywhere,
}

/// The search that two options of the command ask for.
pub(crate) fn search_of(scan: bool, every_file: bool) -> Search
    ensures { result ≡ search_of scan every_file }
{
    match (scan, every_file) {
        (true, _) => Search::Anywhere,
        (false, true) => Search::EveryFile,
        (false, false) => Search::KeyFiles,
    }
}

/// Whether every regular file of a directory is read, whatever its name.
pub(crate) fn selects_every(search: Search) -> bool
    ensures { result ≡ selects_every search }
{
    match search {
        Search::KeyFiles => false,
        Search::EveryFile | Search::Anywhere => true,
    }
}

/// The search in this directory. There are directories of which sshd reads every file.
pub(crate) fn search_in(search: Search, path: &str) -> Search
    ensures { result ≡ search_in search path.now }
{
    match search {
        Search::KeyFiles => search_of(false, reads_every(path.as_bytes())),
        Search::EveryFile | Search::Anywhere => search,
    }
}

/// The name of a file at this path, by which its lines are read.
pub(crate) fn name_in(search: Search, path: &str) -> FileName<'_>
    ensures { name_by result ≡ name_in search path.now }
{
    match search {
        Search::KeyFiles | Search::EveryFile => FileName {
            shown: path,
            read_as: Some(path),
        },
        Search::Anywhere => FileName {
            shown: path,
            read_as: None,
        },
    }
}
