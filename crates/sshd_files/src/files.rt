//! The files that sshd(8) reads for keys.

ghost use Rattle.std.specs.Prelude.{◌≡◌, IfOk, map, option_map};
ghost use Rattle.std.specs.Option.{option_to_list};
ghost use Rattle.std.specs.Result.{result_map_both};
ghost use Rattle.sshd_files.specs.Files.{added, all_added, all_files, file, file_of, files_at};
ghost use Rattle.sshd_files.specs.Files.{files_in, host_files, key_of, listed_of, number_of};
ghost use Rattle.sshd_files.specs.Files.{unknown_word, user_files, users_files};
ghost use Rattle.sshd_files.specs.Settings.{configuration_of};
ghost use Rattle.sshd_files.specs.Users.{account_of};
ghost use Rattle.sshd_files.specs.Words.{texts};

use crate::pattern::{PatternFault, path_of, patterns_of, unknown_word};
use crate::settings::Settings;
use crate::users::User;
use std::alloc::{AllocError, Global};
use std::collections::BTreeSet;

/// What a file is read for.
#[derive(Clone, Copy, PartialEq, Eq)]
pub enum SshdFileKind {
    /// Public keys or certificates, in lines.
    Keys,
    /// A private or public key of the host.
    HostKey,
    /// No file: the command that prints keys, with its arguments.
    Command,
    /// No file: what the command printed. `files_of` returns none of this kind.
    Output,
}

/// A file that sshd reads for keys.
#[derive(Drop)]
pub struct SshdFile {
    /// What it is read for.
    pub kind: SshdFileKind,
    /// Its path, or the text of the command.
    pub path: Vec<u8>,
}

// The files so far, and their kinds and paths as a set.
#[derive(Drop)]
struct Listing {
    files: Vec<SshdFile>,
    seen: BTreeSet<Vec<u8>>,
}

/// The files that each sshd with one of these settings reads for the keys of these users, each file
/// once, or the first word that sshd cannot read. A command that was asked for its keys is none of
/// the files.
pub fn files_of<'t>(
    alloc: Global,
    settings: &[Settings<'t>],
    users: &[User<'t>],
    asked: bool,
) -> Result<Result<Vec<SshdFile>, PatternFault<'t>>, AllocError>
    ensures { IfOk result (λ read.
        result_map_both (λ files. map file_of files.items) (λ fault. fault.word.now) read
        ≡ files_at (map configuration_of settings.now) (map account_of users.now) asked) }
{
    if let Some(word) = first_unknown(settings) {
        return Ok(Err(PatternFault { word }));
    }
    let mut listing = Listing {
        files: Vec::new(alloc),
        seen: BTreeSet::new(alloc),
    };
    listing.add_all(alloc, settings, users, asked)?;
    Ok(Ok(listing.files))
}

// The first word that sshd cannot read.
fn first_unknown<'t>(settings: &[Settings<'t>]) -> Option<&'t [u8]>
    ensures { option_map (λ word. word.now) result
        ≡ unknown_word (map configuration_of settings.now) }
{
    for one in settings {
        if let Some(word) = unknown_word(one.files) {
            return Some(word);
        }
    }
    None
}

// A file as the bytes that the set holds, from the last one to the first: most paths begin alike.
fn key_of(alloc: Global, kind: SshdFileKind, path: &[u8]) -> Result<Vec<u8>, AllocError>
    ensures { IfOk result (λ key. key.items ≡ key_of (file kind path.now)) }
{
    let mut key = Vec::new(alloc);
    key.push(number_of(kind))?;
    key.extend_from_slice(path)?;
    key.reverse();
    Ok(key)
}

// The number of a kind.
fn number_of(kind: SshdFileKind) -> u8
    ensures { result ≡ number_of kind }
{
    match kind {
        SshdFileKind::Keys => 0,
        SshdFileKind::HostKey => 1,
        SshdFileKind::Command => 2,
        SshdFileKind::Output => 3,
    }
}

impl Listing {
    // Adds a file, unless it is there.
    #[tactic(auto, unfolding(crate::specs::Files::added))]
    fn add(&mut self, alloc: Global, kind: SshdFileKind, path: Vec<u8>) -> Result<(), AllocError>
        ensures { IfOk result (λ done.
            listed_of self.new ≡ added (listed_of self.old) (file kind path.items)) }
    {
        let key = key_of(alloc, kind, &path)?;
        if self.seen.insert(key)? {
            self.files.push(SshdFile { kind, path })?;
        }
        Ok(())
    }

    // Adds files with these paths.
    #[tactic(auto, unfolding(crate::specs::Files::all_added))]
    fn add_paths(
        &mut self,
        alloc: Global,
        kind: SshdFileKind,
        paths: &[&[u8]],
    ) -> Result<(), AllocError>
        ensures { IfOk result (λ done. listed_of self.new
            ≡ all_added (listed_of self.old) (map (file kind) (texts paths.now))) }
    {
        let mut rest = paths;
        'all: while let [path, next @ ..] = rest {
            self.add(alloc, kind, Vec::from_slice(alloc, path)?)?;
            rest = next;
        }
        Ok(())
    }

    // Adds a file with this path, if there is one.
    #[tactic(auto, unfolding(crate::specs::Files::all_added))]
    fn add_path(
        &mut self,
        alloc: Global,
        kind: SshdFileKind,
        path: Option<&[u8]>,
    ) -> Result<(), AllocError>
        ensures { IfOk result (λ done. listed_of self.new ≡ all_added (listed_of self.old)
            (map (file kind) (option_to_list (option_map (λ path. path.now) path.entry)))) }
    {
        match path {
            Some(path) => self.add(alloc, kind, Vec::from_slice(alloc, path)?),
            None => Ok(()),
        }
    }

    // Adds the paths of one user.
    #[tactic(auto, unfolding(crate::specs::Files::all_added))]
    fn add_user(
        &mut self,
        alloc: Global,
        patterns: &[&[u8]],
        user: &User<'_>,
    ) -> Result<(), AllocError>
        ensures { IfOk result (λ done. listed_of self.new ≡ all_added (listed_of self.old)
            (user_files (texts patterns.now) (account_of user.now))) }
    {
        let mut rest = patterns;
        'all: while let [word, next @ ..] = rest {
            self.add(alloc, SshdFileKind::Keys, path_of(alloc, user, word)?)?;
            rest = next;
        }
        Ok(())
    }

    // Adds the paths of all users.
    fn add_users(
        &mut self,
        alloc: Global,
        patterns: &[&[u8]],
        users: &[User<'_>],
    ) -> Result<(), AllocError>
        ensures { IfOk result (λ done. listed_of self.new ≡ all_added (listed_of self.old)
            (users_files (texts patterns.now) (map account_of users.now))) }
    {
        for user in users {
            self.add_user(alloc, patterns, user)?;
        }
        Ok(())
    }

    // Adds the files of the settings that are those of no user.
    #[tactic(auto, using(crate::proofs::Adding::append), unfolding(crate::specs::Files::all_added))]
    fn add_host(
        &mut self,
        alloc: Global,
        settings: &Settings<'_>,
        asked: bool,
    ) -> Result<(), AllocError>
        ensures { IfOk result (λ done. listed_of self.new ≡ all_added (listed_of self.old)
            (host_files (configuration_of settings.now) asked)) }
    {
        self.add_path(alloc, SshdFileKind::Keys, settings.authorities)?;
        self.add_paths(alloc, SshdFileKind::HostKey, &settings.host_keys)?;
        self.add_paths(alloc, SshdFileKind::Keys, &settings.host_certificates)?;
        if asked {
            return Ok(());
        }
        self.add_path(alloc, SshdFileKind::Command, settings.command)
    }

    // Adds all files of the settings.
    fn add_settings(
        &mut self,
        alloc: Global,
        settings: &Settings<'_>,
        users: &[User<'_>],
        asked: bool,
    ) -> Result<(), AllocError>
        ensures { IfOk result (λ done. listed_of self.new ≡ all_added (listed_of self.old)
            (files_in (map account_of users.now) asked (configuration_of settings.now))) }
    {
        let patterns = patterns_of(alloc, settings.files)?;
        self.add_users(alloc, &patterns, users)?;
        self.add_host(alloc, settings, asked)
    }

    // Adds all files of all settings.
    fn add_all(
        &mut self,
        alloc: Global,
        settings: &[Settings<'_>],
        users: &[User<'_>],
        asked: bool,
    ) -> Result<(), AllocError>
        ensures { IfOk result (λ done. listed_of self.new ≡ all_added (listed_of self.old)
            (all_files (map configuration_of settings.now) (map account_of users.now) asked)) }
    {
        for one in settings {
            self.add_settings(alloc, one, users, asked)?;
        }
        Ok(())
    }
}
