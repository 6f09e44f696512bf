//! The job that the options of a command line ask for (ssh-keygen(1), SYNOPSIS).

ghost use Rattle.std.specs.Prelude.{◌≡◌, option_map};
ghost use Rattle.std.specs.Char.{is_ascii_digit};
ghost use Rattle.std.specs.List.{list_all};
ghost use Rattle.krl_job.specs.CommandLine.{given_by};
ghost use Rattle.krl_job.specs.Job.{asked_of, authority_named, authority_of, fits, hash_called};
ghost use Rattle.krl_job.specs.Job.{hash_named, is_for_making, job_of, mode_of, number_of};
ghost use Rattle.krl_job.specs.Job.{version_named};

use crate::command_line::CommandLine;
use key_text::Hash;

// The maximum number of digits of a number.
const MOST_DIGITS: usize = 20;

/// The task of a run of the program.
#[derive(Clone, Copy, PartialEq, Eq)]
pub enum Mode {
    /// Lists the keys of a file.
    Keys,
    /// Lists the certificates of a file.
    Certs,
    /// Makes a list.
    Make,
    /// Queries a list for the keys of files.
    Query,
}

/// The value of `-s`: the certificate authority whose serials and key IDs a new list names.
#[derive(Drop)]
pub enum AuthorityOption<T> {
    /// `-s` is not given.
    NotGiven,
    /// All authorities.
    All,
    /// The authority of the first key in a file, given as the file's name and later as the open
    /// file.
    File(T),
}

/// The job that the options ask for.
#[derive(Drop)]
pub struct Job<'a> {
    /// The task of the run.
    pub mode: Mode,
    /// The file of `-f`.
    pub file: &'a str,
    /// Whether the list is updated instead of created.
    pub update: bool,
    /// The authority of `-s`.
    pub authority: AuthorityOption<&'a str>,
    /// The version of `-z`.
    pub version: Option<u64>,
    /// Whether the content of the list is printed.
    pub dump: bool,
    /// The hash of printed fingerprints.
    pub hash: Hash,
    /// The files that follow the options.
    pub files: Vec<&'a str>,
}

/// The job of a command line: none if the options do not go together, `-f` is missing, a file is
/// named between two uses of `-s`, or the value of `-E` or `-z` is not valid.
#[tactic(auto, unfolding(crate::specs::Job::job_of))]
pub fn job_of<'a>(given: CommandLine<'a>) -> Option<Job<'a>>
    ensures { option_map asked_of result ≡ job_of (given_by given.entry) }
{
    let mode = mode_of(&given)?;
    let file = given.file?;
    let hash = hash_named(given.hash)?;
    let version = version_named(given.version)?;
    Some(Job {
        mode,
        file,
        update: given.update,
        authority: authority_named(given.authority),
        version,
        dump: mode == Mode::Query && given.list,
        hash,
        files: given.files,
    })
}

// The mode, if the options go together.
fn mode_of(given: &CommandLine) -> Option<Mode>
    ensures { result ≡ mode_of (given_by given.now) }
{
    let mode = match (given.list, given.certificates, given.make, given.query) {
        (true, false, false, false) => Mode::Keys,
        (false, true, false, false) => Mode::Certs,
        (false, false, true, false) => Mode::Make,
        (_, false, false, true) => Mode::Query,
        _ => return None,
    };
    if fits(mode, given) { Some(mode) } else { None }
}

// Whether the other options go with the mode.
fn fits(mode: Mode, given: &CommandLine) -> bool
    ensures { result ≡ fits mode (given_by given.now) }
{
    match mode {
        Mode::Keys | Mode::Certs => !is_for_making(given) && given.files.is_empty(),
        Mode::Make => given.hash.is_none() && !given.is_divided,
        Mode::Query => !is_for_making(given) && given.hash.is_none(),
    }
}

// Whether there is an option that is only for making lists.
fn is_for_making(given: &CommandLine) -> bool
    ensures { result ≡ is_for_making (given_by given.now) }
{
    given.update || given.authority.is_some() || given.version.is_some()
}

// The hash of `-E`, SHA-256 if it is not given. None if no hash has this name.
fn hash_named(name: Option<&str>) -> Option<Hash>
    ensures { result ≡ hash_named (option_map (λ text. text.now) name.entry) }
{
    match name {
        None => Some(Hash::Sha256),
        Some(name) => hash_called(name),
    }
}

// The hash with this name, in upper or lower case.
fn hash_called(name: &str) -> Option<Hash>
    ensures { result ≡ hash_called name.now }
{
    if name.eq_ignore_ascii_case("md5") {
        Some(Hash::Md5)
    } else if name.eq_ignore_ascii_case("sha256") {
        Some(Hash::Sha256)
    } else {
        None
    }
}

// The version of `-z`, if it is given. The outer option is `None` if the text is not a version.
fn version_named(text: Option<&str>) -> Option<Option<u64>>
    ensures { result ≡ version_named (option_map (λ text. text.now) text.entry) }
{
    match text {
        None => Some(None),
        Some(text) => Some(Some(number_of(text)?)),
    }
}

/// The number of a text of one to twenty decimal digits, if it is below 2^64.
pub fn number_of(text: &str) -> Option<u64>
    ensures { result ≡ number_of text.now }
{
    if text.len() > MOST_DIGITS || !are_digits(text.as_bytes()) {
        return None;
    }
    match text.parse() {
        Ok(number) => Some(number),
        Err(_) => None,
    }
}

// Whether all bytes are decimal digits.
fn are_digits(bytes: &[u8]) -> bool
    ensures { result ≡ list_all is_ascii_digit bytes.now }
{
    bytes.iter().all(|byte| byte.is_ascii_digit())
}

// The authority of `-s`, if it is given: `none` means all, any other value is a file.
fn authority_named(name: Option<&str>) -> AuthorityOption<&str>
    ensures { authority_of result ≡ authority_named (option_map (λ text. text.now) name.entry) }
{
    match name {
        None => AuthorityOption::NotGiven,
        Some(name) if name.eq_ignore_ascii_case("none") => AuthorityOption::All,
        Some(name) => AuthorityOption::File(name),
    }
}
