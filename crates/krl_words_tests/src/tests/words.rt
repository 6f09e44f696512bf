//! The words of the command line of `krl-keygen`.

use key_text::Hash;
use krl_job::{AuthorityOption, Job, Mode};
use krl_words::command_of;
use option_table::CommandFault;
use std::alloc::{AllocError, Global};
use std::test::Fail;

// The version of the program.
const VERSION: &str = "12.3.45 (0123456789ab)";

// The job that the words ask for, after the name of the program.
fn job_by<'a>(alloc: Global, words: &'a [&'a str]) -> Result<Job<'a>, &'static str> {
    match command_of(alloc, VERSION, words) {
        Ok(job) => Ok(job),
        Err(_) => Err("the words ask for a job"),
    }
}

// Why the words ask for no job.
fn fault_by(alloc: Global, words: &[&str]) -> Result<CommandFault, &'static str> {
    match command_of(alloc, VERSION, words) {
        Ok(_) => Err("the words ask for nothing"),
        Err(fault) => Ok(fault),
    }
}

// The words, and the job that they ask for: the mode, the file, the hash and the files.
type Asked<'a> = (&'a [&'a str], Mode, &'a str, Hash, &'a [&'a str]);

const JOBS: [Asked<'static>; 7] = [
    (&["ssh-keygen", "-LfE"], Mode::Certs, "E", Hash::Sha256, &[]),
    (
        &["ssh-keygen", "a", "-fk", "b", "-Q", "a"],
        Mode::Query,
        "k",
        Hash::Sha256,
        &["a", "b", "a"],
    ),
    (
        &["ssh-keygen", "-Q", "-f", "k", "--", "-l"],
        Mode::Query,
        "k",
        Hash::Sha256,
        &["-l"],
    ),
    (
        &["ssh-keygen", "-Q", "-f", "", "-"],
        Mode::Query,
        "",
        Hash::Sha256,
        &["-"],
    ),
    (
        &["ssh-keygen", "-f", "x", "-lE", "MD5"],
        Mode::Keys,
        "x",
        Hash::Md5,
        &[],
    ),
    // if an option is given twice, the last value counts
    (
        &["ssh-keygen", "-Q", "-Q", "-f", "k", "a", "-f", "m", "b"],
        Mode::Query,
        "m",
        Hash::Sha256,
        &["a", "b"],
    ),
    (
        &["ssh-keygen", "-l", "-E", "sha1", "-E", "md5", "-f", "x"],
        Mode::Keys,
        "x",
        Hash::Md5,
        &[],
    ),
];

// Whether the job is that of a row.
fn is_asked(job: &Job, row: &Asked) -> bool {
    let (_, mode, file, hash, files) = row;
    job.mode == *mode && job.file == *file && job.hash == *hash && job.files.as_slice() == *files
}

#[test]
fn jobs(rt: HostRuntime) -> Result<(), Fail> {
    for (i, row) in JOBS.iter().enumerate() {
        let job = job_by(rt.alloc(), row.0)?;
        assert!(rt; is_asked(&job, row), "in row {i}");
    }
    Ok(())
}

#[test]
fn contents_are_asked_for(rt: HostRuntime) -> Result<(), Fail> {
    for (words, dump) in [
        (["ssh-keygen", "-lQf", "k"], true),
        (["ssh-keygen", "-lf", "k"], false),
    ] {
        let job = job_by(rt.alloc(), &words)?;
        assert_eq!(rt; job.dump, dump);
    }
    Ok(())
}

// Words with `-k`, whether they update, the authority, the version and the files.
type Making<'a> = (&'a [&'a str], bool, &'a str, Option<u64>, &'a [&'a str]);

const MAKING: [Making<'static>; 8] = [
    (
        &["ssh-keygen", "-kuf", "l", "a", "-"],
        true,
        "",
        None,
        &["a", "-"],
    ),
    (
        &["ssh-keygen", "-k", "-f", "l", "-s", "ca.pub"],
        false,
        "of ca.pub",
        None,
        &[],
    ),
    (
        &["ssh-keygen", "-k", "-s", "ca", "-f", "l", "-s", "nOnE"],
        false,
        "all",
        None,
        &[],
    ),
    (
        &["ssh-keygen", "a", "-z18446744073709551615", "-k", "-fl"],
        false,
        "",
        Some(u64::MAX),
        &["a"],
    ),
    (
        &[
            "ssh-keygen",
            "-k",
            "-f",
            "l",
            "-z",
            "x",
            "-z",
            "00000000000000000001",
        ],
        false,
        "",
        Some(1),
        &[],
    ),
    // uses of -s that no file divides
    (
        &["ssh-keygen", "x", "-ks", "a", "-f", "l", "-sb", "y"],
        false,
        "of b",
        None,
        &["x", "y"],
    ),
    (
        &["ssh-keygen", "-k", "-s", "a", "x", "-f", "l", "y"],
        false,
        "of a",
        None,
        &["x", "y"],
    ),
    (
        &["ssh-keygen", "-k", "-fl", "-s", "a", "--", "x", "-s", "b"],
        false,
        "of a",
        None,
        &["x", "-s", "b"],
    ),
];

// Whether the authority is the one of these words.
fn is_authority(authority: &AuthorityOption<&str>, words: &str) -> bool {
    match authority {
        AuthorityOption::NotGiven => words.is_empty(),
        AuthorityOption::All => words == "all",
        AuthorityOption::File(name) => words.strip_prefix("of ") == Some(*name),
    }
}

// Whether the job makes the list of a row.
fn is_making(job: &Job, row: &Making) -> bool {
    let (_, update, authority, version, files) = row;
    job.mode == Mode::Make
        && job.file == "l"
        && job.update == *update
        && is_authority(&job.authority, *authority)
        && job.version == *version
        && job.files.as_slice() == *files
}

#[test]
fn making(rt: HostRuntime) -> Result<(), Fail> {
    for (i, row) in MAKING.iter().enumerate() {
        let job = job_by(rt.alloc(), row.0)?;
        assert!(rt; is_making(&job, row), "in row {i}");
    }
    Ok(())
}

const MISUSED: [&[&str]; 13] = [
    &["ssh-keygen"],
    &["ssh-keygen", "-Q"],
    &["ssh-keygen", "-f", "k"],
    &["ssh-keygen", "-Q", "-l", "-E", "md5", "-f", "k"],
    &["ssh-keygen", "-l", "-f", "k", "a"],
    &["ssh-keygen", "-l", "-L", "-f", "k"],
    &["ssh-keygen", "-l", "-E", "sha1", "-f", "k"],
    &["ssh-keygen", "-Q", "-f", "k", "-u"],
    &["ssh-keygen", "-k", "-f", "k", "-z", "18446744073709551616"],
    &["ssh-keygen", "-k", "-f", "k", "-z", "\u{661}"],
    // a file between two uses of -s
    &[
        "ssh-keygen",
        "-k",
        "-f",
        "l",
        "-s",
        "a",
        "x",
        "-s",
        "b",
        "y",
    ],
    &["ssh-keygen", "-kfl", "-sa", "-", "-uz", "1", "-sa"],
    &[
        "ssh-keygen",
        "-s",
        "none",
        "-s",
        "a",
        "x",
        "-kf",
        "l",
        "-us",
        "none",
    ],
];

// Whether the fault is a misuse, and says so.
fn is_misuse(alloc: Global, fault: &CommandFault) -> Result<bool, AllocError> {
    let text = format!(in alloc; "{fault}")?;
    Ok(fault.number() == 1 && text.as_str() == "usage 1 Usage")
}

#[test]
fn misused(rt: HostRuntime) -> Result<(), Fail> {
    for (i, words) in MISUSED.iter().enumerate() {
        let fault = fault_by(rt.alloc(), *words)?;
        assert!(rt; is_misuse(rt.alloc(), &fault)?, "in row {i}");
    }
    Ok(())
}

// Whether the fault is that the words cannot be parsed, or that they ask for help, and has a text
// to print.
fn reports(fault: &CommandFault, of_help: bool) -> bool {
    match fault {
        CommandFault::Words { help, text } => *help == of_help && !text.is_empty(),
        _ => false,
    }
}

// Words, and whether they ask for help.
const ANSWERED: [(&[&str], bool); 5] = [
    (&["ssh-keygen", "-Q", "-h"], true),
    (&["ssh-keygen", "-x"], false),
    (&["ssh-keygen", "--query", "-f", "k"], false),
    (&["ssh-keygen", "-Q", "-f", "--"], false),
    (&["ssh-keygen", "-k", "-f", "k", "-z", "1", "-z"], false),
];

#[test]
fn answered_in_words(rt: HostRuntime) -> Result<(), Fail> {
    for (i, (words, help)) in ANSWERED.iter().enumerate() {
        let fault = fault_by(rt.alloc(), *words)?;
        assert!(rt; reports(&fault, *help), "in row {i}");
    }
    Ok(())
}

// Words that ask for the version.
const VERSIONS: [&[&str]; 3] = [
    &["ssh-keygen", "--version"],
    &["krl-keygen", "-Q", "--version", "-Z"],
    &["other", "-f", "k", "--version"],
];

#[test]
fn the_version(rt: HostRuntime) -> Result<(), Fail> {
    for (i, words) in VERSIONS.iter().enumerate() {
        match fault_by(rt.alloc(), *words)? {
            CommandFault::Words { help, text } => {
                let wanted = "krl-keygen 12.3.45 (0123456789ab)\n";
                assert!(rt; help && text.as_str() == wanted, "in row {i}");
            }
            _ => return Err(Fail::from("the words ask for the version")),
        }
    }
    Ok(())
}

// The first words, followed by this number of file names.
fn with_files(
    alloc: Global,
    first: &[&'static str],
    count: usize,
) -> Result<Vec<&'static str>, AllocError> {
    let mut words = Vec::from_slice(alloc, first)?;
    for _ in 0..count {
        words.push("file")?;
    }
    Ok(words)
}

// Whether the words, followed by this number of file names, ask for these files.
fn asks_for_files(alloc: Global, first: &[&'static str], count: usize) -> Result<bool, Fail> {
    let words = with_files(alloc, first, count)?;
    let job = job_by(alloc, &words)?;
    let files = words.get(4..).unwrap_or(&[]);
    Ok(job.files.len() == count && job.files.as_slice() == files)
}

#[test]
fn many_files(rt: HostRuntime) -> Result<(), Fail> {
    for first in ["-Q", "-k"] {
        let words = ["ssh-keygen", first, "-f", "k"];
        assert!(rt; asks_for_files(rt.alloc(), &words, 5_000)?, "after {first}");
    }
    Ok(())
}

// A word of this length.
fn letters(alloc: Global, size: usize) -> Result<String, AllocError> {
    let mut text = String::new(alloc);
    for _ in 0..size {
        text.push('a')?;
    }
    Ok(text)
}

// Whether long names of the list and of a file are accepted.
fn takes_names(alloc: Global, size: usize) -> Result<bool, Fail> {
    let name = letters(alloc, size)?;
    let words = ["ssh-keygen", "-Q", "-f", name.as_str(), name.as_str()];
    let job = job_by(alloc, &words)?;
    Ok(job.file == name.as_str() && job.files.as_slice() == &words[4..])
}

// Whether a long word that is not an option is reported.
fn reports_word(alloc: Global, size: usize) -> Result<bool, Fail> {
    let name = letters(alloc, size)?;
    let word = format!(in alloc; "--{}", name.as_str())?;
    let words = ["ssh-keygen", word.as_str()];
    let fault = fault_by(alloc, &words)?;
    Ok(reports(&fault, false))
}

#[test]
fn long_words(rt: HostRuntime) -> Result<(), Fail> {
    for size in [1_025, 4_097, 70_001] {
        assert!(rt; takes_names(rt.alloc(), size)?, "of {size} letters");
        assert!(rt; reports_word(rt.alloc(), size)?, "of {size} letters");
    }
    Ok(())
}
