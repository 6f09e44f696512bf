//! The subcommands that the program has, and their options (krl(1), SYNOPSIS).

ghost use Rattle.std.specs.Prelude.{◌≡◌, IfOk, false};
ghost use Rattle.clap.specs.Simple.{app_of, shape_of};
ghost use Rattle.clap.specs.declared.builder.command.Command.TheViews.{out-Command};
ghost use Rattle.krl_arguments.specs.Options.{program, subcommand_by};

use clap::Command;
use option_table::{Argument, Syntax, with_arguments};
use std::alloc::{AllocError, Global};

/// The program's own name, whatever name it is called by.
pub const NAME: &str = "krl";

/// A subcommand with its arguments.
#[derive(Clone, Copy)]
pub struct Subcommand {
    name: &'static str,
    about: &'static str,
    arguments: &'static [Argument],
}

const AUDIT: [Argument; 16] = [
    Argument {
        id: "list",
        syntax: Syntax::LetterValue('f', "krl"),
        help: "The revocation list; - is standard input",
    },
    Argument {
        id: "texts",
        syntax: Syntax::LetterValues('t', "text"),
        help: "Name the lines of this text that explain a finding; without -f, audit by its list",
    },
    Argument {
        id: "fine",
        syntax: Syntax::Letter('a'),
        help: "Name the keys that are not revoked as well",
    },
    Argument {
        id: "quiet",
        syntax: Syntax::Letter('q'),
        help: "Print nothing on standard output, and end after the first file with a revoked key",
    },
    Argument {
        id: "one-file-system",
        syntax: Syntax::Letter('x'),
        help: "Stay on the file system of each directory that is named",
    },
    Argument {
        id: "all",
        syntax: Syntax::Long,
        help: "Read every regular file of a directory, whatever its name",
    },
    Argument {
        id: "scan",
        syntax: Syntax::Long,
        help: "Find keys anywhere in the lines of every regular file",
    },
    Argument {
        id: "canary",
        syntax: Syntax::LongValues("file"),
        help: "Audit nothing unless the list revokes each key of this file",
    },
    Argument {
        id: "exclude",
        syntax: Syntax::LongValues("name"),
        help: "Skip files and directories of this name in a directory",
    },
    Argument {
        id: "json",
        syntax: Syntax::Long,
        help: "Print one JSON object on a line for each finding",
    },
    Argument {
        id: "label",
        syntax: Syntax::LongValue("text"),
        help: "Print this text before the name of each finding",
    },
    Argument {
        id: "files0-from",
        syntax: Syntax::LongValue("file"),
        help: "Read names of files, each ended by a zero byte; - is standard input",
    },
    Argument {
        id: "sshd",
        syntax: Syntax::LongValues("file"),
        help: "Audit what an sshd reads for keys, by this output of sshd -T; - is standard input",
    },
    Argument {
        id: "passwd",
        syntax: Syntax::LongValue("file"),
        help: "The users of --sshd, as getent passwd prints them, instead of /etc/passwd",
    },
    Argument {
        id: "command-output",
        syntax: Syntax::LongValues("file"),
        help: "What the AuthorizedKeysCommand of --sshd printed",
    },
    Argument {
        id: "files",
        syntax: Syntax::Words("file|directory"),
        help: "What is audited; - is standard input",
    },
];

const LOGINS: [Argument; 6] = [
    Argument {
        id: "list",
        syntax: Syntax::LetterValue('f', "krl"),
        help: "The revocation list; - is standard input",
    },
    Argument {
        id: "texts",
        syntax: Syntax::LetterValues('t', "text"),
        help: "Name the lines of this text that explain a login; without -f, search by its list",
    },
    Argument {
        id: "fine",
        syntax: Syntax::Letter('a'),
        help: "Name the logins that are not revoked as well",
    },
    Argument {
        id: "quiet",
        syntax: Syntax::Letter('q'),
        help: "Print nothing on standard output, and end after the first file with a revoked login",
    },
    Argument {
        id: "json",
        syntax: Syntax::Long,
        help: "Print one JSON object on a line for each login",
    },
    Argument {
        id: "files",
        syntax: Syntax::Words("file"),
        help: "The logs; - is standard input",
    },
];

const CHECK: [Argument; 12] = [
    Argument {
        id: "list",
        syntax: Syntax::Word("krl"),
        help: "The revocation list; - is standard input",
    },
    Argument {
        id: "newer-than",
        syntax: Syntax::LongValue("krl"),
        help: "Refuse a version below that of this list",
    },
    Argument {
        id: "superset-of",
        syntax: Syntax::LongValue("krl"),
        help: "Refuse a list that does not name all that this list names",
    },
    Argument {
        id: "max-age",
        syntax: Syntax::LongValue("duration"),
        help: "Refuse a list that was made longer ago than this, as 90m, 24h or 7d",
    },
    Argument {
        id: "max-cas",
        syntax: Syntax::LongValue("number"),
        help: "Refuse a list with more CAs than this, instead of more than 4,000",
    },
    Argument {
        id: "sshd",
        syntax: Syntax::LongValue("file"),
        help: "Refuse a list that is not the one of the sshd of this output of sshd -T",
    },
    Argument {
        id: "keep",
        syntax: Syntax::LongValues("file"),
        help: "Refuse a list that revokes a key of this file",
    },
    Argument {
        id: "canary",
        syntax: Syntax::LongValues("file"),
        help: "Refuse a list that does not revoke each key of this file",
    },
    Argument {
        id: "allow-empty",
        syntax: Syntax::Long,
        help: "Take a list that revokes nobody",
    },
    Argument {
        id: "json",
        syntax: Syntax::Long,
        help: "Print each condition as a JSON object, also those that hold",
    },
    Argument {
        id: "names",
        syntax: Syntax::LongValues("file"),
        help: "Name the CAs as this text of a list does; - is standard input",
    },
    Argument {
        id: "print-version",
        syntax: Syntax::Long,
        help: "Print the version of the list alone",
    },
];

const SHOW: [Argument; 4] = [
    Argument {
        id: "json",
        syntax: Syntax::Long,
        help: "Print one JSON object on a line for each entry",
    },
    Argument {
        id: "no-name",
        syntax: Syntax::Long,
        help: "Leave out the name of each list",
    },
    Argument {
        id: "names",
        syntax: Syntax::LongValues("file"),
        help: "Name the CAs as this text of a list does; - is standard input",
    },
    Argument {
        id: "lists",
        syntax: Syntax::SomeWords("krl"),
        help: "The revocation lists; - is standard input",
    },
];

const MAKE: [Argument; 9] = [
    Argument {
        id: "list",
        syntax: Syntax::Needed('f', "krl"),
        help: "The revocation list that is made",
    },
    Argument {
        id: "version",
        syntax: Syntax::LetterValue('z', "number"),
        help: "Its version; otherwise one above that of the list it replaces, or 1",
    },
    Argument {
        id: "comment",
        syntax: Syntax::LongValue("text"),
        help: "Its comment",
    },
    Argument {
        id: "quiet",
        syntax: Syntax::Letter('q'),
        help: "Do not say what was made",
    },
    Argument {
        id: "dry-run",
        syntax: Syntax::Letter('n'),
        help: "Make nothing, and print what would change",
    },
    Argument {
        id: "update",
        syntax: Syntax::Letter('u'),
        help: "Keep what the list that is there names, and its comment",
    },
    Argument {
        id: "replace",
        syntax: Syntax::Long,
        help: "Do not read the list that is replaced",
    },
    Argument {
        id: "allow-empty",
        syntax: Syntax::Long,
        help: "Make a list that revokes nobody",
    },
    Argument {
        id: "files",
        syntax: Syntax::Words("file"),
        help: "The texts that it is made of; - is standard input",
    },
];

const DIFF: [Argument; 4] = [
    Argument {
        id: "json",
        syntax: Syntax::Long,
        help: "Print one JSON object on a line for each entry",
    },
    Argument {
        id: "names",
        syntax: Syntax::LongValues("file"),
        help: "Name the CAs as this text of a list does; - is standard input",
    },
    Argument {
        id: "old",
        syntax: Syntax::Word("old"),
        help: "The old revocation list; - is standard input",
    },
    Argument {
        id: "new",
        syntax: Syntax::Word("new"),
        help: "The new revocation list; - is standard input",
    },
];

/// `krl audit`.
pub const AUDITING: Subcommand = Subcommand {
    name: "audit",
    about: "Finds revoked keys in authorized_keys, known_hosts and key files",
    arguments: &AUDIT,
};

/// `krl logins`.
pub const SEARCHING: Subcommand = Subcommand {
    name: "logins",
    about: "Finds logins with revoked keys in logs of sshd",
    arguments: &LOGINS,
};

/// `krl check`.
pub const CHECKING: Subcommand = Subcommand {
    name: "check",
    about: "Checks a revocation list before it is put in force",
    arguments: &CHECK,
};

/// `krl show`.
pub const SHOWING: Subcommand = Subcommand {
    name: "show",
    about: "Prints revocation lists as a text that names the same",
    arguments: &SHOW,
};

/// `krl make`.
pub const MAKING: Subcommand = Subcommand {
    name: "make",
    about: "Makes a revocation list from texts",
    arguments: &MAKE,
};

/// `krl diff`.
pub const COMPARING: Subcommand = Subcommand {
    name: "diff",
    about: "Prints what one revocation list names and another does not",
    arguments: &DIFF,
};

/// The program of this version, for parsing its words. An option is refused if it is given twice,
/// unless it may have several values.
pub fn program<'a>(alloc: Global, version: &'a str) -> Result<Command<'a>, AllocError>
    ensures { IfOk result (λ command. app_of command ≡ program) }
{
    let bare = Command::new(alloc, NAME)
        .about("Finds revoked keys, and checks, shows, makes and compares revocation lists")
        .version(version)
        .propagate_version(true)
        .subcommand_required(true);
    let audit = subcommand_of(alloc, &AUDITING)?;
    let logins = subcommand_of(alloc, &SEARCHING)?;
    let check = subcommand_of(alloc, &CHECKING)?;
    let show = subcommand_of(alloc, &SHOWING)?;
    let make = subcommand_of(alloc, &MAKING)?;
    let diff = subcommand_of(alloc, &COMPARING)?;
    bare.subcommand(audit)?
        .subcommand(logins)?
        .subcommand(check)?
        .subcommand(show)?
        .subcommand(make)?
        .subcommand(diff)
}

// The subcommand in the form of the library.
fn subcommand_of<'a>(alloc: Global, subcommand: &Subcommand) -> Result<Command<'a>, AllocError>
    ensures shape { IfOk result (λ command. shape_of command ≡ subcommand_by subcommand.now) }
    ensures local { IfOk result (λ command. (out-Command command).has_globals ≡ false) }
{
    let bare = Command::new(alloc, subcommand.name).about(subcommand.about);
    with_arguments(alloc, bare, subcommand.arguments)
}
