//! The options that the program has (ssh-keygen(1), SYNOPSIS).

ghost use Rattle.std.specs.Prelude.{◌≡◌, IfOk};
ghost use Rattle.clap.specs.Simple.{app_of};
ghost use Rattle.krl_words.specs.Options.{program};

use clap::Command;
use option_table::{Argument, Syntax, with_arguments};
use std::alloc::{AllocError, Global};

/// The program's own name, whatever name it is called by.
pub const NAME: &str = "krl-keygen";

/// All arguments of the command line, in the order in which help shows them.
pub const ARGUMENTS: [Argument; 11] = [
    Argument {
        id: "list",
        syntax: Syntax::Letter('l'),
        help: "List keys; with -Q print what the list holds",
    },
    Argument {
        id: "certificates",
        syntax: Syntax::Letter('L'),
        help: "List certificates",
    },
    Argument {
        id: "make",
        syntax: Syntax::Letter('k'),
        help: "Make a key revocation list",
    },
    Argument {
        id: "query",
        syntax: Syntax::Letter('Q'),
        help: "Ask a key revocation list about keys",
    },
    Argument {
        id: "file",
        syntax: Syntax::LetterValue('f', "file"),
        help: "The key file, or the revocation list",
    },
    Argument {
        id: "hash",
        syntax: Syntax::LetterValue('E', "hash"),
        help: "The hash of fingerprints: md5 or sha256",
    },
    Argument {
        id: "update",
        syntax: Syntax::Letter('u'),
        help: "Add to the list that there is",
    },
    Argument {
        id: "authority",
        syntax: Syntax::LetterValue('s', "ca_public"),
        help: "The authority's key file, or none for all",
    },
    Argument {
        id: "version",
        syntax: Syntax::LetterValue('z', "version"),
        help: "The list's version",
    },
    Argument {
        id: "files",
        syntax: Syntax::Words("file"),
        help: "Key files, or with -k specification files",
    },
    Argument {
        id: "program_version",
        syntax: Syntax::Version("version"),
        help: "Print the program's name and version",
    },
];

/// The program of this version, for parsing its words. If an option is given more than once, the
/// last one counts.
pub fn program<'a>(alloc: Global, version: &'a str) -> Result<Command<'a>, AllocError>
    ensures { IfOk result (λ command. app_of command ≡ program) }
{
    let bare = Command::new(alloc, NAME)
        .about("Lists keys and certificates; makes, prints and asks key revocation lists")
        .version(version)
        .disable_version_flag(true)
        .args_override_self(true);
    with_arguments(alloc, bare, &ARGUMENTS)
}
