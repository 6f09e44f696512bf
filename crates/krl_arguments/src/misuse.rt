//! Why options of a subcommand do not go together.

ghost use Rattle.std.specs.Prelude.{◌≡◌};
ghost use Rattle.krl_arguments.specs.Misuse.{text_of_misuse};

/// Why options of a subcommand do not go together.
#[derive(Clone, Copy)]
pub enum Misuse {
    /// An argument is missing. The library refuses this first.
    Incomplete,
    /// Standard input is named twice.
    TwoInputs,
    /// `krl audit` or `krl logins` without a list, without a text and, for an audit, without
    /// `--sshd`.
    NoList,
    /// `krl audit` without a file, a directory, a file of names or `--sshd`.
    NothingToAudit,
    /// `krl logins` without a log.
    NoLog,
    /// A value of `--exclude` that no entry of a directory has as its name.
    ExcludesPath,
    /// `--passwd` or `--command-output` without `--sshd`.
    WithoutSshd,
    /// A value of `--max-age` that is no duration.
    WrongAge,
    /// A value of `--max-cas` that is no number.
    WrongMost,
    /// `--print-version` with another option.
    VersionAlone,
    /// A value of `-z` that is no number.
    WrongVersion,
    /// `-f -` of `krl make`.
    InputReplaced,
    /// `-u` with `--replace`.
    UpdateReplaces,
}

impl Misuse {
    /// The text that says so.
    pub(crate) fn text(self) -> &'static str
        ensures { result.now ≡ text_of_misuse self }
    {
        match self {
            Misuse::Incomplete => INCOMPLETE,
            Misuse::TwoInputs => TWO_INPUTS,
            Misuse::NoList => NO_LIST,
            Misuse::NothingToAudit => NOTHING_TO_AUDIT,
            Misuse::NoLog => NO_LOG,
            Misuse::ExcludesPath => EXCLUDES_PATH,
            Misuse::WithoutSshd => WITHOUT_SSHD,
            Misuse::WrongAge => WRONG_AGE,
            Misuse::WrongMost => WRONG_MOST,
            Misuse::VersionAlone => VERSION_ALONE,
            Misuse::WrongVersion => WRONG_VERSION,
            Misuse::InputReplaced => INPUT_REPLACED,
            Misuse::UpdateReplaces => UPDATE_REPLACES,
        }
    }
}

const INCOMPLETE: &str = "error: an argument is missing

For more information, try '--help'.
";

const TWO_INPUTS: &str = "error: standard input (-) can be read for one file only

For more information, try '--help'.
";

const NO_LIST: &str = "error: -f or -t is needed

For more information, try '--help'.
";

const NOTHING_TO_AUDIT: &str = "error: a file, a directory, --files0-from or --sshd is needed

Usage: krl audit [-f <krl>] [-t <text>] [-aqx] [--all] [--scan] [--canary <file>] \
[--exclude <name>] [--json] [--label <text>] [--files0-from <file>] [--sshd <file>] \
[--passwd <file>] [--command-output <file>] [file|directory]...

For more information, try '--help'.
";

const NO_LOG: &str = "error: a file is needed

Usage: krl logins [-f <krl>] [-t <text>] [-aq] [--json] [file]...

For more information, try '--help'.
";

const EXCLUDES_PATH: &str = "error: --exclude takes the name of a file or a directory, not a path

Usage: krl audit [-f <krl>] [-t <text>] [-aqx] [--all] [--scan] [--canary <file>] \
[--exclude <name>] [--json] [--label <text>] [--files0-from <file>] [--sshd <file>] \
[--passwd <file>] [--command-output <file>] [file|directory]...

For more information, try '--help'.
";

const WITHOUT_SSHD: &str = "error: --passwd and --command-output go with --sshd

Usage: krl audit [-f <krl>] [-t <text>] [-aqx] [--all] [--scan] [--canary <file>] \
[--exclude <name>] [--json] [--label <text>] [--files0-from <file>] [--sshd <file>] \
[--passwd <file>] [--command-output <file>] [file|directory]...

For more information, try '--help'.
";

const WRONG_AGE: &str = "error: --max-age takes a number and one of s, m, h and d, as in 24h

Usage: krl check --max-age <duration> <krl>

For more information, try '--help'.
";

const WRONG_MOST: &str = "error: --max-cas takes a number below 2^53

Usage: krl check --max-cas <number> <krl>

For more information, try '--help'.
";

const VERSION_ALONE: &str = "error: --print-version goes with no other option

Usage: krl check --print-version <krl>

For more information, try '--help'.
";

const WRONG_VERSION: &str = "error: -z takes a number below 2^64

Usage: krl make -f <krl> [-z <number>] [--comment <text>] [-nqu] [--replace] [--allow-empty] \
[file]...

For more information, try '--help'.
";

const INPUT_REPLACED: &str = "error: -f takes a file, and - is standard input

Usage: krl make -f <krl> [-z <number>] [--comment <text>] [-nqu] [--replace] [--allow-empty] \
[file]...

For more information, try '--help'.
";

const UPDATE_REPLACES: &str = "error: -u does not go with --replace

Usage: krl make -f <krl> [-z <number>] [--comment <text>] [-nqu] [--replace] [--allow-empty] \
[file]...

For more information, try '--help'.
";
