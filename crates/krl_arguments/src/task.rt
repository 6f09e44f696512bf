//! The tasks that the words ask for.

ghost use Rattle.std.specs.Prelude.{◌≡◌, map, option_map};
ghost use Rattle.krl_arguments.specs.Task.{audit_by, list_name, logins_by, name_or_first};

/// The task that the words ask for.
#[derive(Drop)]
pub enum Task<'a> {
    /// `krl audit`.
    Audit(Audit<'a>),
    /// `krl logins`.
    Logins(Logins<'a>),
    /// `krl check`.
    Check(Check<'a>),
    /// `krl show`.
    Show(Show<'a>),
    /// `krl make`.
    Make(Make<'a>),
    /// `krl diff`.
    Diff(Diff<'a>),
}

/// `krl audit`: the list, which findings are printed, and which files are audited.
#[derive(Drop)]
pub struct Audit<'a> {
    /// The revocation list, by `-f`. Without it, the list is the one that the texts make.
    pub list: Option<&'a str>,
    /// The texts whose lines explain the findings, by `-t`.
    pub texts: Vec<&'a str>,
    /// True if keys that are not revoked are printed too, by `-a`.
    pub all: bool,
    /// True if every regular file of a directory is read, by `--all`.
    pub every_file: bool,
    /// True if every regular file is read, and keys are found anywhere in its lines, by `--scan`.
    pub scan: bool,
    /// True if nothing is printed on standard output, by `-q`.
    pub quiet: bool,
    /// True if findings are printed as JSON, by `--json`.
    pub json: bool,
    /// The text before the name of each finding, by `--label`.
    pub label: Option<&'a str>,
    /// True if the audit stays on the file system of each named directory, by `-x`.
    pub one_file_system: bool,
    /// The files of keys that the list must revoke, by `--canary`.
    pub canary: Vec<&'a str>,
    /// The names of files and directories that are skipped, by `--exclude`.
    pub exclude: Vec<&'a str>,
    /// The file of names of files, by `--files0-from`.
    pub names_from: Option<&'a str>,
    /// The outputs of `sshd -T`, by `--sshd`.
    pub sshd: Vec<&'a str>,
    /// The users of these sshds, by `--passwd`.
    pub passwd: Option<&'a str>,
    /// What a command printed that sshd runs for keys, by `--command-output`.
    pub command_output: Vec<&'a str>,
    /// Files and directories.
    pub files: Vec<&'a str>,
}

impl<'a> Audit<'a> {
    /// The name of the list: that of `-f`, or else that of the first text.
    pub fn list_name(&self) -> &'a str
        ensures { result.now ≡ list_name (audit_by self.now) }
    {
        name_or_first(self.list, self.texts.as_slice())
    }
}

/// `krl logins`: the list, which logins are printed, and the logs that are searched.
#[derive(Drop)]
pub struct Logins<'a> {
    /// The revocation list, by `-f`. Without it, the list is the one that the texts make.
    pub list: Option<&'a str>,
    /// The texts whose lines explain the logins, by `-t`.
    pub texts: Vec<&'a str>,
    /// True if logins that are not revoked are printed too, by `-a`.
    pub all: bool,
    /// True if nothing is printed on standard output, by `-q`.
    pub quiet: bool,
    /// True if logins are printed as JSON, by `--json`.
    pub json: bool,
    /// The logs.
    pub files: Vec<&'a str>,
}

impl<'a> Logins<'a> {
    /// The name of the list: that of `-f`, or else that of the first text.
    pub fn list_name(&self) -> &'a str
        ensures { let logins = logins_by self.now in
            result.now ≡ name_or_first logins.list logins.texts }
    {
        name_or_first(self.list, self.texts.as_slice())
    }
}

// The name that is given, or else that of the first text.
fn name_or_first<'a>(list: Option<&'a str>, texts: &[&'a str]) -> &'a str
    ensures { result.now ≡ name_or_first
        (option_map (λ text. text.now) list.entry)
        (map (λ name. name.now) texts.now) }
{
    match (list, texts) {
        (Some(list), _) => list,
        (None, [first, ..]) => *first,
        (None, []) => "",
    }
}

/// `krl check`: the list, and its conditions.
#[derive(Drop)]
pub struct Check<'a> {
    /// The revocation list.
    pub list: &'a str,
    /// The list whose version must not be higher than its own, by `--newer-than`.
    pub newer_than: Option<&'a str>,
    /// The list whose names it must all have, by `--superset-of`.
    pub superset_of: Option<&'a str>,
    /// The largest number of seconds since it was made, by `--max-age`.
    pub max_age: Option<u64>,
    /// The largest number of its certificate authorities, by `--max-cas`.
    pub max_cas: Option<u64>,
    /// The output of `sshd -T` of the sshd whose list it must be, by `--sshd`.
    pub sshd: Option<&'a str>,
    /// The files of keys that it must not revoke, by `--keep`.
    pub keep: Vec<&'a str>,
    /// The files of keys that it must revoke, by `--canary`.
    pub canary: Vec<&'a str>,
    /// True if it may revoke nobody, by `--allow-empty`.
    pub allow_empty: bool,
    /// True if each condition is printed as JSON, by `--json`.
    pub json: bool,
    /// The texts that name certificate authorities, by `--names`.
    pub names: Vec<&'a str>,
    /// True if only its version is printed, by `--print-version`.
    pub print_version: bool,
}

/// `krl show`: the lists, and how they are printed.
#[derive(Drop)]
pub struct Show<'a> {
    /// The revocation lists.
    pub lists: Vec<&'a str>,
    /// True if they are printed as JSON, by `--json`.
    pub json: bool,
    /// True if their names are not printed, by `--no-name`.
    pub no_name: bool,
    /// The texts that name certificate authorities, by `--names`.
    pub names: Vec<&'a str>,
}

/// `krl make`: the list, its version and comment, and the texts that it is made of.
#[derive(Drop)]
pub struct Make<'a> {
    /// The revocation list, the value of `-f`.
    pub list: &'a str,
    /// Its version, by `-z`.
    pub version: Option<u64>,
    /// Its comment, by `--comment`.
    pub comment: Option<&'a str>,
    /// True if nothing is said about the list that was made, by `-q`.
    pub quiet: bool,
    /// True if nothing is made, and what would change is printed, by `-n`.
    pub dry_run: bool,
    /// True if it names what the list names that it replaces, too, by `-u`.
    pub update: bool,
    /// True if the list that it replaces is not read, by `--replace`.
    pub replace: bool,
    /// True if it may revoke nobody, by `--allow-empty`.
    pub allow_empty: bool,
    /// The texts.
    pub files: Vec<&'a str>,
}

/// `krl diff`: two lists, and how their difference is printed.
#[derive(Drop)]
pub struct Diff<'a> {
    /// The old revocation list.
    pub old: &'a str,
    /// The new one.
    pub new: &'a str,
    /// True if JSON is printed, by `--json`.
    pub json: bool,
    /// The texts that name certificate authorities, by `--names`.
    pub names: Vec<&'a str>,
}
