//! What sshds read for keys, by the outputs of `sshd -T` and by their users, and their list.

ghost use Rattle.std.specs.Prelude.{◌≡◌, ◌++◌, IfErr, IfOk, Ok, OnOk, Some, map, option_map};
ghost use Rattle.std.specs.List.{list_all};
ghost use Rattle.sshd_files.specs.Files.{file_of};
ghost use Rattle.sshd_files.specs.Settings.{configuration_of};
ghost use Rattle.sshd_files.specs.Users.{account_of};
ghost use Rattle.krl.specs.Names.{now_of};
ghost use Rattle.krl.specs.Sshd.{AreSought, AreTexts, AreUsers, IsListOfAll, has_list};
ghost use Rattle.krl.specs.Sshd.{IsUseBy, IsUseIn, files_with, input_path, output_file};
ghost use Rattle.krl.specs.Sshd.{stated_in, use_beside};

use crate::Krl;
use crate::ending::{fail_in_words, fail_to_make};
use crate::loading::{INPUT, text_of, texts_of};
use check_run::Used;
use krl_arguments::Audit;
use line_pieces::{Visible, Words, put};
use list_conditions::SshdUse;
use program_edge::stop;
use run_faults::{Cause, RunFault};
use sshd_files::{Settings, SshdFile, SshdFileKind, User, files_of, settings_of, users_of};
use std::alloc::{AllocError, Global};
use std::os::unix::fs::MetadataExt;
use std::{fs, str};
use text_run::Text;

// Where the users are, unless the task names another file.
const USERS: &str = "/etc/passwd";

// The path of standard input, where the output of a command is read from it.
const INPUT_PATH: &str = "/dev/stdin";

// What is said about a text that is refused, and about lists.
const NO_SETTINGS: &[u8] = b" [sshd 1 NoSettings]";

const NO_USER: &[u8] = b": it is no user, as getent passwd prints them [sshd 2 NoUser]";

const NO_USERS: &[u8] = b"it has no user [sshd 2 NoUser]";

const NO_FILES: &[u8] = b"authorizedkeysfile has no value";

const RETURNS: &[u8] = b"it has carriage returns";

const BAD_TOKEN: &[u8] = b" [sshd 3 BadToken]";

const NO_LIST: &[u8] =
    b"this sshd uses no list, as revokedkeys says: name one by -f [sshd 4 NoList]";

const NO_NAME: &[u8] = b"its revokedkeys is not UTF-8: name the list by -f [sshd 4 NoList]";

const OTHER_LIST: &[u8] =
    b"another sshd uses another list than this one: name one by -f [sshd 5 OtherList]";

const OTHER_THAN_SSHD: &[u8] = b"the sshd does not use this list, as its revokedkeys says";

/// The outputs of `sshd -T` that the task names, and the users, if an output is named.
#[derive(Drop)]
pub struct SshdTexts<'t> {
    outputs: Vec<Text<'t>>,
    users: Option<Text<'t>>,
}

/// The list of sshds, if the task names none and has sshds, and the files that they read.
#[derive(Drop)]
pub struct Sought<'s> {
    pub list: Option<&'s str>,
    pub files: Vec<SshdFile>,
}

/// Reads the outputs of `sshd -T` that the task names, and the users.
pub fn sshd_texts<'t>(rt: &HostRuntime, task: &Audit<'t>) -> Result<SshdTexts<'t>, u8>
    ensures texts { IfOk result (AreTexts task.now) }
    ensures refused { IfErr result (λ status. status ≡ 255) }
{
    let outputs = match texts_of(rt, task.sshd.as_slice()) {
        Ok(outputs) => outputs,
        Err(fault) => return Err(fail_to_make(rt, &fault, &[])),
    };
    let users = if outputs.is_empty() {
        None
    } else {
        Some(text_of(rt, task.passwd.unwrap_or(USERS)))
    };
    Ok(SshdTexts { outputs, users })
}

/// The list of the sshds, unless the task names one, and the files that they read; otherwise the
/// exit status, where a text is refused or the sshds have not one list.
pub fn sought_by<'s>(
    rt: &HostRuntime,
    task: &Audit<'_>,
    texts: &'s SshdTexts<'_>,
) -> Result<Sought<'s>, u8>
    ensures sought { IfOk result (AreSought task.now texts.now) }
    ensures refused { IfErr result (λ status. status ≡ 255) }
{
    let settings = match settings_in(rt, texts.outputs.as_slice()) {
        Ok(settings) => settings,
        Err(status) => return Err(status),
    };
    let users = match users_in(rt, &texts.users) {
        Ok(users) => users,
        Err(status) => return Err(status),
    };
    let name = first_name(texts.outputs.as_slice());
    let list = match list_for(rt, task.list, name, settings.as_slice()) {
        Ok(list) => list,
        Err(status) => return Err(status),
    };
    match files_for(rt, task, settings.as_slice(), users.as_slice()) {
        Ok(files) => Ok(Sought { list, files }),
        Err(status) => Err(status),
    }
}

/// Which list the sshd of an output uses, as to the list of this name; otherwise the exit status,
/// where the text is refused. Without an output nothing is read.
pub fn used_by<'t>(
    rt: &HostRuntime,
    list: &str,
    output: Option<&'t str>,
) -> Result<Option<Used<'t>>, u8>
    ensures found { IfOk result (IsUseBy list.now output.entry) }
    ensures refused { IfErr result (λ status. status ≡ 255) }
{
    let Some(output) = output else {
        return Ok(None);
    };
    let text = text_of(rt, output);
    let found = match settings_at(rt, &text) {
        Ok(settings) => use_of(rt, list, settings.list),
        Err(status) => return Err(status),
    };
    Ok(Some(Used { output, found }))
}

// Which list an sshd uses, as to the list of this name. It is the same one if it has the same name,
// or if both names lead to the same file.
fn use_of(rt: &HostRuntime, list: &str, used: Option<&[u8]>) -> SshdUse
    ensures { IsUseIn list.now (option_map (λ name. name.now) used.entry) result }
{
    use_beside(list, are_one_file(rt, list, used), used)
}

// The same, where it is known whether both names lead to the same file.
fn use_beside(list: &str, one_file: bool, used: Option<&[u8]>) -> SshdUse
    ensures { result ≡ use_beside list.now one_file (option_map (λ name. name.now) used.entry) }
{
    let Some(used) = used else {
        return SshdUse::Nothing;
    };
    if used == list.as_bytes() || one_file {
        SshdUse::This
    } else {
        SshdUse::Other
    }
}

// Whether this sshd uses the list of this name.
fn is_list_of(rt: &HostRuntime, list: &str, one: &Settings<'_>) -> bool {
    matches!(use_of(rt, list, one.list), SshdUse::This)
}

// Whether the name of a list, which may be that of standard input, leads to the same file as
// another name, if there is one.
fn are_one_file(rt: &HostRuntime, list: &str, other: Option<&[u8]>) -> bool {
    let Some(other) = other else {
        return false;
    };
    let Ok(other) = str::from_utf8(other) else {
        return false;
    };
    match (fs::metadata(rt, input_path(list)), fs::metadata(rt, other)) {
        (Ok(list), Ok(other)) => list.dev() == other.dev() && list.ino() == other.ino(),
        _ => false,
    }
}

// The settings that each output states.
fn settings_in<'s>(rt: &HostRuntime, outputs: &'s [Text<'_>]) -> Result<Vec<Settings<'s>>, u8>
    ensures stated { IfOk result (λ settings.
        map stated_in outputs.now ≡ map Some (map configuration_of settings.items)) }
    ensures refused { IfErr result (λ status. status ≡ 255) }
{
    let mut settings = Vec::new(rt.alloc());
    for output in outputs {
        let one = match settings_at(rt, output) {
            Ok(one) => one,
            Err(status) => return Err(status),
        };
        if settings.push(one).is_err() {
            return Err(out_of_memory(rt, output.name));
        }
    }
    Ok(settings)
}

// The settings that an output states.
fn settings_at<'s>(rt: &HostRuntime, output: &'s Text<'_>) -> Result<Settings<'s>, u8>
    ensures stated { IfOk result (λ one. stated_in output.now ≡ Some (configuration_of one)) }
    ensures refused { IfErr result (λ status. status ≡ 255) }
{
    let bytes = match &output.content {
        Ok(bytes) => bytes.as_slice(),
        Err(cause) => return Err(refuse(rt, output.name, *cause)),
    };
    if bytes.contains(&b'\r') {
        return Err(refuse_settings(rt, output.name, RETURNS));
    }
    match settings_of(rt.alloc(), bytes) {
        Ok(Ok(one)) if one.files.is_empty() => Err(refuse_settings(rt, output.name, NO_FILES)),
        Ok(Ok(one)) => Ok(one),
        Ok(Err(fault)) => Err(refuse_settings(rt, output.name, fault.words().as_bytes())),
        Err(_) => Err(out_of_memory(rt, output.name)),
    }
}

// The users of a text, if there is one.
fn users_in<'s>(rt: &HostRuntime, users: &'s Option<Text<'_>>) -> Result<Vec<User<'s>>, u8>
    ensures users { IfOk result (λ found. AreUsers users.now (map account_of found.items)) }
    ensures refused { IfErr result (λ status. status ≡ 255) }
{
    let Some(text) = users else {
        return Ok(Vec::new(rt.alloc()));
    };
    let bytes = match &text.content {
        Ok(bytes) => bytes.as_slice(),
        Err(cause) => return Err(refuse(rt, text.name, *cause)),
    };
    match users_of(rt.alloc(), bytes) {
        Ok(Ok(users)) if users.is_empty() => Err(fail_in_words(rt, text.name, NO_USERS)),
        Ok(Ok(users)) => Ok(users),
        Ok(Err(fault)) => Err(refuse_line(rt, text.name, fault.line)),
        Err(_) => Err(out_of_memory(rt, text.name)),
    }
}

// The list that all sshds use, unless one is given. The first of their outputs has this name.
fn list_for<'s>(
    rt: &HostRuntime,
    given: Option<&str>,
    name: &str,
    settings: &[Settings<'s>],
) -> Result<Option<&'s str>, u8>
    ensures list { IfOk result (IsListOfAll given.entry (map configuration_of settings.now)) }
    ensures refused { IfErr result (λ status. status ≡ 255) }
{
    let [first, ..] = settings else {
        return Ok(None);
    };
    if let Some(list) = given {
        if !settings.iter().all(|one| is_list_of(rt, list, one)) {
            let _ = fail_in_words(rt, list, OTHER_THAN_SSHD);
        }
        return Ok(None);
    }
    let Some(bytes) = first.list else {
        return Err(fail_in_words(rt, name, NO_LIST));
    };
    if !have_list(bytes, settings) {
        return Err(fail_in_words(rt, name, OTHER_LIST));
    }
    match str::from_utf8(bytes) {
        Ok(list) => Ok(Some(list)),
        Err(_) => Err(fail_in_words(rt, name, NO_NAME)),
    }
}

// The name of the first of these texts.
fn first_name<'t>(outputs: &[Text<'t>]) -> &'t str {
    match outputs {
        [first, ..] => first.name,
        [] => "",
    }
}

// Whether each of these sshds uses this list.
fn have_list(list: &[u8], settings: &[Settings<'_>]) -> bool
    ensures { result ≡ list_all (has_list list.now) (map configuration_of settings.now) }
{
    for one in settings {
        if !has_list(list, one) {
            return false;
        }
    }
    true
}

// Whether this sshd uses this list.
fn has_list(list: &[u8], one: &Settings<'_>) -> bool
    ensures { result ≡ has_list list.now (configuration_of one.now) }
{
    match one.list {
        Some(other) => other == list,
        None => false,
    }
}

// The files that sshds with these settings read for these users, and the outputs of their command
// that the task names.
fn files_for<'s>(
    rt: &HostRuntime,
    task: &Audit<'_>,
    settings: &[Settings<'s>],
    users: &[User<'s>],
) -> Result<Vec<SshdFile>, u8>
    ensures files { IfOk result (λ files. files_with task.now.command_output.items
        (map configuration_of settings.now) (map account_of users.now)
        ≡ Ok (map file_of files.items)) }
    ensures refused { IfErr result (λ status. status ≡ 255) }
{
    let given = task.command_output.as_slice();
    let mut files = match files_of(rt.alloc(), settings, users, !given.is_empty()) {
        Ok(Ok(files)) => files,
        Ok(Err(fault)) => return Err(refuse_word(rt, fault.word)),
        Err(_) => return Err(out_of_memory(rt, "memory")),
    };
    match add_outputs(rt.alloc(), given, &mut files) {
        Ok(()) => Ok(files),
        Err(_) => Err(out_of_memory(rt, "memory")),
    }
}

// Adds the outputs of a command.
fn add_outputs(alloc: Global, given: &[&str], files: &mut Vec<SshdFile>) -> Result<(), AllocError>
    ensures { OnOk result (map file_of files.new.items
        ≡ map file_of files.old.items ++ map output_file (map now_of given.now)) }
{
    for name in given {
        let path = input_path(*name);
        let path = Vec::from_slice(alloc, path.as_bytes())?;
        files.push(SshdFile {
            kind: SshdFileKind::Output,
            path,
        })?;
    }
    Ok(())
}

// The path of a file that may be standard input.
fn input_path(name: &str) -> &str
    ensures { result.now ≡ input_path name.now }
{
    if name == INPUT { INPUT_PATH } else { name }
}

// Ends a run for which there was no memory.
fn out_of_memory(rt: &HostRuntime, name: &str) -> u8
    ensures { result ≡ 255 }
{
    refuse(rt, name, Cause::NoMemory)
}

// Ends a run that cannot read a text.
fn refuse(rt: &HostRuntime, name: &str, cause: Cause) -> u8
    ensures { result ≡ 255 }
{
    stop(rt, &Krl, &RunFault::whole(name, cause))
}

// Ends a run at a text that is not what sshd -T prints.
fn refuse_settings(rt: &HostRuntime, name: &str, why: &[u8]) -> u8
    ensures { result ≡ 255 }
{
    let mut words = Vec::new(rt.alloc());
    match put!(&mut words; b"it is not what sshd -T prints: ", Words(why), Words(NO_SETTINGS)) {
        Ok(()) => fail_in_words(rt, name, &words),
        Err(_) => out_of_memory(rt, name),
    }
}

// Ends a run at a line that has no user.
fn refuse_line(rt: &HostRuntime, name: &str, line: u64) -> u8
    ensures { result ≡ 255 }
{
    let mut words = Vec::new(rt.alloc());
    match put!(&mut words; b"line ", line, Words(NO_USER)) {
        Ok(()) => fail_in_words(rt, name, &words),
        Err(_) => out_of_memory(rt, name),
    }
}

// Ends a run at a word of authorizedkeysfile that sshd cannot expand.
fn refuse_word(rt: &HostRuntime, word: &[u8]) -> u8
    ensures { result ≡ 255 }
{
    let mut words = Vec::new(rt.alloc());
    match put!(&mut words; b"sshd expands no such word: ", Visible(word, false), Words(BAD_TOKEN)) {
        Ok(()) => fail_in_words(rt, "authorizedkeysfile", &words),
        Err(_) => out_of_memory(rt, "authorizedkeysfile"),
    }
}
