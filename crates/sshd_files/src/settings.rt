//! The settings of sshd(8) that name files with keys.

ghost use Rattle.std.specs.Prelude.{◌≡◌, IfOk, option_map};
ghost use Rattle.std.specs.Result.{result_map_both};
ghost use Rattle.sshd_files.specs.Settings.{configuration_of, only_value, settings_at};
ghost use Rattle.sshd_files.specs.Settings.{settings_with, unless_none, value_under, values_of};
ghost use Rattle.sshd_files.specs.Settings.{word_and_value, word_of, words_of};
ghost use Rattle.sshd_files.specs.Words.{parts, texts};

use crate::words::{is_none_word, split_around};
use key_text::split_line;
use std::alloc::{AllocError, Global};

/// A setting that `sshd -T` prints once.
#[derive(Clone, Copy, PartialEq, Eq)]
pub enum Setting {
    /// The patterns of the files with the keys of users.
    Files,
    /// The file with the keys of certificate authorities.
    Authorities,
    /// The revocation list.
    List,
    /// The command that prints keys.
    Command,
}

/// Why a text is not what `sshd -T` prints.
#[derive(Clone, Copy, PartialEq, Eq)]
pub enum SettingsFault {
    /// No line has the word of the setting.
    Missing(Setting),
    /// Two lines have the word of the setting.
    Twice(Setting),
    /// The text is empty, or its last line has no line feed.
    NoEnd,
}

/// The settings that name files with keys. They are borrowed from the text.
#[derive(Drop)]
pub struct Settings<'t> {
    /// The patterns of the files with the keys of users, with a space between them.
    pub files: &'t [u8],
    /// The file with the keys of certificate authorities.
    pub authorities: Option<&'t [u8]>,
    /// The revocation list.
    pub list: Option<&'t [u8]>,
    /// The command that prints keys, with its arguments.
    pub command: Option<&'t [u8]>,
    /// The files with the keys of the host.
    pub host_keys: Vec<&'t [u8]>,
    /// The files with the certificates of the host.
    pub host_certificates: Vec<&'t [u8]>,
}

impl Setting {
    /// The word of the setting, as `sshd -T` prints it.
    pub fn word(self) -> &'static [u8]
        ensures { result.now ≡ word_of self }
    {
        match self {
            Setting::Files => b"authorizedkeysfile",
            Setting::Authorities => b"trustedusercakeys",
            Setting::List => b"revokedkeys",
            Setting::Command => b"authorizedkeyscommand",
        }
    }
}

impl SettingsFault {
    /// The fault in words.
    pub fn words(self) -> &'static str
        ensures { result.now ≡ words_of self }
    {
        match self {
            SettingsFault::Missing(Setting::Files) => "authorizedkeysfile is missing",
            SettingsFault::Missing(Setting::Authorities) => "trustedusercakeys is missing",
            SettingsFault::Missing(Setting::List) => "revokedkeys is missing",
            SettingsFault::Missing(Setting::Command) => "authorizedkeyscommand is missing",
            SettingsFault::Twice(Setting::Files) => "authorizedkeysfile is there twice",
            SettingsFault::Twice(Setting::Authorities) => "trustedusercakeys is there twice",
            SettingsFault::Twice(Setting::List) => "revokedkeys is there twice",
            SettingsFault::Twice(Setting::Command) => "authorizedkeyscommand is there twice",
            SettingsFault::NoEnd => "the last line has no end",
        }
    }
}

/// The settings of a text that `sshd -T` printed, or why it is none.
pub fn settings_of<'t>(
    alloc: Global,
    text: &'t [u8],
) -> Result<Result<Settings<'t>, SettingsFault>, AllocError>
    ensures { IfOk result (λ read.
        result_map_both configuration_of (λ fault. fault) read ≡ settings_at text.now) }
{
    let host_keys = values_of(alloc, b"hostkey", text)?;
    let host_certificates = values_of(alloc, b"hostcertificate", text)?;
    Ok(read_settings(text, host_keys, host_certificates))
}

// The settings of a text, with these host keys and host certificates.
#[tactic(auto, unfolding(crate::specs::Settings::settings_with))]
fn read_settings<'t>(
    text: &'t [u8],
    host_keys: Vec<&'t [u8]>,
    host_certificates: Vec<&'t [u8]>,
) -> Result<Settings<'t>, SettingsFault>
    ensures { result_map_both configuration_of (λ fault. fault) result
        ≡ settings_with text.entry.now (texts host_keys.entry.items)
        (texts host_certificates.entry.items) }
{
    if !text.ends_with(b"\n") {
        return Err(SettingsFault::NoEnd);
    }
    let files = only_value(Setting::Files, text)?;
    let authorities = only_value(Setting::Authorities, text)?;
    let list = only_value(Setting::List, text)?;
    let command = only_value(Setting::Command, text)?;
    Ok(Settings {
        files,
        authorities: unless_none(authorities),
        list: unless_none(list),
        command: unless_none(command),
        host_keys,
        host_certificates,
    })
}

// The value of a setting, unless it is `none`.
fn unless_none(value: &[u8]) -> Option<&[u8]>
    ensures { option_map (λ value. value.now) result ≡ unless_none value.now }
{
    if is_none_word(value) {
        None
    } else {
        Some(value)
    }
}

// The values of all lines with this word.
fn values_of<'t>(alloc: Global, word: &[u8], text: &'t [u8]) -> Result<Vec<&'t [u8]>, AllocError>
    ensures { IfOk result (λ values. texts values.items ≡ values_of word.now text.now) }
{
    let mut values = Vec::new(alloc);
    let mut rest = text;
    'lines: loop {
        let (line, after) = split_line(rest);
        if let Some(value) = value_under(word, line) {
            values.push(value)?;
        }
        let Some(after) = after else {
            return Ok(values);
        };
        rest = after;
    }
}

// The value of the only line of a setting.
fn only_value(setting: Setting, text: &[u8]) -> Result<&[u8], SettingsFault>
    ensures { result_map_both (λ value. value.now) (λ fault. fault) result
        ≡ only_value setting text.now }
{
    let mut found = None;
    let mut rest = text;
    'lines: loop {
        let (line, after) = split_line(rest);
        if let Some(value) = value_under(setting.word(), line) {
            if found.is_some() {
                return Err(SettingsFault::Twice(setting));
            }
            found = Some(value);
        }
        let Some(after) = after else {
            return found.ok_or(SettingsFault::Missing(setting));
        };
        rest = after;
    }
}

// The value of a line, if the line has this word.
#[tactic(auto, unfolding(crate::specs::Settings::value_under))]
fn value_under<'t>(word: &[u8], line: &'t [u8]) -> Option<&'t [u8]>
    ensures { option_map (λ value. value.now) result ≡ value_under word.now line.now }
{
    let (found, value) = split_setting(line);
    if found == word { Some(value) } else { None }
}

// The word of a line and its value.
#[tactic(auto, unfolding(crate::specs::Settings::word_and_value))]
fn split_setting(line: &[u8]) -> (&[u8], &[u8])
    ensures { parts result ≡ word_and_value line.now }
{
    match split_around(b' ', line) {
        Some(pair) => pair,
        None => (line, &[]),
    }
}
