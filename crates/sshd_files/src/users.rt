//! The users of a text that getent(1) prints.

ghost use Rattle.std.specs.Prelude.{◌≡◌, ◌++◌, IfOk, map, not, option_map};
ghost use Rattle.std.specs.Result.{result_map_both};
ghost use Rattle.key_text.specs.Blanks.{after_blanks};
ghost use Rattle.sshd_files.specs.Users.{account_at, account_of, accounts_in, are_digits};
ghost use Rattle.sshd_files.specs.Users.{is_comment, is_fault, is_name, number_of, users_at};

use crate::words::split_around;
use key_text::{after_blanks, split_line};
use std::alloc::{AllocError, Global};
use std::str;

/// A user. The name and the home directory are borrowed from the text.
#[derive(Clone, Copy)]
pub struct User<'t> {
    /// The name.
    pub name: &'t [u8],
    /// The user ID.
    pub number: u32,
    /// The home directory.
    pub home: &'t [u8],
}

/// A line that has no user, and is neither blank nor a comment.
#[derive(Clone, Copy, PartialEq, Eq)]
pub struct UserFault {
    /// The number of the line, from 1 on.
    pub line: u64,
}

/// The users of a text in the form of passwd(5), or the first line that is not of that form.
#[tactic(auto, unfolding(crate::specs::Users::users_at))]
pub fn users_of<'t>(
    alloc: Global,
    text: &'t [u8],
) -> Result<Result<Vec<User<'t>>, UserFault>, AllocError>
    ensures { IfOk result (λ read.
        result_map_both (λ users. map account_of users.items) (λ fault. fault.line) read
        ≡ users_at text.now) }
{
    let mut users = Vec::new(alloc);
    let mut number: u64 = 1;
    let mut rest = text;
    'lines: loop {
        let (line, after) = split_line(rest);
        if !push_user(line, &mut users)? {
            return Ok(Err(UserFault { line: number }));
        }
        let Some(after) = after else {
            return Ok(Ok(users));
        };
        number += 1;
        rest = after;
    }
}

// Adds the user of a line, if it has one. Returns false if the line has a fault.
fn push_user<'t>(line: &'t [u8], users: &mut Vec<User<'t>>) -> Result<bool, AllocError>
    ensures good { IfOk result (λ good. good ≡ not (is_fault line.now)) }
    ensures users { IfOk result (λ good.
        map account_of users.new.items ≡ map account_of users.old.items ++ accounts_in line.now) }
{
    let text = after_blanks(line);
    if is_comment(text) {
        return Ok(true);
    }
    match user_of(text) {
        Some(user) => {
            users.push(user)?;
            Ok(true)
        }
        None => Ok(false),
    }
}

// Returns true if a text is empty or a comment.
fn is_comment(text: &[u8]) -> bool
    ensures { result ≡ is_comment text.now }
{
    match text {
        [] => true,
        [byte, ..] => *byte == b'#',
    }
}

// The user of a line.
#[tactic(auto, unfolding(crate::specs::Users::account_at))]
fn user_of(line: &[u8]) -> Option<User<'_>>
    ensures { option_map account_of result ≡ account_at line.now }
{
    let (name, rest) = split_around(b':', line)?;
    let (_password, rest) = split_around(b':', rest)?;
    let (digits, rest) = split_around(b':', rest)?;
    let (_group, rest) = split_around(b':', rest)?;
    let (_comment, rest) = split_around(b':', rest)?;
    let (home, _shell) = split_around(b':', rest)?;
    let number = number_of(digits)?;
    if !is_name(name) {
        return None;
    }
    Some(User { name, number, home })
}

// Returns true if a name begins with neither a blank, another control byte nor a sign.
fn is_name(name: &[u8]) -> bool
    ensures { result ≡ is_name name.now }
{
    match name {
        [] => false,
        [byte, ..] => *byte > b' ' && *byte != b'+' && *byte != b'-',
    }
}

// The number below 2^32 that decimal digits spell.
#[tactic(auto, unfolding(crate::specs::Users::number_of))]
fn number_of(digits: &[u8]) -> Option<u32>
    ensures { result ≡ number_of digits.now }
{
    if !are_digits(digits) {
        return None;
    }
    let Ok(text) = str::from_utf8(digits) else {
        return None;
    };
    u32::from_str_radix(text, 10).ok()
}

// Returns true if a text is decimal digits, at least one.
fn are_digits(text: &[u8]) -> bool
    ensures { result ≡ are_digits text.now }
{
    !text.is_empty() && text.iter().all(|byte| byte.is_ascii_digit())
}
