//! The words of `authorizedkeysfile`, and the path of a user that a word stands for.

ghost use Rattle.std.specs.Prelude.{◌≡◌, ◌++◌, ◌∷◌, IfOk, false, find, option_map};
ghost use Rattle.sshd_files.specs.Pattern.{begins_token, byte_text, expansion, is_pattern};
ghost use Rattle.sshd_files.specs.Pattern.{is_unknown, path_of, patterns_of, names_file};
ghost use Rattle.sshd_files.specs.Pattern.{token_of, token_text, words_of};
ghost use Rattle.sshd_files.specs.Users.{account_of};
ghost use Rattle.sshd_files.specs.Words.{texts};

use crate::users::User;
use crate::words::is_none_word;
use std::alloc::{AllocError, Global};
use std::string::ToString;

/// A word of `authorizedkeysfile` with a token that is unknown or cut. sshd stops at it.
#[derive(Clone, Copy)]
pub struct PatternFault<'t> {
    /// The word.
    pub word: &'t [u8],
}

/// A token of a word: a percent sign and a letter.
#[derive(Clone, Copy)]
pub enum Token {
    /// The home directory, `%h`.
    Home,
    /// The name, `%u`.
    Name,
    /// The user ID, `%U`.
    Number,
    /// A percent sign, `%%`.
    Percent,
}

// The token of the letter behind a percent sign.
#[tactic(auto, unfolding(crate::specs::Pattern::token_of))]
fn token_of(letter: u8) -> Option<Token>
    ensures { result ≡ token_of letter }
{
    match letter {
        b'h' => Some(Token::Home),
        b'u' => Some(Token::Name),
        b'U' => Some(Token::Number),
        b'%' => Some(Token::Percent),
        _ => None,
    }
}

// Returns true if each token of a word is known, and none is cut.
#[tactic(auto, unfolding(crate::specs::Pattern::is_pattern))]
fn is_pattern(word: &[u8]) -> bool
    ensures { result ≡ is_pattern false word.now }
{
    let mut behind = false;
    let mut rest = word;
    'bytes: while let [byte, next @ ..] = rest {
        if behind && token_of(*byte).is_none() {
            return false;
        }
        behind = begins_token(behind, *byte);
        rest = next;
    }
    !behind
}

// Returns true if a byte begins a token.
fn begins_token(behind: bool, byte: u8) -> bool
    ensures { result ≡ begins_token behind byte }
{
    !behind && byte == b'%'
}

/// The first word with a token that is unknown or cut.
pub fn unknown_word(files: &[u8]) -> Option<&[u8]>
    ensures { option_map (λ word. word.now) result ≡ find is_unknown (words_of files.now) }
{
    files
        .split(|byte| *byte == b' ')
        .find(|word| !is_pattern(word))
}

/// The words that stand for paths.
#[tactic(auto, unfolding(crate::specs::Pattern::patterns_of))]
pub fn patterns_of(alloc: Global, files: &[u8]) -> Result<Vec<&[u8]>, AllocError>
    ensures { IfOk result (λ patterns. texts patterns.items ≡ patterns_of files.now) }
{
    files
        .split(|byte| *byte == b' ')
        .filter(|word| names_file(word))
        .collect(alloc)
}

// Returns true if a word is not empty, and not `none`.
fn names_file(word: &[u8]) -> bool
    ensures { result ≡ names_file word.now }
{
    !word.is_empty() && !is_none_word(word)
}

/// The path of a user that a word stands for.
#[tactic(auto, unfolding(crate::specs::Pattern::path_of))]
pub fn path_of(alloc: Global, user: &User<'_>, word: &[u8]) -> Result<Vec<u8>, AllocError>
    ensures { IfOk result (λ path. path.items ≡ path_of (account_of user.now) word.now) }
{
    let text = expand(alloc, user, word)?;
    if let [b'/', ..] = text.as_slice() {
        return Ok(text);
    }
    let mut path = Vec::from_slice(alloc, user.home)?;
    path.push(b'/')?;
    path.extend_from_slice(&text)?;
    Ok(path)
}

// The text that a word stands for.
#[tactic(auto, unfolding(crate::specs::Pattern::expansion))]
fn expand(alloc: Global, user: &User<'_>, word: &[u8]) -> Result<Vec<u8>, AllocError>
    ensures { IfOk result (λ text. text.items ≡ expansion (account_of user.now) false word.now) }
{
    let mut text = Vec::new(alloc);
    let mut behind = false;
    let mut rest = word;
    'bytes: while let [byte, next @ ..] = rest {
        push_byte(alloc, user, behind, *byte, &mut text)?;
        behind = begins_token(behind, *byte);
        rest = next;
    }
    Ok(text)
}

// Adds the text that a byte of a word stands for.
#[tactic(auto, unfolding(crate::specs::Pattern::byte_text))]
fn push_byte(
    alloc: Global,
    user: &User<'_>,
    behind: bool,
    byte: u8,
    text: &mut Vec<u8>,
) -> Result<(), AllocError>
    ensures { IfOk result (λ done.
        text.new.items ≡ text.old.items ++ byte_text (account_of user.now) behind byte) }
{
    if !behind {
        if byte != b'%' {
            text.push(byte)?;
        }
        return Ok(());
    }
    match token_of(byte) {
        Some(token) => push_token(alloc, user, token, text),
        None => Ok(()),
    }
}

// Adds the text that a token stands for.
fn push_token(
    alloc: Global,
    user: &User<'_>,
    token: Token,
    text: &mut Vec<u8>,
) -> Result<(), AllocError>
    ensures { IfOk result (λ done.
        text.new.items ≡ text.old.items ++ token_text (account_of user.now) token) }
{
    match token {
        Token::Home => text.extend_from_slice(user.home),
        Token::Name => text.extend_from_slice(user.name),
        Token::Number => {
            let digits = user.number.to_string(alloc)?;
            text.extend_from_slice(digits.as_bytes())
        }
        Token::Percent => {
            text.push(b'%')?;
            Ok(())
        }
    }
}
