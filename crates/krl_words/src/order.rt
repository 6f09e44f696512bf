//! The order of `-s` and of the files in a command line.

ghost use Rattle.std.specs.Prelude.{◌≡◌, map};
ghost use Rattle.krl_words.specs.Order.{authority_met, file_met, is_divided, letter_met};
ghost use Rattle.krl_words.specs.Order.{letters_met, takes_value, word_met};

use std::convert::AsStr;

/// The facts about a word that the words before it decide.
#[derive(Clone, Copy)]
pub struct Context {
    /// An option whose value the word is.
    pub is_value: bool,
    /// The word `--`, so that the word is a file.
    pub is_file: bool,
    /// A use of `-s`.
    pub has_authority: bool,
    /// A file that follows a use of `-s`.
    pub has_file: bool,
    /// A use of `-s` that follows such a file.
    pub is_divided: bool,
}

/// The letters of a word that were read.
#[derive(Clone, Copy)]
pub struct Letters {
    /// The first one whose option has a value.
    pub option: Option<u8>,
    /// Letters follow it, which are the value.
    pub has_value: bool,
}

/// Whether a file is named between two uses of `-s`, so that one use does not override the other.
/// The words can be parsed, and the program's name precedes them.
pub fn is_divided<S: AsStr>(words: &[S]) -> bool
    ensures { result ≡ is_divided (map S.text words.now) }
{
    // The program's name is no file.
    let mut place = Context {
        is_value: true,
        is_file: false,
        has_authority: false,
        has_file: false,
        is_divided: false,
    };
    for word in words {
        place = after_word(place, word.as_str().as_bytes());
    }
    place.is_divided
}

// The context of the word after this one.
fn after_word(place: Context, word: &[u8]) -> Context
    ensures { result ≡ word_met place word.now }
{
    if place.is_value {
        return Context {
            is_value: false,
            ..place
        };
    }
    if place.is_file {
        return after_file(place);
    }
    match word {
        [b'-', b'-', rest @ ..] => Context {
            is_file: rest.is_empty(),
            ..place
        },
        [b'-', first, rest @ ..] => after_letters(place, letters_of(*first, rest)),
        _ => after_file(place),
    }
}

// The context of the word after a file.
fn after_file(place: Context) -> Context
    ensures { result ≡ file_met place }
{
    Context {
        has_file: place.has_authority,
        ..place
    }
}

// The context of the word after one with these options.
fn after_letters(place: Context, letters: Letters) -> Context
    ensures { result ≡ authority_met place letters }
{
    let is_authority = letters.option == Some(b's');
    Context {
        is_value: letters.option.is_some() && !letters.has_value,
        has_authority: place.has_authority || is_authority,
        is_divided: place.is_divided || is_authority && place.has_file,
        ..place
    }
}

// The letters of a word, up to the first one whose option has a value.
fn letters_of(first: u8, rest: &[u8]) -> Letters
    ensures { result ≡ letters_met first rest.now }
{
    let mut letters = after_letter(
        Letters {
            option: None,
            has_value: false,
        },
        first,
    );
    for letter in rest {
        letters = after_letter(letters, *letter);
    }
    letters
}

// The letters with one more.
fn after_letter(letters: Letters, letter: u8) -> Letters
    ensures { result ≡ letter_met letters letter }
{
    match letters.option {
        Some(_) => Letters {
            has_value: true,
            ..letters
        },
        None if takes_value(letter) => Letters {
            option: Some(letter),
            ..letters
        },
        None => letters,
    }
}

// Whether the option with this letter has a value.
fn takes_value(letter: u8) -> bool
    ensures { result ≡ takes_value letter }
{
    matches!(letter, b'f' | b'E' | b's' | b'z')
}
