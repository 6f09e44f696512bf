//! The arguments of a command.

ghost use Rattle.std.specs.Prelude.{◌≡◌, IfOk, false, map};
ghost use Rattle.clap.specs.Simple.{app_of};
ghost use Rattle.clap.specs.Walk.{rule_of};
ghost use Rattle.clap.specs.declared.builder.command.Command.TheViews.{out-Command};
ghost use Rattle.option_table.specs.Argument.{rule_by, with_rules};

use clap::{Arg, ArgAction, Command};
use std::alloc::{AllocError, Global};

/// An argument of a command.
#[derive(Clone, Copy)]
pub struct Argument {
    /// The name of its values, and of a long option.
    pub id: &'static str,
    /// How it is given.
    pub syntax: Syntax,
    /// A line about it.
    pub help: &'static str,
}

/// The syntax of an argument. A value or a word has a name.
#[derive(Clone, Copy)]
pub enum Syntax {
    /// By a letter.
    Letter(char),
    /// By a letter, with a value.
    LetterValue(char, &'static str),
    /// By a letter, with a value, any number of times.
    LetterValues(char, &'static str),
    /// By a letter, with a value. It must be given.
    Needed(char, &'static str),
    /// By its id as a long name.
    Long,
    /// By its id as a long name, with a value.
    LongValue(&'static str),
    /// By its id as a long name, with a value, any number of times.
    LongValues(&'static str),
    /// As a word by itself. It must be given.
    Word(&'static str),
    /// As any number of words by themselves.
    Words(&'static str),
    /// As one or more words by themselves.
    SomeWords(&'static str),
    /// By this long name, for the program's version.
    Version(&'static str),
}

/// Adds the arguments to a command, in their order.
pub fn with_arguments<'a>(
    alloc: Global,
    command: Command<'a>,
    arguments: &[Argument],
) -> Result<Command<'a>, AllocError>
    ensures rules { IfOk result (λ made.
        app_of made ≡ with_rules (app_of command.entry) (map rule_by arguments.now)) }
    ensures local { (out-Command command.entry).has_globals ≡ false
        → IfOk result (λ made. (out-Command made).has_globals ≡ false) }
{
    let mut made = command;
    for argument in arguments {
        made = made.arg(argument_of(alloc, argument))?;
    }
    Ok(made)
}

// The argument as the library has it.
fn argument_of<'a>(alloc: Global, argument: &Argument) -> Arg<'a>
    ensures rule { rule_of result ≡ rule_by argument.now }
    ensures local { result.global ≡ false }
{
    let arg = Arg::new(alloc, argument.id).help(argument.help);
    match argument.syntax {
        Syntax::Letter(letter) => arg.short(letter).action(ArgAction::SetTrue),
        Syntax::LetterValue(letter, name) => {
            arg.short(letter).value_name(name).action(ArgAction::Set)
        }
        Syntax::LetterValues(letter, name) => arg
            .short(letter)
            .value_name(name)
            .action(ArgAction::Append),
        Syntax::Needed(letter, name) => arg
            .short(letter)
            .value_name(name)
            .required(true)
            .action(ArgAction::Set),
        Syntax::Long => arg.long(argument.id).action(ArgAction::SetTrue),
        Syntax::LongValue(name) => arg
            .long(argument.id)
            .value_name(name)
            .action(ArgAction::Set),
        Syntax::LongValues(name) => arg
            .long(argument.id)
            .value_name(name)
            .action(ArgAction::Append),
        Syntax::Word(name) => arg.value_name(name).required(true).action(ArgAction::Set),
        Syntax::Words(name) => arg.value_name(name).num_args(0..).action(ArgAction::Append),
        Syntax::SomeWords(name) => arg
            .value_name(name)
            .num_args(1..)
            .required(true)
            .action(ArgAction::Append),
        Syntax::Version(name) => arg.long(name).action(ArgAction::Version),
    }
}
