//! A search for logins that the command asks for.

ghost use Rattle.std.specs.Prelude.{◌≡◌};
ghost use Rattle.login_run.specs.Order.{IsLoginOrder};

use audit_run::{Options, Terminal};
use krl_arguments::Logins;
use krl_audit::Shown;
use text_index::TextIndex;

/// A search for logins that is asked for.
#[derive(Clone, Copy)]
pub struct LoginOrder<'a> {
    /// The name of the list.
    pub list: &'a str,
    /// The texts whose lines explain the findings, if any are given: they are indexed for queries by
    /// fingerprints.
    pub texts: Option<&'a TextIndex<'a>>,
    /// Which findings are printed, and how.
    pub shown: Shown<'a>,
    /// The logs.
    pub files: &'a [&'a str],
}

impl<'a> LoginOrder<'a> {
    /// The search that this task of the command asks for, given its texts, with its findings in
    /// colour where the terminal shows colours.
    pub fn of(
        task: &'a Logins<'a>,
        texts: Option<&'a TextIndex<'a>>,
        terminal: Terminal,
    ) -> LoginOrder<'a>
        ensures { IsLoginOrder task.now texts.entry terminal result }
    {
        let options = Options {
            label: None,
            quiet: task.quiet,
            all: task.all,
            json: task.json,
            colours: terminal.has_colours(),
        };
        LoginOrder {
            list: task.list_name(),
            texts,
            shown: options.shown(),
            files: task.files.as_slice(),
        }
    }
}
