//! An audit that the command asks for.

ghost use Rattle.std.specs.Prelude.{◌≡◌};
ghost use Rattle.audit_run.specs.Order.{IsOrder};

use crate::options::{Options, Terminal};
use crate::search::{Search, search_of};
use krl_arguments::Audit;
use krl_audit::Shown;
use krl_entries::Revocations;
use span_sets::Held;
use sshd_files::SshdFile;
use text_index::TextIndex;

/// An audit that is asked for.
#[derive(Clone, Copy)]
pub struct Order<'a> {
    /// The name of the list.
    pub list: &'a str,
    /// Keys that the list revokes on purpose: they are no findings.
    pub canaries: Option<&'a Revocations<Held>>,
    /// The texts whose lines explain the findings, if any are given.
    pub texts: Option<&'a TextIndex<'a>>,
    /// The files that sshd reads, which are audited first.
    pub sought: &'a [SshdFile],
    /// Which findings are printed, and how.
    pub shown: Shown<'a>,
    /// Which files of directories are read, and where keys are sought in their lines.
    pub search: Search,
    /// The file of names of files; empty if there is none.
    pub names_from: &'a str,
    /// The files and directories that are named.
    pub paths: &'a [&'a str],
}

/// What was read for an audit, but for the list.
#[derive(Clone, Copy)]
pub struct Loaded<'a> {
    /// The name of the list.
    pub list: &'a str,
    /// Keys that the list revokes on purpose: they are no findings.
    pub canaries: Option<&'a Revocations<Held>>,
    /// The texts whose lines explain the findings, if any are given.
    pub texts: Option<&'a TextIndex<'a>>,
    /// The files that sshd reads.
    pub sought: &'a [SshdFile],
}

impl<'a> Order<'a> {
    /// The audit that this task of the command asks for, by what was read for it, with its findings
    /// in colour where the terminal shows colours.
    pub fn of(task: &'a Audit<'a>, loaded: Loaded<'a>, terminal: Terminal) -> Order<'a>
        ensures { IsOrder task.now loaded.entry terminal result }
    {
        let options = Options {
            quiet: task.quiet,
            all: task.all,
            json: task.json,
            label: task.label,
            colours: terminal.has_colours(),
        };
        Order {
            list: loaded.list,
            canaries: loaded.canaries,
            texts: loaded.texts,
            sought: loaded.sought,
            shown: options.shown(),
            search: search_of(task.scan, task.every_file),
            names_from: task.names_from.unwrap_or(""),
            paths: task.files.as_slice(),
        }
    }
}
