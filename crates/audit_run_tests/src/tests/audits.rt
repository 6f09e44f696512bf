//! Audits of a tree in memory by a plain list of one key.

use crate::tests::shelf::{Item, Paper, Shelf};
use audit_run::{Audited, Options, Order, Search, Sources, audit_run, push_summary};
use byte_streams::{FromRead, ToWrite};
use ssh_wire::Bytes;
use sshd_files::SshdFile;
use std::alloc::Global;
use std::process::Abort;
use test_fixtures::{GITHUB_LINE, Giver, Taker, joined};

/// The finding about a line with the key of the list, behind the name and the number of the line.
pub const REVOKED: &[u8] =
    b": revoked: ssh-ed25519 SHA256:+DiY3wvvV6TuJJhbpZisF/zLDA0zPMSvHdkr4UvCOqU by its key\n";

/// Revoked keys and unread lines are printed, as lines.
pub const LOUD: Options<'static> = Options {
    quiet: false,
    all: false,
    json: false,
    colours: false,
    label: None,
};

/// An audit, and what it prints: its findings, the counts of its last line, and its status.
#[derive(Clone, Copy)]
pub struct Case<'a> {
    pub paths: &'a [&'a str],
    pub text: &'a [&'a [u8]],
    pub counts: &'a [u8],
    pub status: u8,
}

/// The options of an audit, the bytes of a reader of names, and the files that sshd reads.
#[derive(Clone, Copy)]
pub struct Asked<'a> {
    pub options: Options<'a>,
    pub search: Search,
    pub names: Option<&'a [u8]>,
    pub sought: &'a [SshdFile],
}

/// An audit of files by their names, with no option.
pub fn plain() -> Asked<'static> {
    Asked {
        options: LOUD,
        search: Search::KeyFiles,
        names: None,
        sought: &[],
    }
}

/// Checks an audit of names that a reader gives, and of paths. Standard input is a line with the
/// key of the list.
pub fn check<'a>(
    rt: &impl Abort,
    alloc: Global,
    items: &[Item<'_>],
    asked: &Asked<'a>,
    case: &Case<'a>,
) {
    let mut taker = Taker::whole(alloc);
    let mut out = Paper {
        out: ToWrite::new(&mut taker),
    };
    let order = Order {
        list: "revoked.krl",
        canaries: None,
        texts: None,
        sought: asked.sought,
        shown: asked.options.shown(),
        search: asked.search,
        names_from: "names",
        paths: case.paths,
    };
    let names = match asked.names {
        Some(names) => Some(FromRead::new(Giver::new(names, 3))),
        None => None,
    };
    let tree = Shelf { items };
    let input = FromRead::new(Giver::new(GITHUB_LINE, 7));
    let given = Sources {
        tree: &tree,
        names,
        input,
    };
    let list = joined(alloc, &[GITHUB_LINE, b"\n"]).expect(rt, "there is memory");
    let audited = audit_run(alloc, &order, Bytes::from_vec(list), given, &mut out);
    let (status, line) = ended(rt, alloc, &audited);
    drop(out);
    let wanted = joined(alloc, case.text).expect(rt, "there is memory");
    assert_eq!(rt; taker.taken.as_slice(), wanted.as_slice());
    let parts: [&[u8]; 3] = [b"krl audit: ", case.counts, b" (plain list)\n"];
    let wanted = joined(alloc, &parts).expect(rt, "there is memory");
    assert_eq!(rt; line.as_slice(), wanted.as_slice());
    assert_eq!(rt; status, case.status);
}

// The status and the last line of an audit.
fn ended(rt: &impl Abort, alloc: Global, audited: &Audited<'_>) -> (u8, Vec<u8>) {
    let mut line = Vec::new(alloc);
    match audited {
        Audited::Ended { done, summary } => {
            if let Some(summary) = summary {
                push_summary(alloc, summary, &mut line).expect(rt, "there is memory");
            }
            (done.status, line)
        }
        Audited::Incomparable(_) | Audited::Refused(_) => (255, line),
    }
}
