//! Trees of each depth.

ghost use Rattle.std.specs.Prelude.{◌≡◌, false};
ghost use Rattle.audit_run.specs.Fact.{Fact};

use crate::tests::audits::LOUD;
use crate::tests::shelf::Paper;
use audit_lines::Refusal;
use audit_run::{
    Audited, FileKind, Found, Identity, Opened, Order, Search, Sources, Tree, audit_run,
};
use byte_streams::{FromRead, ToWrite};
use ssh_wire::Bytes;
use std::alloc::{AllocError, Global};
use test_fixtures::{GITHUB_LINE, Giver, Taker};

// Directories, one in the other, as many as this. Each of them is named d, and has a file k.pub.
#[derive(Clone, Copy)]
struct Well<'a> {
    depth: usize,
    // The names of a directory, and those of the last one.
    names: &'a [u8],
    last: &'a [u8],
}

impl<'a> Tree for Well<'a> {
    type Names = FromRead<Giver<'a>>;

    type File = FromRead<Giver<'a>>;

    ghost states = { λ _ _. Unit {0} };

    fn look(&self, path: &str, _followed: bool) -> Result<Found, Refusal> {
        let kind = if path.ends_with(".pub") {
            FileKind::File
        } else {
            FileKind::Directory
        };
        Ok(Found {
            kind,
            owner: 0,
            device: 0,
        })
    }

    fn is_excluded(&self, _name: &[u8]) -> bool {
        false
    }

    fn leads_to_sought(&self, _path: &str) -> bool {
        false
    }

    fn is_elsewhere(&self, _path: &str) -> bool {
        false
    }

    fn open(
        &self,
        path: &str,
        _looked: Option<Found>,
    ) -> Result<Result<Opened<FromRead<Giver<'a>>>, Refusal>, AllocError> {
        let identity = Identity {
            device: 0,
            number: path.len() as u64,
            size: 0,
            changed: 0,
            nanoseconds: 0,
        };
        Ok(Ok(Opened {
            is_file: true,
            identity,
            file: FromRead::new(Giver::new(GITHUB_LINE, 100)),
        }))
    }

    fn why_unread(&self, _path: &str, _file: &FromRead<Giver<'a>>) -> Refusal {
        Refusal::Read
    }

    fn enter(
        &self,
        path: &str,
        _named: bool,
    ) -> Result<Result<FromRead<Giver<'a>>, Refusal>, AllocError> {
        // The path of a directory is d/d/..
        let names = if path.len() / 2 + 1 < self.depth {
            self.names
        } else {
            self.last
        };
        Ok(Ok(FromRead::new(Giver::whole(names))))
    }

    fn why_broken(&self, _path: &str, _named: bool, _names: &FromRead<Giver<'a>>) -> Refusal {
        Refusal::Read
    }
}

#[test]
fn each_depth(rt: HostRuntime) {
    for depth in [1, 2, 400] {
        let (status, audited) = audited_in(rt.alloc(), depth);
        assert!(rt; status == 0);
        assert!(rt; audited == depth as u64);
    }
}

// The status of an audit of as many directories by an empty list, and how many files it read.
fn audited_in(alloc: Global, depth: usize) -> (u8, u64) {
    let mut taker = Taker::whole(alloc);
    let mut out = Paper {
        out: ToWrite::new(&mut taker),
    };
    let order = Order {
        list: "none",
        canaries: None,
        texts: None,
        sought: &[],
        shown: LOUD.shown(),
        search: Search::KeyFiles,
        names_from: "",
        paths: &["d"],
    };
    let names: Option<FromRead<Giver<'static>>> = None;
    let tree = Well {
        depth,
        names: b"k.pub\0d\0",
        last: b"k.pub\0",
    };
    let input = FromRead::new(Giver::new(b"", 1));
    let given = Sources {
        tree: &tree,
        names,
        input,
    };
    let list = Bytes::from_vec(Vec::new(alloc));
    match audit_run(alloc, &order, list, given, &mut out) {
        Audited::Ended { done, summary } => match summary {
            Some(summary) => (done.status, summary.files.audited),
            None => (done.status, 0),
        },
        Audited::Incomparable(_) | Audited::Refused(_) => (255, 0),
    }
}
