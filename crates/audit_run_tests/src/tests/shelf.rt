//! A tree of files in memory.

ghost use Rattle.std.specs.Prelude.{◌≡◌, false};
ghost use Rattle.audit_run.specs.Fact.{Fact};

use audit_lines::Refusal;
use audit_run::{FileKind, Found, Identity, Opened, Screen, Summary, Tree};
use byte_streams::{Failed, FromRead, Sink, ToWrite};
use std::alloc::AllocError;
use test_fixtures::{Giver, Taker, Then};

/// A node of a tree.
#[derive(Clone, Copy)]
pub enum Node<'a> {
    /// A regular file: its device, its number there, and its bytes.
    File(u64, u64, &'a [u8]),
    /// A directory, and its names, each ended by a zero byte.
    Directory(&'a [u8]),
    /// A directory with these names, behind which its reader fails.
    Broken(&'a [u8]),
    /// A directory that cannot be entered.
    Closed(Refusal),
    /// A link to this path.
    Link(&'a str),
    /// The null device.
    Null,
    /// A pipe, a socket or a device, and the bytes that are read there.
    Special(&'a [u8]),
    /// A path that cannot be looked at.
    Hidden(Refusal),
    /// A regular file that cannot be opened.
    Unopened(Refusal),
    /// A regular file that is none any more once it is open.
    Swapped,
    /// A regular file with this number that cannot be read.
    Unread(u64, Refusal),
}

/// The name that the command excludes.
pub const EXCLUDED: &str = "cache.pub";

/// The end of the paths of directories that are on another file system.
pub const MOUNTED: &str = "/mounted";

/// A path, and what is there.
#[derive(Clone, Copy)]
pub struct Item<'a>(pub &'a str, pub Node<'a>);

/// A tree in memory.
#[derive(Clone, Copy)]
pub struct Shelf<'a> {
    pub items: &'a [Item<'a>],
}

impl<'a> Shelf<'a> {
    // The node at a path, where no link is followed.
    fn at(&self, path: &str) -> Node<'a> {
        for item in self.items {
            if item.0 == path {
                return item.1;
            }
        }
        Node::Hidden(Refusal::Missing)
    }

    // The node behind it, where a link is followed.
    fn behind(&self, path: &str) -> Node<'a> {
        match self.at(path) {
            Node::Link(to) => self.at(to),
            node => node,
        }
    }
}

impl<'a> Tree for Shelf<'a> {
    type Names = FromRead<Giver<'a>>;

    type File = FromRead<Giver<'a>>;

    ghost states = { λ _ _. Unit {0} };

    fn look(&self, path: &str, followed: bool) -> Result<Found, Refusal> {
        let node = if followed {
            self.behind(path)
        } else {
            self.at(path)
        };
        let kind = match node {
            Node::File(..) | Node::Unopened(_) | Node::Swapped | Node::Unread(..) => FileKind::File,
            Node::Directory(_) | Node::Broken(_) | Node::Closed(_) => FileKind::Directory,
            Node::Link(_) => FileKind::Link,
            Node::Null => FileKind::Null,
            Node::Special(_) => FileKind::Other,
            Node::Hidden(refusal) => return Err(refusal),
        };
        Ok(Found {
            kind,
            owner: 0,
            device: 0,
        })
    }

    fn is_excluded(&self, name: &[u8]) -> bool {
        name == EXCLUDED.as_bytes()
    }

    fn leads_to_sought(&self, path: &str) -> bool {
        match self.at(path) {
            Node::Link(to) => to.ends_with("/.ssh"),
            _ => false,
        }
    }

    fn is_elsewhere(&self, path: &str) -> bool {
        path.ends_with(MOUNTED)
    }

    fn open(
        &self,
        path: &str,
        _looked: Option<Found>,
    ) -> Result<Result<Opened<FromRead<Giver<'a>>>, Refusal>, AllocError> {
        let (is_file, device, number, bytes) = match self.behind(path) {
            Node::File(device, number, bytes) => (true, device, number, bytes),
            Node::Unread(number, _) => (true, 0, number, b"".as_slice()),
            Node::Special(bytes) => (false, 0, 0, bytes),
            Node::Null => (false, 0, 0, b"".as_slice()),
            Node::Swapped => (false, 0, 0, b"".as_slice()),
            Node::Hidden(refusal) | Node::Unopened(refusal) => return Ok(Err(refusal)),
            Node::Directory(_) | Node::Broken(_) | Node::Closed(_) | Node::Link(_) => {
                return Ok(Err(Refusal::Open));
            }
        };
        let mut giver = Giver::new(bytes, 7);
        if let Node::Unread(..) = self.behind(path) {
            giver.then = Then::Fails;
        }
        Ok(Ok(Opened {
            is_file,
            identity: Identity {
                device,
                number,
                size: bytes.len() as u64,
                changed: 0,
                nanoseconds: 0,
            },
            file: FromRead::new(giver),
        }))
    }

    fn why_unread(&self, path: &str, _file: &FromRead<Giver<'a>>) -> Refusal {
        match self.behind(path) {
            Node::Unread(_, refusal) => refusal,
            _ => Refusal::Read,
        }
    }

    fn enter(
        &self,
        path: &str,
        named: bool,
    ) -> Result<Result<FromRead<Giver<'a>>, Refusal>, AllocError> {
        let node = match self.at(path) {
            Node::Link(to) if named => self.at(to),
            Node::Link(to) => match self.at(to) {
                Node::Hidden(refusal) => Node::Hidden(refusal),
                _ => Node::Hidden(Refusal::DirectoryLink),
            },
            node => node,
        };
        match node {
            Node::Directory(names) => Ok(Ok(FromRead::new(Giver::new(names, 3)))),
            Node::Broken(names) => {
                let mut names = Giver::new(names, 3);
                names.then = Then::Fails;
                Ok(Ok(FromRead::new(names)))
            }
            Node::Closed(refusal) | Node::Hidden(refusal) => Ok(Err(refusal)),
            _ => Ok(Err(Refusal::Open)),
        }
    }

    fn why_broken(&self, _path: &str, _named: bool, _names: &FromRead<Giver<'a>>) -> Refusal {
        Refusal::Read
    }
}

/// An output on which no progress is shown.
#[derive(Drop)]
pub struct Paper<'t> {
    pub out: ToWrite<&'t mut Taker>,
}

impl<'t> Sink for Paper<'t> {
    ghost taken = { λ paper. ⟦<ToWrite<&'t mut Taker> as Sink>⟧.taken paper.out };

    ghost has_failed = { λ paper. ⟦<ToWrite<&'t mut Taker> as Sink>⟧.has_failed paper.out };

    fn write(&mut self, bytes: &[u8]) -> Result<usize, Failed> {
        self.out.write(bytes)
    }

    fn failed(&self) -> bool {
        self.out.failed()
    }
}

impl<'t> Screen for Paper<'t> {
    fn show(&mut self, _summary: &Summary) {}
}
