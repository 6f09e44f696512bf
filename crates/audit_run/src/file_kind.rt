//! The file that a path leads to.

ghost use Rattle.std.specs.Prelude.{◌≡◌};
ghost use Rattle.audit_run.specs.Names.{is_directory_kind, is_link_kind};

/// The kind of file that a path leads to.
#[derive(Clone, Copy, PartialEq, Eq)]
pub enum FileKind {
    /// A directory.
    Directory,
    /// A regular file.
    File,
    /// A symbolic link that was not followed.
    Link,
    /// The null device, which reads as an empty file.
    Null,
    /// A pipe, a socket or another device.
    Other,
}

impl FileKind {
    /// Whether it is a directory.
    pub(crate) fn is_directory(self) -> bool
        ensures { result ≡ is_directory_kind self }
    {
        match self {
            FileKind::Directory => true,
            FileKind::File | FileKind::Link | FileKind::Null | FileKind::Other => false,
        }
    }

    /// Whether it is a link that was not followed.
    pub(crate) fn is_link(self) -> bool
        ensures { result ≡ is_link_kind self }
    {
        match self {
            FileKind::Link => true,
            FileKind::Directory | FileKind::File | FileKind::Null | FileKind::Other => false,
        }
    }
}

/// A file that was found at a path.
#[derive(Clone, Copy)]
pub struct Found {
    /// Its kind.
    pub kind: FileKind,
    /// Its owner, by number.
    pub owner: u32,
    /// The device that it is on.
    pub device: u64,
}

/// A file, whatever names it has. A file that takes the number of one that is gone, or that was
/// written meanwhile, is another one.
#[derive(Clone, Copy)]
pub struct Identity {
    /// The device that it is on.
    pub device: u64,
    /// Its number there.
    pub number: u64,
    /// The number of its bytes.
    pub size: u64,
    /// When it was changed last, in seconds.
    pub changed: u64,
    /// The nanoseconds of that second.
    pub nanoseconds: u64,
}

/// A file that is open.
#[derive(Drop)]
pub struct Opened<F> {
    /// Whether it is a regular file.
    pub is_file: bool,
    /// Which file it is.
    pub identity: Identity,
    /// A reader of its bytes, from the first one on.
    pub file: F,
}
