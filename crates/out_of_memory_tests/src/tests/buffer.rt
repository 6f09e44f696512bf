//! A writer that does not allocate.

use std::io::{self, ErrorKind, Write};

// The number of bytes that it takes.
const ROOM: usize = 4096;

/// Stores the bytes that it took.
#[derive(Drop)]
pub struct Buffer {
    bytes: [u8; ROOM],
    count: usize,
}

impl Buffer {
    /// A writer that took nothing.
    pub fn new() -> Buffer {
        Buffer {
            bytes: [0; ROOM],
            count: 0,
        }
    }

    /// The bytes that it took.
    pub fn text(&self) -> &[u8] {
        self.bytes.get(..self.count).unwrap_or(&[])
    }
}

impl Write for Buffer {
    fn write(&mut self, bytes: &[u8]) -> io::Result<usize> {
        let end = self.count.saturating_add(bytes.len());
        match self.bytes.get_mut(self.count..end) {
            Some(room) => room.copy_from_slice(bytes),
            None => return Err(ErrorKind::Other.into()),
        }
        self.count = end;
        Ok(bytes.len())
    }

    fn flush(&mut self) -> io::Result<()> {
        Ok(())
    }
}
