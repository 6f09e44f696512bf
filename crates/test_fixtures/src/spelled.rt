//! Bytes as the formats spell them.

use std::alloc::{AllocError, Global};

/// Strings, one after another (RFC 4251 section 5): four bytes of length and the bytes of each. A
/// number is given as the bytes of its string.
pub fn strings(alloc: Global, list: &[&[u8]]) -> Result<Vec<u8>, AllocError> {
    let mut all = Vec::new(alloc);
    for bytes in list {
        let [.., a, b, c, d] = bytes.len().to_be_bytes();
        all.extend_from_slice(&[a, b, c, d])?;
        all.extend_from_slice(*bytes)?;
    }
    Ok(all)
}

/// The parts, one after another.
pub fn joined(alloc: Global, parts: &[&[u8]]) -> Result<Vec<u8>, AllocError> {
    let mut all = Vec::new(alloc);
    for part in parts {
        all.extend_from_slice(*part)?;
    }
    Ok(all)
}

/// The bytes, repeated.
pub fn repeated(alloc: Global, bytes: &[u8], times: usize) -> Result<Vec<u8>, AllocError> {
    let mut all = Vec::new(alloc);
    for _ in 0..times {
        all.extend_from_slice(bytes)?;
    }
    Ok(all)
}

/// A point of a curve with this number of bytes: the first, which gives the format, and the others.
pub fn point(alloc: Global, size: usize, first: u8) -> Result<Vec<u8>, AllocError> {
    let mut bytes = vec![in alloc; 0x55; size]?;
    if let Some(front) = bytes.first_mut() {
        *front = first;
    }
    Ok(bytes)
}
