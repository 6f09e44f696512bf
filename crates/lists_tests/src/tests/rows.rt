//! Worked lists: the bytes after the header, and the number of spans or the first fault.

use krl_core::KrlFault;

/// A list, given by the bytes after its header, and the result.
pub type Row = (&'static [u8], Result<u128, KrlFault>);

/// The worked lists.
pub const ROWS: [Row; 45] = [
    (b"", Ok(0)),
    (b"\x99", Err(KrlFault::UnknownSection)),
    (
        b"\x01\0\0\0\x15\0\0\0\0\0\0\0\0\x20\0\0\0\x08\0\0\0\0\0\0\0\x05",
        Ok(1),
    ),
    (
        b"\x02\0\0\0\x37\0\0\0\x33\0\0\0\x0b\x73\x73\x68\x2d\x65\x64\x32\x35\x35\x31\x39\0\0\0\
\x20\xe3\x2a\xaa\x79\x15\xce\xb9\xb4\x49\xd1\xba\x50\xea\x2a\x28\xbb\x1a\x6e\x01\xf9\x0b\xda\
\x24\x5a\x2d\x1d\x87\x69\x7d\x18\xa2\x65",
        Ok(0),
    ),
    (
        b"\x01\0\0\0\x1d\0\0\0\0\0\0\0\0\x21\0\0\0\x10\0\0\0\0\0\0\0\x01\xff\xff\xff\xff\xff\
\xff\xff\xff",
        Ok(1),
    ),
    (
        b"\x01\0\0\0\x1a\0\0\0\0\0\0\0\0\x22\0\0\0\x0d\0\0\0\0\0\0\0\x01\0\0\0\x01\x55",
        Ok(4),
    ),
    (
        b"\x01\0\0\0\x1a\0\0\0\0\0\0\0\0\x22\0\0\0\x0d\xff\xff\xff\xff\xff\xff\xff\xff\0\0\0\
\x01\x01",
        Ok(1),
    ),
    (
        b"\x01\0\0\0\x1a\0\0\0\0\0\0\0\0\x22\0\0\0\x0d\xff\xff\xff\xff\xff\xff\xff\xff\0\0\0\
\x01\x02",
        Err(KrlFault::BitmapWraps),
    ),
    (
        b"\x01\0\0\0\x1d\0\0\0\0\0\0\0\0\x22\0\0\0\x10\0\0\0\0\0\0\0\x01\0\0\0\x04\0\0\x01\x80",
        Ok(1),
    ),
    (
        b"\x01\0\0\0\x1a\0\0\0\0\0\0\0\0\x22\0\0\0\x0d\0\0\0\0\0\0\0\x01\0\0\0\x01\x80",
        Err(KrlFault::BitmapNegative),
    ),
    (
        b"\x01\0\0\0\x19\0\0\0\0\0\0\0\0\x22\0\0\0\x0c\0\0\0\0\0\0\0\x01\0\0\0\0",
        Ok(0),
    ),
    (
        b"\x01\0\0\0\x1d\0\0\0\0\0\0\0\0\x21\0\0\0\x10\0\0\0\0\0\0\0\0\0\0\0\0\0\0\0\x03",
        Ok(1),
    ),
    (
        b"\x01\0\0\0\x48\0\0\0\x33\0\0\0\x0b\x73\x73\x68\x2d\x65\x64\x32\x35\x35\x31\x39\0\0\0\
\x20\x11\x11\x11\x11\x11\x11\x11\x11\x11\x11\x11\x11\x11\x11\x11\x11\x11\x11\x11\x11\x11\x11\
\x11\x11\x11\x11\x11\x11\x11\x11\x11\x11\0\0\0\0\x20\0\0\0\x08\0\0\0\0\0\0\0\x07",
        Ok(1),
    ),
    (b"\x04\0\0\0\0\0\0\0\0\x01", Err(KrlFault::AfterSignature)),
    (b"\x04\0\0\0\0\0\0\0\0\x04\0\0\0\0\0\0\0\0", Ok(0)),
    (
        b"\x05\0\0\0\x23\0\0\0\x1f\0\0\0\0\0\0\0\0\0\0\0\0\0\0\0\0\0\0\0\0\0\0\0\0\0\0\0\0\0\0\
\0",
        Err(KrlFault::HashLength),
    ),
    (
        b"\x03\0\0\0\x18\0\0\0\x14\x07\x07\x07\x07\x07\x07\x07\x07\x07\x07\x07\x07\x07\x07\x07\
\x07\x07\x07\x07\x07\x05\0\0\0\x24\0\0\0\x20\xf8\x38\x98\xdf\x0b\xef\x57\xa4\xee\x24\x98\x5b\
\xa5\x98\xac\x17\xfc\xcb\x0c\x0d\x33\x3c\xc4\xaf\x1d\xd9\x2b\xe1\x4b\xc2\x3a\xa5",
        Ok(0),
    ),
    (
        b"\x01\0\0\0\x15\0\0\0\0\0\0\0\0\x20\0\0\0\x09\0\0\0\0\0\0\0\0",
        Err(KrlFault::Length),
    ),
    (
        b"\x01\0\0\0\x15\0\0\0\0\0\0\0\0\x20\0\0\0\x07\0\0\0\0\0\0\0\0",
        Err(KrlFault::Length),
    ),
    (
        b"\x01\0\0\0\x1d\0\0\0\0\0\0\0\0\x21\0\0\0\x10\0\0\0\0\0\0\0\x02\0\0\0\0\0\0\0\x01",
        Err(KrlFault::RangeReversed),
    ),
    (
        b"\x01\0\0\0\x12\0\0\0\0\0\0\0\0\x23\0\0\0\x05\0\0\0\x01\x61",
        Ok(0),
    ),
    (
        b"\x01\0\0\0\x1a\0\0\0\0\0\0\0\0\x22\0\0\0\x0d\0\0\0\0\0\0\0\0\0\0\0\x01\x01",
        Ok(0),
    ),
    (
        b"\x01\0\0\0\x1a\0\0\0\0\0\0\0\0\x22\0\0\0\x0d\0\0\0\0\0\0\0\0\0\0\0\x01\x0f",
        Ok(1),
    ),
    (
        b"\x01\0\0\0\x1c\0\0\0\0\0\0\0\0\x22\0\0\0\x0f\xff\xff\xff\xff\xff\xff\xff\xff\0\0\0\
\x03\0\0\x01",
        Ok(1),
    ),
    (
        b"\x01\0\0\0\x1b\0\0\0\0\0\0\0\0\x22\0\0\0\x0e\xff\xff\xff\xff\xff\xff\xff\xff\0\0\0\
\x02\x80\0",
        Err(KrlFault::BitmapNegative),
    ),
    (b"\x02\xff\xff\xff\xff", Err(KrlFault::EndsEarly)),
    (b"\x02\0\0\0\x05\0\0\0\x02", Err(KrlFault::Length)),
    (b"\x02\0\0\0\x02", Err(KrlFault::Length)),
    (b"\xff\0\0\0\x0a\0\0\0\x01\x78\0\0\0\0\0", Ok(0)),
    (
        b"\xff\0\0\0\x0a\0\0\0\x01\x78\x01\0\0\0\0",
        Err(KrlFault::CriticalExtension),
    ),
    (
        b"\xff\0\0\0\x0a\0\0\0\x01\x78\x02\0\0\0\0",
        Err(KrlFault::CriticalExtension),
    ),
    (
        b"\xff\0\0\0\x0b\0\0\0\x01\x78\0\0\0\0\0\0",
        Err(KrlFault::Length),
    ),
    (b"\xff\0\0\0\x05\0\0\0\x01\x78", Err(KrlFault::Length)),
    (
        b"\x01\0\0\0\x17\0\0\0\0\0\0\0\0\x39\0\0\0\x0a\0\0\0\x01\x78\0\0\0\0\0",
        Ok(0),
    ),
    (b"\x04\0\0\0\0\0\0\0\0\xff", Err(KrlFault::AfterSignature)),
    (
        b"\x01\xff\xff\xff\xff\0\0\0\0\0\0\0\0\x20\0\0\0\x08\0\0\0\0\0\0\0\x05",
        Err(KrlFault::EndsEarly),
    ),
    (
        b"\x01\0\0\0\x16\0\0\0\0\0\0\0\0\x20\0\0\0\x08\0\0\0\0\0\0\0\x05",
        Err(KrlFault::EndsEarly),
    ),
    (
        b"\x01\0\0\0\x14\0\0\0\0\0\0\0\0\x20\0\0\0\x08\0\0\0\0\0\0\0\x05",
        Err(KrlFault::Length),
    ),
    (
        b"\x01\0\0\0\x15\xff\xff\xff\xff\0\0\0\0\x20\0\0\0\x08\0\0\0\0\0\0\0\x05",
        Err(KrlFault::Length),
    ),
    (
        b"\x01\0\0\0\x15\0\0\0\x01\0\0\0\0\x20\0\0\0\x08\0\0\0\0\0\0\0\x05",
        Err(KrlFault::Length),
    ),
    (
        b"\x01\0\0\0\x15\0\0\0\0\xff\xff\xff\xff\x20\0\0\0\x08\0\0\0\0\0\0\0\x05",
        Err(KrlFault::Length),
    ),
    (
        b"\x01\0\0\0\x15\0\0\0\0\0\0\0\x01\x20\0\0\0\x08\0\0\0\0\0\0\0\x05",
        Err(KrlFault::UnknownCertSection),
    ),
    (
        b"\x01\0\0\0\x15\0\0\0\0\0\0\0\0\x20\xff\xff\xff\xff\0\0\0\0\0\0\0\x05",
        Err(KrlFault::Length),
    ),
    (
        b"\x01\0\0\0\x1a\0\0\0\0\0\0\0\0\x22\0\0\0\x0d\0\0\0\0\0\0\0\x01\0\0\0\x02\x55",
        Err(KrlFault::Length),
    ),
    (
        b"\x01\0\0\0\x1d\0\0\0\0\0\0\0\0\x21\0\0\0\x11\0\0\0\0\0\0\0\0\0\0\0\0\0\0\0\0",
        Err(KrlFault::Length),
    ),
];
