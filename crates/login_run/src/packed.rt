//! Files that are not logs as text.

ghost use Rattle.std.specs.Prelude.{◌≡◌};
ghost use Rattle.login_run.specs.Packed.{packed_at, packed_by};

use login_text::Packed;

/// The format of a file that is no text, by a line with this many lines before it: only the first
/// line shows it.
pub(crate) fn packed_at(number: u64, line: &[u8]) -> Option<Packed>
    ensures { result ≡ packed_at number line.now }
{
    if number == 0 { packed_by(line) } else { None }
}

// The format of a file that is no text, by its first line.
fn packed_by(line: &[u8]) -> Option<Packed>
    ensures { result ≡ packed_by line.now }
{
    if line.starts_with(b"\x1f\x8b") {
        return Some(Packed::Gzip);
    }
    if line.starts_with(b"\xfd7zXZ\x00") {
        return Some(Packed::Xz);
    }
    if line.starts_with(b"\x28\xb5\x2f\xfd") {
        return Some(Packed::Zstd);
    }
    if line.starts_with(b"LPKSHHRH") {
        return Some(Packed::Journal);
    }
    None
}
