//! Strings that are skipped.

ghost use Rattle.std.specs.Prelude.{◌≡◌, ◌<◌, ◌≤◌, ◌^◌, ◌++◌, List, ℕ, IsTrue, MatchOption};
ghost use Rattle.std.specs.Prelude.{length};
ghost use Rattle.ssh_wire.specs.Wire.{string};

use ssh_wire::Cursor;

/// Skips the string at the front, if there is one.
pub(crate) fn skips_string(left: &mut Cursor) -> bool
    ensures shorter { length left.new ≤ length left.old }
    ensures text { (text rest : List ℕ) → left.old ≡ string text ++ rest → length text < 2 ^ 32
        → IsTrue result × (left.new ≡ rest) }
{
    match take_string(left) {
        Some(_) => true,
        None => false,
    }
}

/// Takes the string at the front.
pub(crate) fn take_string<'a>(left: &mut Cursor<'a>) -> Option<&'a [u8]>
    ensures shorter { MatchOption result (left.new ≡ left.old)
        (λ _. length left.new < length left.old) }
    ensures text { (text rest : List ℕ) → left.old ≡ string text ++ rest → length text < 2 ^ 32
        → MatchOption result ⊥ (λ taken. (taken.now ≡ text) × (left.new ≡ rest)) }
{
    match left.string() {
        Ok(text) => Some(text),
        Err(_) => None,
    }
}
