//! Spellings that differ in one slip of the hand.

ghost use Rattle.std.specs.Prelude.{◌≡◌, ℕ, List};
ghost use Rattle.std.specs.Bool.{Decides};
ghost use Rattle.std.specs.Char.{to_ascii_lowercase};
ghost use Rattle.std.specs.Str.{str_to_ascii_lowercase};
ghost use Rattle.text_entries.specs.OneOff.{IsOneOff, is_exchanged, is_one_off};

/// Whether two spellings differ in one slip: one has a letter more, or another one instead, or two
/// neighbouring letters are exchanged. Letters in upper and lower case count the same.
pub fn is_one_off(left: &[u8], right: &[u8]) -> bool
    ensures { result ≡ is_one_off (str_to_ascii_lowercase left.now)
        (str_to_ascii_lowercase right.now) }
{
    let Some((x, left_rest)) = left.split_first() else {
        return right.len() == 1;
    };
    let Some((y, right_rest)) = right.split_first() else {
        return left_rest.is_empty();
    };
    if x.eq_ignore_ascii_case(y) {
        return is_one_off(left_rest, right_rest);
    }
    if left_rest.eq_ignore_ascii_case(right_rest) {
        return true;
    }
    if is_exchanged(*x, *y, left_rest, right_rest) {
        return true;
    }
    left.eq_ignore_ascii_case(right_rest) || left_rest.eq_ignore_ascii_case(right)
}

// Whether a letter of each spelling and the next one are exchanged in the other, and the rest is
// the same.
fn is_exchanged(x: u8, y: u8, left: &[u8], right: &[u8]) -> bool
    ensures { result ≡ is_exchanged (to_ascii_lowercase x) (to_ascii_lowercase y)
        (str_to_ascii_lowercase left.now) (str_to_ascii_lowercase right.now) }
{
    let (Some((a, left_rest)), Some((b, right_rest))) = (left.split_first(), right.split_first())
    else {
        return false;
    };
    a.eq_ignore_ascii_case(&y)
        && b.eq_ignore_ascii_case(&x)
        && left_rest.eq_ignore_ascii_case(right_rest)
}

/// A law: the test holds exactly of spellings that differ in one letter, or in two that are
/// exchanged.
pub fn one_off_where_spelled()
    ensures { (left right : List ℕ) →
        Decides (is_one_off left right) (IsOneOff left right) }
{}
