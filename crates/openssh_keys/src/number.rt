//! The lengths of numbers.

ghost use Rattle.std.specs.Prelude.{◌≡◌};
ghost use Rattle.openssh_keys.specs.Judgement.{has_long_number};

use ssh_wire::Cursor;

// The most bytes of a number, which are 16,384 bits.
const MOST: usize = 2_048;

/// Whether one of the numbers at the front of public fields has more than 16,384 bits.
#[tactic(auto, using(crate::proofs::Numbers::next_number, crate::proofs::Numbers::none_left))]
pub(crate) fn has_long_number(count: usize, fields: &[u8]) -> bool
    ensures { result ≡ has_long_number count fields.now }
{
    let mut cursor = Cursor::new(fields);
    for i in 0..count {
        match cursor.mpint() {
            Ok(number) if number.len() > MOST => return true,
            Ok(_) => {}
            Err(_) => return false,
        }
    }
    false
}
