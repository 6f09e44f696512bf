//! The padding of a private list.

ghost use Rattle.std.specs.Prelude.{◌≡◌, nat_eq};
ghost use Rattle.std.specs.List.{starts_with};
ghost use Rattle.key_text.specs.Container.{all_padding};

// The maximum length of the padding.
const MOST: usize = 254;

/// Returns true if the bytes are 1, 2, 3 and so on, up to 254 at most.
pub fn is_padding(bytes: &[u8]) -> bool
    ensures { result ≡ starts_with nat_eq all_padding bytes.now }
{
    if bytes.len() > MOST {
        return false;
    }
    for (i, byte) in bytes.iter().enumerate() {
        if *byte as usize != i + 1 {
            return false;
        }
    }
    true
}
