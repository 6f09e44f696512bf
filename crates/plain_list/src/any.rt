//! The two forms of lists.

ghost use Rattle.std.specs.Prelude.{◌≡◌};
ghost use Rattle.plain_list.specs.Any.{begins_list};

use krl_format::MAGIC;

/// Returns true if bytes begin as a key revocation list. As sshd(8) does, callers take other bytes
/// for a plain list.
pub fn begins_list(bytes: &[u8]) -> bool
    ensures { result ≡ begins_list bytes.now }
{
    bytes.starts_with(MAGIC)
}
