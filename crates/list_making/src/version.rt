//! The version of a list that is made.

ghost use Rattle.std.specs.Prelude.{◌≡◌, ◌<◌, ◌^◌, IfSome};
ghost use Rattle.list_making.specs.Version.{version_of};

/// The version of a list: the given one, otherwise one more than that of the list that it follows,
/// otherwise the first one. None if the old one is 2^64-1.
pub fn next_version(given: Option<u64>, old: Option<u64>, first: u64) -> Option<u64>
    ensures value { result ≡ version_of first given old }
    ensures fits { IfSome result (λ version. version < 2 ^ 64) }
{
    match (given, old) {
        (Some(given), _) => Some(given),
        (None, Some(old)) => old.checked_add(1),
        (None, None) => Some(first),
    }
}
