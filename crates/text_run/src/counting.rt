//! How much a list names.

ghost use Rattle.std.specs.Prelude.{◌≡◌};
ghost use Rattle.text_run.specs.Making.{counts_of};

use krl_core::Revocations;
use list_text::{Counts, Fact};
use serial_set::Spans;

/// How many authorities, serial numbers, key IDs, keys and hashes are held.
pub(crate) fn count<S: Spans>(held: &Revocations<S>) -> Counts
    ensures { result ≡ counts_of held.now }
{
    let mut counts = Counts::NONE;
    for fact in held.facts() {
        counts.add(Fact::Held(fact));
    }
    counts
}
