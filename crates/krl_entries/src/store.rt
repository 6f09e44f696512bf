//! Stores, which take the entries of a list while it is read.

ghost use Rattle.std.specs.Prelude.{◌≡◌, ◌%◌, ◌≤◌, ◌⊎◌, ℕ, List, length, OnOk, false, ⊤};
ghost use Rattle.krl_entries.specs.Addition.{CountsUnder, IsKey, IsOneAddition, StoresMore};
ghost use Rattle.krl_entries.specs.Changes.{HoldsMore, added_entries};
ghost use Rattle.krl_entries.specs.Revocations.{held};
ghost use Rattle.krl_types.specs.Naming.{SerialOf};
ghost use Rattle.krl_entries.specs.Scope.{AreOutOfScope, InScope, MeansMoreInScope, IsInScope};
ghost use Rattle.krl_entries.specs.Scope.{stored_comment};

use crate::addition::Addition;
use crate::revocations::Revocations;
use serial_set::Spans;
use std::alloc::AllocError;

/// A store takes the entries of a list while it is read. It holds a name in its scope exactly if
/// some entry names it. An addition fails only if an allocation fails.
pub trait Store: Drop {
    ghost use Rattle.krl_entries.specs.Revocations.{Revocations};
    ghost use Rattle.krl_entries.specs.Scope.{Scope};

    // the revocations that it holds
    ghost contents: { Self → Revocations };

    // the names that it answers for
    ghost scope: { Self → Scope };

    // whether it takes entries under this authority; after `leave` it takes those under any
    ghost is_at: { Self → List ℕ → Type 0 };

    /// Leaves the current authority: the entries that follow may be under another one.
    fn leave(&mut self)
        ensures contents { contents self.new ≡ contents self.old }
        ensures scope { scope self.new ≡ scope self.old }
        ensures any { (authority : List ℕ) → is_at self.new authority };

    /// The part of the list's comment that is kept: all of it or nothing.
    fn stored_comment<'a>(&self, comment: &'a [u8]) -> &'a [u8]
        ensures { result.now ≡ stored_comment (scope self.now) comment.now };

    /// Whether some serial from `lo` to `hi` under this authority may be in scope.
    fn may_have_in_scope(&self, authority: &[u8], lo: u64, hi: u64) -> bool
        requires { lo ≤ hi }
        ensures { result ≡ false → (s : ℕ) → lo ≤ s → s ≤ hi
            → InScope (scope self.now) (SerialOf authority.now s) → ⊥ };

    /// How many bytes at the front of some serial numbers belong to numbers that are not in scope
    /// under this authority. Each number is eight bytes long.
    fn out_of_scope(&self, authority: &[u8], serials: &[u8]) -> usize
        ensures within { result ≤ length serials.now }
        ensures whole { result % 8 ≡ 0 }
        ensures out_of_scope { AreOutOfScope (scope self.now) authority.now serials.now result };

    /// Takes an addition, certificates under an authority.
    fn store(&mut self, authority: &[u8], addition: Addition<'_>) -> Result<(), AllocError>
        requires one { IsOneAddition addition }
        requires at { IsKey addition ⊎ is_at self.old authority.now }
        ensures at { (other : List ℕ) → CountsUnder addition.entry authority.now other
            → is_at self.old other → is_at self.new other }
        ensures means { OnOk result (MeansMoreInScope (scope self.old) (contents self.old)
            (contents self.new) (added_entries authority.now addition.entry)) }
        ensures scope { scope self.new ≡ scope self.old }
        ensures within { IsInScope (scope self.old) (contents self.old)
            → IsInScope (scope self.new) (contents self.new) }
        ensures held { HoldsMore addition.entry (held (contents self.old))
            (held (contents self.new)) }
        ensures stored { StoresMore authority.now addition.entry (contents self.old)
            (contents self.new) };
}

impl<S: Spans> Store for Revocations<S> {
    ghost use Rattle.krl_entries.specs.Scope.{all};

    ghost contents = { λ revocations. revocations };

    ghost scope = { λ _. all };

    ghost is_at = { λ _ _. ⊤ };

    fn leave(&mut self) {}

    fn stored_comment<'a>(&self, comment: &'a [u8]) -> &'a [u8] {
        comment
    }

    fn may_have_in_scope(&self, _authority: &[u8], _lo: u64, _hi: u64) -> bool {
        true
    }

    fn out_of_scope(&self, _authority: &[u8], _serials: &[u8]) -> usize {
        0
    }

    #[inline(always)]
    fn store(&mut self, authority: &[u8], addition: Addition<'_>) -> Result<(), AllocError> {
        self.add(authority, addition)
    }
}
