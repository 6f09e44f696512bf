//! The target of a list: a name that other programs may change too.

ghost use Rattle.std.specs.Prelude.{◌≡◌, ◌⊎◌, ℕ, List, IfErr, IfOk, Ok, Option, Some, false};
ghost use Rattle.std.specs.Prelude.{length, option_map, true};
ghost use Rattle.std.specs.Option.{ForSome};
ghost use Rattle.list_making.specs.Target.{IsCut, IsKept, Old};

use byte_streams::Source;
use run_faults::Cause;

/// How a list was put under its name.
#[derive(Clone, Copy, PartialEq, Eq)]
pub enum Put {
    /// It is there, over the list that was read: this number of bytes was written.
    Whole(u64),
    /// Another program changed what is under the name meanwhile, so it must be made again.
    Again,
}

/// A name, and the list under it.
pub trait Target {
    /// A reader of the list that a new one follows.
    type List: Source + Drop;

    // the bytes that may be under the name, or that there is no list
    ghost holds: { Self → Option (List ℕ) → Type 0 };

    // the list that a new one follows: what may be under the name, unless it is a list that was put
    // there by this run; then what may have been there last before all lists of this run
    ghost base: { Self → Old → Type 0 };

    // what the list that is there now may have followed when it was put
    ghost replaced: { Self → Old → Type 0 };

    // another program changed what is under the name
    ghost overtaken: { Self → Type 0 };

    /// Holds the name against other updates, and returns a reader of the list that a new one
    /// follows, if it is to be read and there is one.
    fn hold(&mut self, is_read: bool) -> Result<Option<Self::List>, Cause>
        ensures read { is_read ≡ true
            → IfOk result (λ list. base self.new (option_map Self.List.left list)) }
        ensures working { IfOk result (λ list.
            ForSome list (λ reader. Self.List.has_failed reader ≡ false)) }
        ensures kept { IsKept holds overtaken self.old self.new };

    /// Whether another program changed what was held since then, so that what its reader gave may
    /// be a part of one list and a part of another. It must be held again.
    fn is_changed(&mut self) -> bool
        ensures changed { result ≡ true → overtaken self.new }
        ensures same { result ≡ false → (old : Old) → base self.old old → base self.new old }
        ensures kept { IsKept holds overtaken self.old self.new };

    /// Puts a list under the name, whole. If it is written in place, a fault says how many of its
    /// bytes are there; otherwise what was under the name stays there.
    fn put(&mut self, bytes: &[u8]) -> Result<Put, Cause>
        ensures all { (count : ℕ) → result ≡ Ok (Put.Whole count) → count ≡ length bytes.now }
        ensures whole { (count : ℕ) → result ≡ Ok (Put.Whole count)
            → holds self.new (Some bytes.now) }
        ensures over { (count : ℕ) → result ≡ Ok (Put.Whole count)
            → (old : Old) → base self.old old → replaced self.new old }
        ensures again { result ≡ Ok Put.Again → overtaken self.new }
        ensures failed { IfErr result (λ cause.
            IsKept holds overtaken self.old self.new ⊎ IsCut cause) };
}
