//! Where a check gets its input.

ghost use Rattle.std.specs.Prelude.{◌≡◌, ◌∷◌, [], IfOk, OnErr};
ghost use Rattle.any_list.specs.Told.{ClockRead, KeysRead, told_more};
ghost use Rattle.check_run.specs.Host.{content_read};

use any_list::Lists;
use audit_lines::Refusal;
use std::alloc::AllocError;

/// The lists and the files of keys by their names, and the clock.
pub trait Host: Lists {
    /// Replaces the content of a buffer by that of the file of keys of this name, or says why it is
    /// not read. Fails only if an allocation fails.
    fn read_keys(
        &mut self,
        name: &str,
        text: &mut Vec<u8>,
    ) -> Result<Result<(), Refusal>, AllocError>
        ensures read { IfOk result (λ read. Self.Lists.told self.new
            ≡ told_more (Self.Lists.told self.old)
            (KeysRead name.now (content_read read text.new.items) ∷ [])) }
        ensures failed { OnErr result (Self.Lists.told self.new ≡ Self.Lists.told self.old) };

    /// The present moment, in seconds since 1970, or `None` if the clock cannot be read.
    fn moment(&mut self) -> Option<u64>
        ensures { Self.Lists.told self.new
            ≡ told_more (Self.Lists.told self.old) (ClockRead result ∷ []) };
}
