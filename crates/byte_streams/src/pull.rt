//! Taking fields from a reader, whatever parts it gives.

ghost use Rattle.std.specs.Prelude.{◌≡◌, ◌≢◌, ◌<◌, ◌∷◌, [], None, Err, length, IfOk, IfErr};
ghost use Rattle.std.specs.Prelude.{OnOk, OnErr, ◌+◌, ◌≤◌, false, take, vec_capacity, vec_len};
ghost use Rattle.byte_streams.specs.Pull.{available, Looks, Refuses, RefusesAgain, RefusesRest};
ghost use Rattle.byte_streams.specs.Pull.{Takes, TakesRest, untaken};
ghost use Rattle.ssh_wire.specs.declared.pull_fault.PullFault.TheVariants.{NoMemory, Read};

use crate::device::Source;
use crate::filling::{fill, fill_vec, look, refusal};
use crate::rest::fill_rest;
use ssh_wire::{Bytes, PullFault};
use std::alloc::Global;
use std::marker::Model;

/// A reader from which fields are taken one after another, up to a limit. The fields do not depend
/// on the parts in which the reader gives its bytes. After a fault each call reports that fault
/// again, and the reader is not called any more.
#[derive(Drop)]
pub struct Pull<R: Source + Drop> {
    reader: R,
    ahead: Option<u8>,
    taken: u64,
    limit: u64,
    fault: Option<PullFault>,
}

impl<R: Source + Drop> Model for Pull<R> {
    ghost use Rattle.byte_streams.specs.Filling.{IsSound};
    ghost use Rattle.byte_streams.specs.Pull.{Pull};

    ghost Value = { Pull };

    ghost view = { λ pull. record {
      source = R.left pull.reader;
      failed = R.has_failed pull.reader;
      buffered = R.buffered pull.reader;
      ahead = pull.ahead;
      taken = pull.taken;
      limit = pull.limit;
      fault = pull.fault;
    } };

    ghost invariant = { λ pull.
        IsSound (R.has_failed pull.reader) pull.taken pull.limit pull.fault };
}

impl<R: Source + Drop> Pull<R> {
    /// Nothing is taken yet, and at most `limit` bytes will be. The reader must not have failed.
    pub fn new(reader: R, limit: u64) -> Self
        requires { R.has_failed reader ≡ false }
        ensures { result ≡ untaken (R.left reader) (R.buffered reader) limit }
    {
        Pull {
            reader,
            ahead: None,
            taken: 0,
            limit,
            fault: None,
        }
    }

    /// How many bytes were taken. A byte that was only looked at is not counted, nor are those of a
    /// field that could not be taken.
    pub fn taken(&self) -> u64
        ensures { result ≡ self.now.taken }
    {
        self.taken
    }

    /// Whether no byte is left. It looks at most one byte ahead, which may be past the limit.
    /// Returns `Read` if the reader fails.
    pub fn at_end(&mut self) -> Result<bool, PullFault>
        ensures ok { IfOk result (λ ended. Looks self.old ended self.new) }
        ensures err { self.old.fault ≡ None → IfErr result (λ fault.
            (fault ≡ Read) × Refuses self.old 1 fault self.new) }
        ensures again { RefusesAgain result self.old self.new }
    {
        if let Some(fault) = self.fault {
            return Err(fault);
        }
        match look(&mut self.reader, &mut self.ahead) {
            Ok(more) => Ok(!more),
            Err(fault) => {
                self.fault = Some(fault);
                Err(fault)
            }
        }
    }

    /// Takes bytes to fill a slice. Returns `EndsEarly` if the reader ends first, `TooLong` if the
    /// slice would exceed the limit and the reader has bytes past it, and `Read` if the reader
    /// fails. On an error the slice may have been written to.
    #[inline(always)]
    pub fn fill(&mut self, into: &mut [u8]) -> Result<(), PullFault>
        ensures ok { OnOk result (Takes self.old into.new self.new) }
        ensures err { self.old.fault ≡ None → IfErr result (λ fault.
            (fault ≢ NoMemory) × Refuses self.old (length into.old) fault self.new) }
        ensures again { RefusesAgain result self.old self.new }
    {
        self.refuse_past_limit(into.len() as u64)?;
        match fill(&mut self.reader, &mut self.ahead, into) {
            Ok(()) => {
                self.taken += into.len() as u64;
                Ok(())
            }
            Err(fault) => {
                self.fault = Some(fault);
                Err(fault)
            }
        }
    }

    /// The bytes that can be taken by `consume`: those in the reader's buffer, within the limit.
    /// They come next.
    #[inline(always)]
    pub fn buffer(&self) -> &[u8]
        ensures { result.now ≡ available self.now }
    {
        if self.ahead.is_some() {
            return &[];
        }
        let held = self.reader.buffer();
        let room = self.limit - self.taken;
        if held.len() as u64 <= room {
            held
        } else {
            &held[..room as usize]
        }
    }

    /// Takes bytes from the front of those that `buffer` returns. No fault may have been met.
    #[inline(always)]
    pub fn consume(&mut self, count: usize)
        requires there { count ≤ length (available self.old) }
        requires faultless { self.old.fault ≡ None }
        ensures { Takes self.old (take count (available self.old)) self.new }
    {
        self.reader.consume(count);
        self.taken += count as u64;
    }

    /// Takes a byte. The errors are those of `fill`.
    pub fn byte(&mut self) -> Result<u8, PullFault>
        ensures ok { IfOk result (λ byte. Takes self.old (byte ∷ []) self.new) }
        ensures err { self.old.fault ≡ None → IfErr result (λ fault.
            (fault ≢ NoMemory) × Refuses self.old 1 fault self.new) }
        ensures again { RefusesAgain result self.old self.new }
    {
        let mut into = [0];
        self.fill(&mut into)?;
        Ok(into[0])
    }

    /// Takes as many bytes as an array has. The errors are those of `fill`.
    pub fn array<const N: usize>(&mut self) -> Result<[u8; N], PullFault>
        ensures ok { IfOk result (λ field. Takes self.old field self.new) }
        ensures size { IfOk result (λ field. length field ≡ N) }
        ensures err { self.old.fault ≡ None → IfErr result (λ fault.
            (fault ≢ NoMemory) × Refuses self.old N fault self.new) }
        ensures again { RefusesAgain result self.old self.new }
    {
        let mut into = [0; N];
        self.fill(&mut into)?;
        Ok(into)
    }

    /// Takes this many bytes into a vector, replacing its content. The vector grows only as bytes
    /// come, so a false length takes no memory. The errors are those of `fill`, and `NoMemory` if
    /// an allocation fails; the vector is empty then.
    pub fn bytes_into(&mut self, out: &mut Vec<u8>, size: usize) -> Result<(), PullFault>
        ensures ok { OnOk result (Takes self.old out.new.items self.new) }
        ensures size { OnOk result (vec_len out.new ≡ size) }
        ensures empty { OnErr result (out.new.items ≡ []) }
        ensures err { self.old.fault ≡ None → IfErr result (λ fault.
            Refuses self.old size fault self.new) }
        // If the vector has room, no allocation fails.
        ensures full { self.old.fault ≡ None → result ≡ Err NoMemory
            → vec_capacity out.old < size }
        ensures again { RefusesAgain result self.old self.new }
    {
        out.clear();
        self.refuse_past_limit(size as u64)?;
        match fill_vec(&mut self.reader, &mut self.ahead, out, size) {
            Ok(()) => {
                self.taken += size as u64;
                Ok(())
            }
            Err(fault) => {
                out.clear();
                self.fault = Some(fault);
                Err(fault)
            }
        }
    }

    /// Takes this many bytes into a new vector, as `bytes_into` does.
    pub fn bytes(&mut self, alloc: Global, size: usize) -> Result<Bytes, PullFault>
        ensures ok { IfOk result (λ field. Takes self.old field self.new) }
        ensures size { IfOk result (λ field. length field ≡ size) }
        ensures err { self.old.fault ≡ None → IfErr result (λ fault.
            Refuses self.old size fault self.new) }
        // Taking no bytes does not allocate.
        ensures full { self.old.fault ≡ None → result ≡ Err NoMemory → 0 < size }
        ensures again { RefusesAgain result self.old self.new }
    {
        let mut out = Vec::new(alloc);
        self.bytes_into(&mut out, size)?;
        Ok(Bytes::from_vec(out))
    }

    /// Takes all that is left, within the limit. It allocates only as bytes come. Returns `TooLong`
    /// if the reader has bytes past the limit, `Read` if it fails, and `NoMemory` if an allocation
    /// fails.
    pub fn rest(&mut self, alloc: Global) -> Result<Bytes, PullFault>
        ensures ok { IfOk result (λ rest. TakesRest self.old rest self.new) }
        ensures err { self.old.fault ≡ None → IfErr result (λ fault.
            RefusesRest self.old fault self.new) }
        ensures again { RefusesAgain result self.old self.new }
    {
        if let Some(fault) = self.fault {
            return Err(fault);
        }
        let room = self.limit - self.taken;
        let mut out = Vec::new(alloc);
        match fill_rest(&mut self.reader, &mut self.ahead, &mut out, room) {
            Ok(()) => {
                self.taken += out.len() as u64;
                Ok(Bytes::from_vec(out))
            }
            Err(fault) => {
                self.fault = Some(fault);
                Err(fault)
            }
        }
    }

    /// The reader, which continues after the last byte that was taken or looked at.
    pub fn into_inner(self) -> R
        ensures left { R.left result ≡ self.source }
        ensures failed { R.has_failed result ≡ self.failed }
    {
        self.reader
    }

    // Returns an earlier fault, or that of a field larger than what the limit leaves.
    #[inline(always)]
    fn refuse_past_limit(&mut self, size: u64) -> Result<(), PullFault>
        ensures ok { OnOk result (self.new ≡ self.old) }
        ensures room { OnOk result (self.old.taken + size ≤ self.old.limit) }
        ensures working { OnOk result (self.old.failed ≡ false) }
        ensures faultless { OnOk result (self.old.fault ≡ None) }
        ensures err { self.old.fault ≡ None → IfErr result (λ fault.
            (fault ≢ NoMemory) × Refuses self.old size fault self.new) }
        ensures again { RefusesAgain result self.old self.new }
    {
        if let Some(fault) = self.fault {
            return Err(fault);
        }
        if size <= self.limit - self.taken {
            return Ok(());
        }
        let fault = refusal(&mut self.reader, &mut self.ahead, self.taken, self.limit);
        self.fault = Some(fault);
        Err(fault)
    }
}
