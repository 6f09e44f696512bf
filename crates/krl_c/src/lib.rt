//! Queries of a revocation list for a key, for programs in other languages.
#![tactic(auto)]

ghost use Rattle.std.specs.Prelude.{◌≡◌, length};
ghost use Rattle.std.specs.Borrow.{sem};
ghost use denote.Param.{layout};
ghost use prog.Memory.{capped, size};
ghost use Rattle.krl_c.specs.Answer.{Answers, AnswersBlob, AnswersLine, AnswersOfLine};
ghost use Rattle.krl_c.specs.Any.{AnswersAny};
ghost use Rattle.krl_c.specs.Stored.{AnswersStored, Loads, unloaded};
ghost use Rattle.krl_c.specs.Loan.{Loan, is_lent};
ghost use Rattle.krl_c.specs.Why.{Explains};
ghost use Rattle.krl_c.specs.contracts.stored.Stored.{the_row};
ghost use Rattle.krl_c.specs.Words.{words};
ghost use Rattle.krl_c.specs.Written.{written};

mod any;
mod asked;
mod check;
mod handle;
mod init;
pub mod laws;
mod loaded_list;
mod number;
mod refusal;
mod stored;
mod why;
mod words;
mod written;

use any::ask_any;
use check::{ask_list, ask_list_of_line};
use handle::{Handle, Krl, swap};
use loaded_list::load_list;
use number::{FINE, of_list};
use std::alloc::Global;
use stored::{Stored, ask, ask_of_line, empty};
use why::explain_list;
use words::{Words, words_for};
use written::write;

/// Returns 1 if a list revokes the key or the certificate of a blob, 0 if it does not, and a number
/// below zero that says why this is not known.
#[unsafe(no_mangle)]
pub extern "C" fn krl_check(alloc: Global, list: &[u8], blob: &[u8]) -> i32
    ensures { Answers list.now blob.now result }
{
    ask_list(alloc, list, blob)
}

/// Answers as `krl_check` does, also for a plain list of public keys, which sshd(8) takes too.
#[unsafe(no_mangle)]
pub extern "C" fn krl_check_any(alloc: Global, list: &[u8], blob: &[u8]) -> i32
    ensures { AnswersAny list.now blob.now result }
{
    ask_any(alloc, list, blob)
}

/// Answers as `krl_check` does, for the key or the certificate of a line in the format of an
/// authorized keys file.
#[unsafe(no_mangle)]
pub extern "C" fn krl_check_line(alloc: Global, list: &[u8], line: &[u8]) -> i32
    ensures { AnswersOfLine list.now line.now result }
{
    ask_list_of_line(alloc, list, line)
}

/// Returns why a list revokes the key or the certificate of a blob: a bit for each reason, so 0 if
/// it does not, and a number below zero that says why this is not known.
#[unsafe(no_mangle)]
pub extern "C" fn krl_why(alloc: Global, list: &[u8], blob: &[u8]) -> i32
    ensures { Explains list.now blob.now result }
{
    explain_list(alloc, list, blob)
}

/// Reads a list into a handle, for many queries. If it is refused, the handle stays unchanged.
#[unsafe(no_mangle)]
pub extern "C" fn krl_load(alloc: Global, krl: &mut Krl, list: &[u8]) -> i32
    ensures { Loads list.now krl.old.stored krl.new.stored result }
{
    match load_list(alloc, list) {
        Ok(held) => {
            let _old = swap(
                krl,
                Stored {
                    loaded: true,
                    list: held,
                },
            );
            FINE
        }
        Err(refusal) => of_list(refusal),
    }
}

/// Queries the list that was read into a handle for the key or the certificate of a blob. The
/// handle is borrowed and does not change: many calls may read it at the same time.
#[unsafe(no_mangle)]
pub unsafe extern "C" fn krl_ask(alloc: Global, at: *const Handle, blob: &[u8]) -> i32
    ghost loan: { Loan }
    requires* { sem 𝓛 (is_lent at loan) }
    ensures* stays { sem 𝓛 (is_lent at loan) }
    ensures answer { AnswersStored (λ entries. AnswersBlob entries blob.now) loan.stored result }
{
    ask(alloc, unsafe { &*(at as *const Stored) }, blob)
}

/// Answers as `krl_ask` does, for the key or the certificate of a line.
#[unsafe(no_mangle)]
pub unsafe extern "C" fn krl_ask_line(alloc: Global, at: *const Handle, line: &[u8]) -> i32
    ghost loan: { Loan }
    requires* { sem 𝓛 (is_lent at loan) }
    ensures* stays { sem 𝓛 (is_lent at loan) }
    ensures answer { AnswersStored (λ entries. AnswersLine entries line.now) loan.stored result }
{
    ask_of_line(alloc, unsafe { &*(at as *const Stored) }, line)
}

/// Frees the memory of a handle's stored list. The handle stays ready for another list.
#[unsafe(no_mangle)]
pub extern "C" fn krl_unload(alloc: Global, krl: &mut Krl)
    ensures { krl.new.stored ≡ unloaded }
{
    let _old = swap(krl, empty(alloc));
}

/// The size of a handle in bytes.
#[unsafe(no_mangle)]
pub extern "C" fn krl_size() -> usize
    ensures { result ≡ capped (size (layout the_row)) }
{
    std::mem::size_of::<Stored>()
}

/// Writes the words for an answer as snprintf does. Returns their length in bytes. Does not
/// allocate.
#[unsafe(no_mangle)]
pub extern "C" fn krl_fault_text(answer: i32, buffer: &mut [u8]) -> usize
    ensures length { result ≡ length (words answer) }
    ensures written { buffer.new ≡ written (words answer) buffer.old }
{
    let Words { head, tail } = words_for(answer);
    write(head.as_bytes(), tail.as_bytes(), buffer)
}
