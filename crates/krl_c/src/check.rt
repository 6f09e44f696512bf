//! Queries of a list for a blob while it is streamed: only the answers to the query are stored.

ghost use Rattle.std.specs.Prelude.{List, IfOk, IfErr, OnOk};
ghost use Rattle.krl_types.specs.Entry.{Entry};
ghost use Rattle.krl_queries.specs.Questions.{Asks, asked_in};
ghost use Rattle.krl_entries.specs.Scope.{MeansInScope};
ghost use Rattle.plain_list.specs.Any.{IsListOf};
ghost use Rattle.krl_c.specs.Answer.{Answers, AnswersOfLine, IsCompared, IsRefusal};
ghost use Rattle.krl_c.specs.Streamed.{StoresAsked};

use crate::asked::asked_for;
use crate::number::{FINE, REVOKED, of_blob, of_line, of_list};
use crate::refusal::Refusal;
use byte_streams::Lent;
use key_text::read_line;
use krl_core::{KrlFault, Walk};
use krl_openssh::first_incomparable;
use krl_queries::Questions;
use span_sets::Held;
use ssh_cert::Subject;
use std::alloc::Global;

// Queries a list for a blob.
pub(crate) fn ask_list(alloc: Global, list: &[u8], blob: &[u8]) -> i32
    ensures { Answers list.now blob.now result }
{
    match asked_for(alloc, blob) {
        Ok(asked) => match compared(alloc, list, &asked) {
            Ok(questions) => {
                if questions.answer(&asked) {
                    REVOKED
                } else {
                    FINE
                }
            }
            Err(refusal) => of_list(refusal),
        },
        Err(fault) => match judge(alloc, list) {
            Ok(()) => of_blob(fault),
            Err(refusal) => of_list(refusal),
        },
    }
}

// Queries a list for the key of a line.
pub(crate) fn ask_list_of_line(alloc: Global, list: &[u8], line: &[u8]) -> i32
    ensures { AnswersOfLine list.now line.now result }
{
    match read_line(alloc, line) {
        Ok(read) => ask_list(alloc, list, read.blob.as_slice()),
        Err(fault) => match judge(alloc, list) {
            Ok(()) => of_line(fault),
            Err(refusal) => of_list(refusal),
        },
    }
}

// Streams a list whose names can be compared, or returns why it gives no answer.
pub(crate) fn compared(
    alloc: Global,
    list: &[u8],
    asked: &Subject,
) -> Result<Questions<Held>, Refusal>
    ensures found { IfOk result (λ questions. (entries : List Entry)
        × IsCompared list.now entries
        × MeansInScope (asked_in questions) questions.found entries) }
    ensures asked { IfOk result (λ questions. Asks questions.topics asked.now) }
    ensures refused { IfErr result (λ refusal. IsRefusal (Unit {0}) list.now refusal) }
{
    match stream(alloc, list, asked) {
        Ok(questions) => match first_incomparable(list) {
            None => Ok(questions),
            Some(why) => Err(Refusal::Incomparable(why)),
        },
        Err(fault) => Err(Refusal::Fault(fault)),
    }
}

// Streams a list, and stores only the answers to the query.
fn stream(alloc: Global, list: &[u8], asked: &Subject) -> Result<Questions<Held>, KrlFault>
    ensures found { IfOk result (λ questions. (entries : List Entry)
        × IsListOf list.now entries × MeansInScope (asked_in questions) questions.found entries) }
    ensures asked { IfOk result (λ questions. Asks questions.topics asked.now) }
    ensures stored { IfOk result (λ questions. StoresAsked asked.now questions) }
    ensures fault { IfErr result (λ fault.
        IsRefusal (Unit {0}) list.now (Refusal.Fault fault)) }
{
    let mut questions: Questions<Held> = Questions::new(alloc);
    let Ok(()) = questions.ask(asked) else {
        return Err(KrlFault::NoMemory);
    };
    let (read, _list) = Walk::over(alloc, questions, Lent::new(list)).read_on();
    match read {
        Ok((_header, questions)) => Ok(questions),
        Err(fault) => Err(fault),
    }
}

// Reads a list without a query: returns why it gives no answer, if it gives none.
pub(crate) fn judge(alloc: Global, list: &[u8]) -> Result<(), Refusal>
    ensures list { OnOk result ((entries : List Entry) × IsCompared list.now entries) }
    ensures refused { IfErr result (λ refusal. IsRefusal ⊥ list.now refusal) }
{
    match stream_unasked(alloc, list) {
        Ok(()) => match first_incomparable(list) {
            None => Ok(()),
            Some(why) => Err(Refusal::Incomparable(why)),
        },
        Err(fault) => Err(Refusal::Fault(fault)),
    }
}

// Reads a list without a query: returns its first fault, if it has one.
fn stream_unasked(alloc: Global, list: &[u8]) -> Result<(), KrlFault>
    ensures list { OnOk result ((entries : List Entry) × IsListOf list.now entries) }
    ensures fault { IfErr result (λ fault. IsRefusal ⊥ list.now (Refusal.Fault fault)) }
{
    let none: Questions<Held> = Questions::new(alloc);
    let (read, _list) = Walk::over(alloc, none, Lent::new(list)).read_on();
    match read {
        Ok(_) => Ok(()),
        Err(fault) => Err(fault),
    }
}
