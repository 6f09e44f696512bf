//! A search in a set that moves forward.

ghost use Rattle.std.specs.Prelude.{◌≡◌};

use crate::window::{Window, run_at};
use serial_set::{Piece, Span, Spans};
use std::marker::Model;

/// A search in a set, or in none. Numbers that rise are looked up in one walk over the set.
/// Contracts see the runs of the set.
#[derive(Drop)]
pub(crate) struct Ahead<'a, S: Spans> {
    set: Option<&'a S>,
    window: Window,
}

impl<'a, S: Spans> Model for Ahead<'a, S> {
    ghost use Rattle.std.specs.Prelude.{List};
    ghost use Rattle.serial_set.specs.declared.span.Span.{Span};
    ghost use Rattle.list_diff.specs.Ahead.{IsWindow, spans_in};

    ghost Value = { List Span };

    ghost view = { λ ahead. spans_in S.spans ahead.set };

    ghost invariant = { λ ahead. IsWindow (spans_in S.spans ahead.set) ahead.window };
}

impl<'a, S: Spans> Ahead<'a, S> {
    ghost use Rattle.list_diff.specs.Ahead.{IsFirstFrom, spans_in};

    /// A search in a set that begins at 0.
    pub(crate) fn new(set: Option<&'a S>) -> Ahead<'a, S>
        ensures { result ≡ spans_in S.spans set.entry }
    {
        let piece = Piece::none();
        let window = Window {
            from: 0,
            piece,
            at: 0,
        };
        Ahead { set, window }
    }

    /// The first run of the members from a number on.
    pub(crate) fn first_from(&mut self, number: u64) -> Option<Span>
        ensures same { self.new ≡ self.old }
        ensures first { IsFirstFrom self.old number result }
    {
        let set = self.set?;
        if let Some(run) = self.window.first_from(number) {
            return Some(run);
        }
        let piece = set.piece_from(number);
        let first = run_at(piece.as_slice(), 0);
        self.window = Window {
            from: number,
            piece,
            at: 0,
        };
        first
    }
}
