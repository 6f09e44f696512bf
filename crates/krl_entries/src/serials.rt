//! An iterator over the runs of a set of serials.
ghost use Rattle.std.specs.Prelude.{◌≡◌, []};

use serial_set::{Piece, Span, Spans};
use std::marker::Model;

// An iterator over the runs of a set of serials. Contracts see the list of those that are left.
#[derive(Drop)]
pub(crate) struct Serials<'a, S: Spans> {
    // Some consecutive runs, and how many of them were returned.
    piece: Piece,
    returned: usize,
    // The set, and the number from which its runs after the piece are left.
    set: Option<&'a S>,
    next: Option<u64>,
}

impl<'a, S: Spans> Model for Serials<'a, S> {
    ghost use Rattle.std.specs.Prelude.{◌++◌, List, drop};
    ghost use Rattle.serial_set.specs.Iteration.{left, piece_of};
    ghost use Rattle.serial_set.specs.declared.span.Span.{Span};
    ghost use Rattle.krl_entries.specs.Serials.{runs_in};

    ghost Value = { List Span };

    ghost view = { λ runs. drop runs.returned (piece_of runs.piece)
        ++ left runs.next (runs_in S.spans runs.set) };
}

impl<'a, S: Spans> Serials<'a, S> {
    // No runs.
    pub(crate) fn none() -> Serials<'a, S>
        ensures { result ≡ [] }
    {
        Serials {
            piece: Piece::none(),
            returned: 0,
            set: None,
            next: None,
        }
    }

    // An iterator over the runs of a set.
    pub(crate) fn of(set: &'a S) -> Serials<'a, S>
        ensures { result ≡ S.spans set.now }
    {
        Serials {
            piece: Piece::none(),
            returned: 0,
            set: Some(set),
            next: Some(0),
        }
    }
}

impl<'a, S: Spans> Iterator for Serials<'a, S> {
    ghost use Rattle.std.specs.Iterator.{YieldsFirst, item_count};

    type Item = Span;

    ghost next_gives = { YieldsFirst (λ runs. runs) };

    ghost remaining = { item_count (λ runs. runs) };

    fn next(&mut self) -> Option<Span> {
        if let Some(span) = self.piece.as_slice().get(self.returned) {
            let span = *span;
            self.returned += 1;
            return Some(span);
        }
        let set = self.set?;
        let number = self.next?;
        self.piece = set.piece_from(number);
        self.next = self.piece.next();
        self.returned = 1;
        let first = self.piece.as_slice().first()?;
        Some(*first)
    }
}
