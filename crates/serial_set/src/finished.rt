//! The runs that a byte of a bitmap finishes.
ghost use Rattle.std.specs.Prelude.{◌≡◌, ◌≤◌, ◌<◌, ◌+◌, ◌++◌, [], ◌∷◌};

use crate::span::Span;

/// The runs that a byte of a bitmap finished: the first `count` of `spans`, highest first.
#[derive(Clone, Copy)]
pub struct Finished {
    /// Only the first `count` are valid.
    pub spans: [Span; 4],
    /// How many runs are finished, at most four.
    pub count: u8,
    pub ghost within: { count ≤ 4 },
}

impl Finished {
    ghost use Rattle.serial_set.specs.Finished.{finished_of};

    // No runs.
    pub(crate) fn none() -> Finished
        ensures spans { finished_of result ≡ [] }
        ensures count { result.count ≡ 0 }
    {
        Finished {
            spans: [Span { lo: 0, hi: 0 }; 4],
            count: 0,
        }
    }

    // Appends a run.
    pub(crate) fn push(&mut self, span: Span)
        requires { self.old.count < 4 }
        ensures spans { finished_of self.new ≡ finished_of self.old ++ span ∷ [] }
        ensures count { self.new.count ≡ self.old.count + 1 }
    {
        self.spans[usize::from(self.count)] = span;
        self.count += 1;
    }

    /// The finished runs, highest first.
    pub fn as_slice(&self) -> &[Span]
        ensures { result.now ≡ finished_of self.now }
    {
        &self.spans[..usize::from(self.count)]
    }
}
