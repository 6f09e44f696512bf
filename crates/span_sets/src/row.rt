//! Inserting elements into a vector, and removing them.
ghost use Rattle.std.specs.Prelude.{◌≡◌, ◌+◌, ◌<◌, ◌≤◌, List, [], ◌∷◌, ◌++◌, length, take, drop};
ghost use Rattle.std.specs.Prelude.{is_ok, if◌then◌else◌, IsOk};
ghost use Rattle.std.specs.List.{insert};
ghost use Rattle.std.specs.Vec.{vec_len, vec_capacity};

use std::alloc::AllocError;

/// Does what `insert` does, but moves all elements after the position at once: LLVM makes no single
/// move of `insert` at a position that it does not know.
pub fn insert_at<T: Drop>(items: &mut Vec<T>, at: usize, new: T) -> Result<(), AllocError>
    requires { at ≤ length items.old.items }
    ensures items { items.new.items
        ≡ (if is_ok result then insert items.old.items at new else items.old.items) }
    ensures succeeds { vec_len items.old < vec_capacity items.old → IsOk result }
{
    items.push(new)?;
    move_last(items, at);
    Ok(())
}

// Moves the last element of a slice to a position, and those from there on by one.
fn move_last<T>(row: &mut [T], at: usize)
    requires { at < length row.old }
    ensures { (xs : List T) → (x : T) → row.old ≡ xs ++ x ∷ [] → row.new ≡ insert xs at x }
{
    row[at..].rotate_right(1);
}

/// Removes `count` elements, from `from` on.
pub fn remove<T: Drop>(items: &mut Vec<T>, from: usize, count: usize)
    requires { from + count ≤ vec_len items.old }
    ensures { items.new.items
        ≡ take from items.old.items ++ drop count (drop from items.old.items) }
{
    items.drain(from..from + count);
}
