//! A law of the entries of fields. The function does nothing: its contract is the law.

ghost use Rattle.std.specs.Prelude.{◌≤◌, ◌*◌, ℕ, List, length};
ghost use Rattle.ssh_wire.specs.Wire.{IsBytes};
ghost use Rattle.std.specs.List.{concat};
ghost use Rattle.krl_entries.specs.Revocations.{Revocations, Means, held};
ghost use Rattle.krl_format.specs.Front.{State, IsFront};

/// The entries of the fields of a front have at most four intervals of serial numbers for each byte
/// of the front, summed over the authorities. If a bitmap is read in part, the bits that were read
/// count too.
pub fn four_intervals_a_byte()
    ensures { (text : List ℕ) (fields : List (List ℕ)) (state : State) (rest : List ℕ)
        (r : Revocations)
        → IsBytes text → IsFront text fields state rest → Means r state.entries
        → held r ≤ 4 * length (concat fields) }
{}
