//! Laws that hold for every line, each the contract of a function that does nothing. `Places`
//! returns the places of `places_of`.

ghost use Rattle.std.specs.Prelude.{◌≡◌, ℕ, List, Some, Contains, map};
ghost use Rattle.std.specs.List.Sorted.{IsStrictlyIncreasing};
ghost use Rattle.ssh_wire.specs.Wire.{BeginsWith};
ghost use Rattle.key_places.specs.Place.{IsPlace, KeyPlace};
ghost use Rattle.key_places.specs.Reading.{places_of};

/// Each place that is read is one of the line, and each place of the line is read.
pub fn places_are_those_of_the_line()
    ensures found { (line : List ℕ) (place : KeyPlace) → Contains (places_of line) place
        → IsPlace line place }
    ensures all { (line : List ℕ) (place : KeyPlace) → IsPlace line place
        → Contains (places_of line) place }
{}

/// The places of a line are in the order of their columns, and no column has two.
pub fn columns_increase()
    ensures { (line : List ℕ)
        → IsStrictlyIncreasing (map (λ place. place.column) (places_of line)) }
{}

/// The blob of a place begins with the string of the name.
pub fn blobs_begin_with_their_name()
    ensures { (line blob : List ℕ) (place : KeyPlace) → IsPlace line place
        → place.blob ≡ Some blob → BeginsWith blob place.name }
{}
