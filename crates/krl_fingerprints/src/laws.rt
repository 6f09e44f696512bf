//! Laws of lists by fingerprints. Each function does nothing: its contract is the law.

ghost use Rattle.std.specs.Prelude.{◌↔◌, List};
ghost use Rattle.krl_types.specs.Entry.{Entry};
ghost use Rattle.krl_types.specs.Naming.{Name, NamesSame, SomeNames};
ghost use Rattle.krl_fingerprints.specs.Printed.{PrintsTo, printed};

/// A list by fingerprints names exactly the fingerprints of what the list names.
pub fn fingerprints_are_named()
    ensures { (entries : List Entry) (name : Name)
        → SomeNames (printed entries) name ↔ PrintsTo (SomeNames entries) name }
{}

/// Lists that name the same do so by fingerprints, too.
pub fn same_names_have_the_same_fingerprints()
    ensures { (entries others : List Entry) → NamesSame entries others
        → NamesSame (printed entries) (printed others) }
{}
