//! Laws about every line of a specification file, each as the contract of a function that does
//! nothing.

ghost use Rattle.std.specs.Prelude.{◌≡◌, ◌↔◌, ℕ, List, Some};
ghost use Rattle.krl_spec.specs.Blanks.{bare_line};
ghost use Rattle.krl_spec.specs.Directive.{order, order_in};
ghost use Rattle.krl_spec.specs.Number.{bounds_of_text, number_of_text};
ghost use Rattle.krl_spec.specs.Spelled.{AreBounds, Counts, IsNumber, IsOrder};
ghost use Rattle.krl_spec.specs.declared.directive.Directive.{Directive};
ghost use Rattle.krl_spec.specs.declared.number.Bounds.{Bounds};

/// The content of a line is read exactly as it is spelled.
pub fn counted_where_spelled()
    ensures { (line text : List ℕ) → (bare_line line ≡ text) ↔ Counts line text }
{}

/// A number is read exactly where the text spells it.
pub fn number_where_spelled()
    ensures { (text : List ℕ) (n : ℕ) → (number_of_text text ≡ Some n) ↔ IsNumber text n }
{}

/// One number, or two, are read exactly where the text spells them.
pub fn bounds_where_spelled()
    ensures { (text : List ℕ) (bounds : Bounds)
        → (bounds_of_text text ≡ Some bounds) ↔ AreBounds text bounds.lo bounds.hi }
{}

/// A directive and its argument are read exactly where the text spells them.
pub fn order_where_spelled()
    ensures { (text : List ℕ) (directive : Directive) (given : List ℕ)
        → (order_in text ≡ Some (order given directive)) ↔ IsOrder text directive given }
{}
