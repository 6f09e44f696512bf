//! Laws of points. Each function does nothing: its contract is the law.

ghost use Rattle.std.specs.Prelude.{◌≡◌, ◌↔◌, ℕ, true};
ghost use Rattle.curve_points.specs.Curves.{IsOnCurve, IsUsual, is_on, is_usual};
ghost use Rattle.curve_points.specs.declared.curve.Curve.{Curve as CurveOf};

/// The tests of the definitions decide what the relations say.
pub fn points_are_decided()
    ensures on { (curve : CurveOf) (x y : ℕ) → (is_on curve x y ≡ true) ↔ IsOnCurve curve x y }
    ensures usual { (curve : CurveOf) (n : ℕ) → (is_usual curve n ≡ true) ↔ IsUsual curve n }
{}
