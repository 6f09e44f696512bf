//! The laws of lines. The functions do nothing: their contracts are the laws.

ghost use Rattle.std.specs.Prelude.{◌≤◌};
ghost use Rattle.json.specs.Json.{Json, max_depth};
ghost use Rattle.json.specs.Tree.{depth};
ghost use Rattle.json_lines.specs.Controls.{HasNoControls};
ghost use Rattle.json_lines.specs.Field.{json_text};
ghost use Rattle.json_lines.specs.ReadBack.{HasCounts, IsReadBack};

/// A value whose numbers are counts is one line, which a reader reads as exactly this value.
pub fn lines_are_read_back()
    ensures { (value : Json) → HasCounts value → depth value ≤ max_depth → IsReadBack value }
{}

/// The text of a value has neither DEL nor a character from U+0080 to U+009F, and none of Unicode's
/// bidirectional controls and line separators.
pub fn texts_have_no_controls()
    ensures { (value : Json) → HasNoControls (json_text value) }
{}
