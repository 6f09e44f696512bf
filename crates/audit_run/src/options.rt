//! Which findings are printed, and how, by the options of the command.

ghost use Rattle.std.specs.Prelude.{◌≡◌};
ghost use Rattle.audit_run.specs.Options.{form_by, has_colours, shown_by};

use audit_text::Format;
use krl_audit::Shown;

/// The options of the command that say which findings are printed, and how.
#[derive(Clone, Copy)]
pub struct Options<'l> {
    /// True if nothing is printed on standard output.
    pub quiet: bool,
    /// True if keys that are not revoked are printed too.
    pub all: bool,
    /// True if findings are printed as JSON objects.
    pub json: bool,
    /// True if standard output shows colours.
    pub colours: bool,
    /// The text before the name of each finding.
    pub label: Option<&'l str>,
}

/// The facts about standard output and the environment.
#[derive(Clone, Copy)]
pub struct Terminal {
    /// True if standard output is a terminal.
    pub is_terminal: bool,
    /// True if `NO_COLOR` has a value that is not empty.
    pub no_colour: bool,
    /// True if `TERM` is `dumb`.
    pub is_dumb: bool,
}

impl Terminal {
    /// Whether standard output shows colours: it is a terminal that knows them, and the user has
    /// not switched them off (https://no-color.org).
    pub fn has_colours(self) -> bool
        ensures { result ≡ has_colours self }
    {
        self.is_terminal && !self.no_colour && !self.is_dumb
    }
}

impl<'l> Options<'l> {
    /// Which findings are printed, and how.
    pub fn shown(self) -> Shown<'l>
        ensures { result ≡ shown_by self.entry }
    {
        Shown {
            label: self.label,
            revoked: !self.quiet,
            unread: !self.quiet,
            fine: self.all && !self.quiet,
            format: form_by(self.json, self.colours),
        }
    }
}

// The format of the findings. No object is in colour, since programs read them.
fn form_by(json: bool, colours: bool) -> Format
    ensures { result ≡ form_by json colours }
{
    match (json, colours) {
        (true, _) => Format::Json,
        (false, true) => Format::Colour,
        (false, false) => Format::Text,
    }
}
