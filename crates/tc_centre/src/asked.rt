//! The words that ask for a text in place of a session.
ghost use Rattle.std.specs.Prelude.{◌≡◌};
ghost use Rattle.tc_centre.specs.Asking.{IsTextOf, asked_by};

/// The name of the program and its version.
const VERSION: &str = "tc_centre 0.9.0";

/// The words of the command line, and what a session is.
pub(crate) const USAGE: &str = "\
usage: tc_centre PATH < LINES > ANSWERS
  a living trust centre over its store in the file PATH, which `tc admin PATH` makes
  first `centre NAME EUI OUT IN`, `peer NAME ROLE EUI SHORT` .., `open`, then an event a line: docs/FORMATS.md
       tc_centre --version | --help
  writes the version or this text; a file of such a name is ./--version or ./--help";

/// A text that a word asks for.
#[derive(Clone, Copy, Debug, PartialEq, Eq)]
pub(crate) enum Asked {
    /// The name of the program and its version.
    Version,
    /// How the program is called.
    Usage,
}

impl Asked {
    /// Returns the text, without a line feed at its end.
    pub fn text(&self) -> &'static str
        ensures { IsTextOf self.now result.now }
    {
        match self {
            Asked::Version => VERSION,
            Asked::Usage => USAGE,
        }
    }
}

/// Returns the text that the only word of the process asks for, if it isn't the path of a store.
pub(crate) fn asked_by(word: &str) -> Option<Asked>
    ensures { result ≡ asked_by word.now }
{
    if word == "--version" {
        Some(Asked::Version)
    } else if word == "--help" {
        Some(Asked::Usage)
    } else {
        None
    }
}
