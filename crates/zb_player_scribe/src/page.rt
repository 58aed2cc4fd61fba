//! The page that the lines of a run are printed on, until they are handed out.
ghost use Rattle.std.specs.Prelude.{◌≡◌, [], Some, None, OnOk, OnErr};
ghost use Rattle.std.specs.Io.KnownBytes.{append_known};
ghost use Rattle.zb_base.specs.Outside.{HasCause};
ghost use Rattle.zb_player_scribe.specs.Pages.{cleared, Takes, TakesFront};
ghost use Rattle.zb_trace.specs.Text.{text};

use std::alloc::{AllocError, Global};
use std::marker::Model;
use zb_base::{Failed, Sink};
use zb_text::page::hand_out;
use zb_trace::{Line, put_line};

/// The text of the lines that aren't handed out yet, or no text where nobody reads it.
///
/// Contracts see that text, and `None` of a page that nobody reads.
#[derive(Drop)]
pub struct Page {
    // No text, where nobody reads it.
    text: Option<Vec<u8>>,
}

impl Model for Page {
    ghost use Rattle.std.specs.Prelude.{ℕ, List, Option, option_map};

    ghost Value = { Option (List ℕ) };

    ghost view = { λ p. option_map (λ text. text.items) p.text };
}

impl Page {
    /// Makes an empty page that is read.
    pub fn new(alloc: Global) -> Page
        ensures { result ≡ Some [] }
    {
        Page {
            text: Some(Vec::new(alloc)),
        }
    }

    /// Makes a page that nobody reads. It takes no memory, and no time for printing.
    pub fn unread() -> Page
        ensures { result ≡ None }
    {
        Page { text: None }
    }

    /// Prints a line after what stands on the page, where it is read.
    ///
    /// # Errors
    /// `AllocError`, after which the page isn't used further.
    pub fn print(&mut self, line: &Line) -> Result<(), AllocError>
        ensures { OnOk result (self.new ≡ append_known self.old (text line.now)) }
    {
        match &mut self.text {
            Some(text) => put_line(text, line),
            None => Ok(()),
        }
    }

    /// Hands the text out into a sink, and empties the page.
    ///
    /// A page that nobody reads hands nothing out.
    ///
    /// # Errors
    /// `Failed`, after which the page is as it was.
    pub fn hand_out<W: Sink>(&mut self, out: &mut W) -> Result<(), Failed>
        ensures whole { OnOk result (Takes self.old (W.taken out.old) (W.taken out.new)
            × (self.new ≡ cleared self.old)) }
        ensures front { OnErr result (TakesFront self.old (W.taken out.old) (W.taken out.new)
            × (self.new ≡ self.old)) }
        ensures cause { HasCause (W.faults out.old) (W.faults out.new) result }
    {
        match &mut self.text {
            Some(text) => hand_out(text, out),
            None => Ok(()),
        }
    }
}
