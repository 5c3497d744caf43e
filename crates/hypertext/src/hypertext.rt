//! A document in HTML.
ghost use Rattle.std.specs.Prelude.{◌≡◌, ◌++◌, IfSome, OnOk, [], string_bytes};
ghost use Rattle.std.specs.Fmt.{decimal};
ghost use Rattle.hypertext.specs.Escaping.{escaped};
ghost use Rattle.hypertext.specs.Segments.{segment};

use crate::escaping::push_escaped;
use crate::segments::push_segment;
use std::alloc::{AllocError, Global};
use std::marker::Model;

/// A document in HTML. Contracts see its bytes. Markup is the caller's own; texts and numbers from outside are shown by `text`,
/// `number` and `segment`.
#[derive(Drop)]
pub struct Hypertext {
    alloc: Global,
    bytes: Vec<u8>,
}

impl Model for Hypertext {
    ghost use Rattle.std.specs.Prelude.{List, ℕ};

    ghost Value = { List ℕ };

    ghost view = { λ h. h.bytes.items };
}

impl Hypertext {
    /// An empty one.
    pub fn new(alloc: Global) -> Hypertext
        ensures { result ≡ [] }
    {
        Hypertext {
            alloc,
            bytes: Vec::new(alloc),
        }
    }

    /// Markup as it stands. It is of the program's own texts, so that nothing from outside can be.
    pub fn markup(&mut self, markup: &'static str) -> Result<(), AllocError>
        ensures { OnOk result (self.new ≡ self.old ++ markup.now) }
    {
        self.bytes.extend_from_slice(markup.as_bytes())
    }

    /// A text, which is no markup whatever it has, in an element or in the quoted value of an attribute.
    pub fn text(&mut self, text: &str) -> Result<(), AllocError>
        ensures { OnOk result (self.new ≡ self.old ++ escaped text.now) }
    {
        push_escaped(&mut self.bytes, text.as_bytes())
    }

    /// A number in decimal digits.
    pub fn number(&mut self, number: u128) -> Result<(), AllocError>
        ensures { OnOk result (self.new ≡ self.old ++ decimal number) }
    {
        let digits = format!(in self.alloc; "{number}")?;
        self.bytes.extend_from_slice(digits.as_bytes())
    }

    /// One segment of the path of a link, or the value of a member of its query, whatever the text has.
    pub fn segment(&mut self, text: &str) -> Result<(), AllocError>
        ensures { OnOk result (self.new ≡ self.old ++ segment text.now) }
    {
        push_segment(&mut self.bytes, text.as_bytes())
    }

    /// The document, if it is UTF-8, as it is where all that was put in was.
    pub fn into_string(self) -> Option<String>
        ensures { IfSome result (λ text. string_bytes text ≡ self) }
    {
        String::from_utf8(self.bytes).ok()
    }
}
