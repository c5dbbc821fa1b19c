//! A picture, or the content of a page, that is written element by element.

ghost use Rattle.std.specs.Prelude.{◌≡◌, ◌++◌, IfOk, string_bytes};
ghost use Rattle.markup.specs.WellFormed as specs;

use crate::classes::Class;
use crate::names::{Attribute, Tag};
use crate::pieces::{
    is_given, push_attribute, push_closing, push_content, push_line_end, push_opening,
    push_opening_as, root_opening,
};
use std::alloc::{AllocError, Global};
use std::fmt::Display;
use std::marker::Model;

/// The width of a picture in pixels.
const WIDTH: u64 = 880;

/// What is written: a file with the root `svg`, or what a page has in its `body`.
#[derive(Clone, Copy)]
pub enum Kind {
    Picture,
    Content,
}

/// A text of markup that is being written: each element is opened, gets its attributes and then its
/// content, and is closed. Whatever is called, the text is a prefix of a well-formed one. If an
/// allocation fails, or a call is out of place, writing has failed, and the last call reports it.
#[derive(Drop)]
pub struct Document {
    kind: Kind,
    text: String,
    /// The open elements, the innermost last; a picture's root isn't among them.
    tags: Vec<Tag>,
    /// The attributes of the last start tag, and whether it can get more.
    given: Vec<Attribute>,
    in_tag: bool,
    failed: bool,
}

impl Model for Document {
    ghost use Rattle.std.specs.Prelude.{Bool, string_bytes};
    ghost use Rattle.markup.specs.WellFormed.{IsWritten};

    ghost Value = { Bool };

    ghost view = { λ d. d.failed };

    ghost invariant = { λ d.
        IsWritten d.failed d.kind d.tags.items d.given.items d.in_tag (string_bytes d.text) };
}

impl Document {
    /// A picture 880 pixels wide and `height` pixels high, with a white background.
    // open: whether an allocation fails; what is written.
    pub fn picture(alloc: Global, height: u64) -> Result<Document, AllocError> {
        let mut picture = Document::root(alloc)?;
        picture.attribute(Attribute::Width, WIDTH);
        picture.attribute(Attribute::Height, height);
        picture.attribute(Attribute::FontFamily, "sans-serif");
        picture.attribute(Attribute::FontSize, "14");
        picture.line();
        picture.open(Tag::Rect);
        picture.attribute(Attribute::Width, WIDTH);
        picture.attribute(Attribute::Height, height);
        picture.attribute(Attribute::Fill, "rgb(255,255,255)");
        picture.close();
        picture.line();
        Ok(picture)
    }

    /// The content of a page, which is empty so far.
    // open: what is written.
    pub fn content(alloc: Global) -> Document {
        Document {
            kind: Kind::Content,
            text: String::new(alloc),
            tags: Vec::new(alloc),
            given: Vec::new(alloc),
            in_tag: false,
            failed: false,
        }
    }

    // The root's start tag, before its attributes.
    #[tactic(auto, using(crate::proofs::Steps::rooted))]
    fn root(alloc: Global) -> Result<Document, AllocError> {
        let text = String::from_str(alloc, root_opening())?;
        let mut given = Vec::new(alloc);
        given.push(Attribute::Xmlns)?;
        Ok(Document {
            kind: Kind::Picture,
            text,
            tags: Vec::new(alloc),
            given,
            in_tag: true,
            failed: false,
        })
    }

    /// Opens an element in the content of the innermost one.
    // open: what is written.
    pub fn open(&mut self, tag: Tag) {
        let _opened = self.try_open(tag);
    }

    /// Opens an element of a class.
    // open: what is written.
    pub fn open_as(&mut self, tag: Tag, class: Class) {
        let _opened = self.try_open_as(tag, class);
    }

    /// Gives the element that was opened last an attribute, before its content, and only once. The
    /// value's markup is escaped.
    // open: what is written.
    pub fn attribute<T: Display + Drop>(&mut self, attribute: Attribute, value: T) {
        let _given = self.try_attribute(attribute, value);
    }

    /// Adds text to the innermost element. Its markup is escaped.
    // open: what is written.
    pub fn text<T: Display + Drop>(&mut self, value: T) {
        let _added = self.try_text(value);
    }

    /// Adds a line feed to the innermost element.
    // open: what is written.
    pub fn line(&mut self) {
        let _ended = self.try_line();
    }

    /// Closes the innermost element.
    // open: what is written.
    pub fn close(&mut self) {
        let _closed = self.try_close();
    }

    /// The whole file of a picture. Returns `AllocError` if an allocation has failed, if a call was
    /// out of place, if an element is open, or if this is the content of a page.
    // open: when it fails; that the text is what was written.
    pub fn finish(self) -> Result<String, AllocError>
        ensures { IfOk result (λ text. specs.IsDocument (string_bytes text)) }
    {
        let EndedText { kind, mut text } = self.end()?;
        match kind {
            Kind::Picture => {
                text.push_str("</svg>\n")?;
                Ok(text)
            }
            Kind::Content => Err(AllocError),
        }
    }

    /// The whole content of a page. Returns `AllocError` as `finish` does, and if this is a
    /// picture.
    // open: when it fails; that the text is what was written.
    pub fn finish_content(self) -> Result<String, AllocError>
        ensures { IfOk result (λ text. specs.IsContent (string_bytes text)) }
    {
        let EndedText { kind, text } = self.end()?;
        match kind {
            Kind::Content => Ok(text),
            Kind::Picture => Err(AllocError),
        }
    }

    // What was written, if no element is open.
    fn end(self) -> Result<EndedText, AllocError>
        ensures { IfOk result (λ ended. specs.IsEnded ended.kind (string_bytes ended.text)) }
    {
        let Document {
            kind,
            text,
            tags,
            given: _given,
            in_tag,
            failed,
        } = self;
        if failed || in_tag || !tags.is_empty() {
            return Err(AllocError);
        }
        Ok(EndedText { kind, text })
    }

    // ---- each step; writing has failed unless it succeeds

    #[tactic(auto, using(crate::proofs::Steps::opened))]
    fn try_open(&mut self, tag: Tag) -> Result<(), AllocError> {
        let failed = self.failed;
        self.failed = true;
        push_opening(&mut self.text, self.in_tag, tag)?;
        self.tags.push(tag)?;
        self.given.clear();
        self.in_tag = true;
        self.failed = failed;
        Ok(())
    }

    #[tactic(auto, using(crate::proofs::Steps::opened_as))]
    fn try_open_as(&mut self, tag: Tag, class: Class) -> Result<(), AllocError> {
        let failed = self.failed;
        self.failed = true;
        push_opening_as(&mut self.text, self.in_tag, tag, class)?;
        self.tags.push(tag)?;
        self.given.clear();
        self.in_tag = true;
        self.failed = failed;
        Ok(())
    }

    #[tactic(auto, using(crate::proofs::Steps::given_one))]
    fn try_attribute<T: Display + Drop>(
        &mut self,
        attribute: Attribute,
        value: T,
    ) -> Result<(), AllocError> {
        let failed = self.failed;
        self.failed = true;
        if !self.in_tag || is_given(&self.given, attribute) {
            // no caller does that
            return Err(AllocError);
        }
        let value = format!(in *self.text.allocator(); "{value}")?;
        push_attribute(&mut self.text, attribute, value.as_str())?;
        self.given.push(attribute)?;
        self.failed = failed;
        Ok(())
    }

    #[tactic(auto, using(crate::proofs::Steps::text_written))]
    fn try_text<T: Display + Drop>(&mut self, value: T) -> Result<(), AllocError> {
        let failed = self.failed;
        self.failed = true;
        let value = format!(in *self.text.allocator(); "{value}")?;
        push_content(&mut self.text, self.in_tag, value.as_str())?;
        self.in_tag = false;
        self.failed = failed;
        Ok(())
    }

    #[tactic(auto, using(crate::proofs::Steps::broken))]
    fn try_line(&mut self) -> Result<(), AllocError> {
        let failed = self.failed;
        self.failed = true;
        push_line_end(&mut self.text, self.in_tag)?;
        self.in_tag = false;
        self.failed = failed;
        Ok(())
    }

    #[tactic(auto, using(crate::proofs::Steps::closed))]
    fn try_close(&mut self) -> Result<(), AllocError> {
        let failed = self.failed;
        self.failed = true;
        let Some(tag) = self.tags.pop() else {
            // no caller does that
            return Err(AllocError);
        };
        push_closing(&mut self.text, self.in_tag, tag)?;
        self.in_tag = false;
        self.failed = failed;
        Ok(())
    }
}

// A text without open elements.
#[derive(Drop)]
struct EndedText {
    kind: Kind,
    text: String,
}
