//! The pieces of a file.

ghost use Rattle.std.specs.Prelude.{◌≡◌, ◌++◌, codes, OnOk};
ghost use Rattle.std.specs.Str.{bytes_eq};
ghost use Rattle.printing.specs.Pushed.{Puts};
ghost use Rattle.markup.specs.Names.{attribute_name};
ghost use Rattle.markup.specs.WellFormed as specs;
ghost use Rattle.markup.specs.Xml.{xml_text};

use crate::classes::Class;
use crate::names::{Attribute, Tag};
use crate::xml::push_xml;
use std::alloc::AllocError;

/// Whether a start tag with these attributes has one of this name.
pub(crate) fn is_given(given: &[Attribute], attribute: Attribute) -> bool
    ensures { result ≡ specs.is_given given.now attribute }
{
    given.iter().any(|other| is_same(*other, attribute))
}

fn is_same(attribute: Attribute, other: Attribute) -> bool
    ensures { result ≡ bytes_eq (attribute_name attribute) (attribute_name other) }
{
    attribute.name() == other.name()
}

/// The root's start tag before its other attributes.
#[tactic(auto, unfolding(crate::specs::WellFormed::root_opening))]
pub(crate) fn root_opening() -> &'static str
    ensures { result.now ≡ specs.root_opening }
{
    "<svg xmlns=\"http://www.w3.org/2000/svg\""
}

// The end of a start tag, unless that is written.
fn tag_end(in_tag: bool) -> &'static str
    ensures { result.now ≡ specs.tag_end in_tag }
{
    if in_tag { ">" } else { "" }
}

pub(crate) fn push_opening(text: &mut String, in_tag: bool, tag: Tag) -> Result<(), AllocError>
    ensures { OnOk result (Puts text.old text.new (specs.opening in_tag tag)) }
{
    text.push_str(tag_end(in_tag))?;
    text.push_str("<")?;
    text.push_str(tag.name())
}

pub(crate) fn push_opening_as(
    text: &mut String,
    in_tag: bool,
    tag: Tag,
    class: Class,
) -> Result<(), AllocError>
    ensures { OnOk result (Puts text.old text.new (specs.opening_as in_tag tag class)) }
{
    text.push_str(tag_end(in_tag))?;
    text.push_str("<")?;
    text.push_str(tag.name())?;
    text.push_str(" class=\"")?;
    text.push_str(class.name())?;
    text.push_str("\"")
}

pub(crate) fn push_attribute(
    text: &mut String,
    attribute: Attribute,
    value: &str,
) -> Result<(), AllocError>
    ensures { OnOk result (Puts text.old text.new (specs.attribute_text attribute value.now)) }
{
    text.push_str(" ")?;
    text.push_str(attribute.name())?;
    text.push_str("=\"")?;
    push_xml(text, value)?;
    text.push_str("\"")
}

pub(crate) fn push_content(text: &mut String, in_tag: bool, more: &str) -> Result<(), AllocError>
    ensures { OnOk result (Puts text.old text.new (specs.tag_end in_tag ++ xml_text more.now)) }
{
    text.push_str(tag_end(in_tag))?;
    push_xml(text, more)
}

pub(crate) fn push_line_end(text: &mut String, in_tag: bool) -> Result<(), AllocError>
    ensures { OnOk result (Puts text.old text.new (specs.tag_end in_tag ++ codes "\n")) }
{
    text.push_str(tag_end(in_tag))?;
    text.push_str("\n")
}

pub(crate) fn push_closing(text: &mut String, in_tag: bool, tag: Tag) -> Result<(), AllocError>
    ensures { OnOk result (Puts text.old text.new (specs.closing in_tag tag)) }
{
    if in_tag && tag.is_svg() {
        return text.push_str("/>");
    }
    text.push_str(tag_end(in_tag))?;
    text.push_str("</")?;
    text.push_str(tag.name())?;
    text.push_str(">")
}
