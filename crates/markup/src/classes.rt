//! The classes by which the style of a page knows its elements.

ghost use Rattle.std.specs.Prelude.{◌≡◌};
ghost use Rattle.markup.specs.Classes as specs;

/// A class of an element. No other exists, so no text becomes one.
#[derive(Clone, Copy)]
pub enum Class {
    Act,
    Axis,
    Bad,
    Band,
    Course,
    Facts,
    Findings,
    Limit,
    Load,
    Look,
    Muted,
    Name,
    Number,
    Others,
    Strip,
    Version1,
    Version2,
    Version3,
    Version4,
    Version5,
    Well,
    Wide,
}

impl Class {
    /// Its name in a file.
    pub(crate) fn name(self) -> &'static str
        ensures { result.now ≡ specs.class_name self }
    {
        match self {
            Class::Act => "act",
            Class::Axis => "axis",
            Class::Bad => "bad",
            Class::Band => "band",
            Class::Course => "course",
            Class::Facts => "facts",
            Class::Findings => "findings",
            Class::Limit => "limit",
            Class::Load => "load",
            Class::Look => "look",
            Class::Muted => "muted",
            Class::Name => "name",
            Class::Number => "number",
            Class::Others => "v0",
            Class::Strip => "strip",
            Class::Version1 => "v1",
            Class::Version2 => "v2",
            Class::Version3 => "v3",
            Class::Version4 => "v4",
            Class::Version5 => "v5",
            Class::Well => "well",
            Class::Wide => "wide",
        }
    }
}
