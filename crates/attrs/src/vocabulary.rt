//! The flags of a context and the texts of an app, a row each: a flag's name and bit, an
//! attribute's name and number.

ghost use Rattle.std.specs.Prelude.{◌≡◌};
ghost use Rattle.std.specs.Str.{bytes_eq};
ghost use Rattle.std.specs.List.{find};
ghost use Rattle.attrs.specs.Vocabulary as words;

use crate::context::Context;

/// A flag of an app's context.
#[derive(Clone, Copy, PartialEq, Eq)]
pub enum Flag {
    VersionKnown,
    Updatecheck,
    Ping,
    Event,
    CohortKnown,
    InstalldateKnown,
}

/// A text of an app.
#[derive(Clone, Copy, PartialEq, Eq)]
pub enum Attribute {
    Appid,
    Version,
    Brand,
    Ap,
    Lang,
    Cohort,
    Platform,
}

/// Every flag once.
static FLAGS: [Flag; 6] = [
    Flag::VersionKnown,
    Flag::Updatecheck,
    Flag::Ping,
    Flag::Event,
    Flag::CohortKnown,
    Flag::InstalldateKnown,
];

/// Every attribute once.
static ATTRIBUTES: [Attribute; 7] = [
    Attribute::Appid,
    Attribute::Version,
    Attribute::Brand,
    Attribute::Ap,
    Attribute::Lang,
    Attribute::Cohort,
    Attribute::Platform,
];

impl Flag {
    /// Its bit in the context's flags.
    pub fn bit(self) -> u8
        ensures { result ≡ words.flag_bit self }
    {
        match self {
            Flag::VersionKnown => Context::VERSION_KNOWN,
            Flag::Updatecheck => Context::UPDATECHECK,
            Flag::Ping => Context::PING,
            Flag::Event => Context::EVENT,
            Flag::CohortKnown => Context::COHORT_KNOWN,
            Flag::InstalldateKnown => Context::INSTALLDATE_KNOWN,
        }
    }

    /// Its name in a rule.
    pub fn text(self) -> &'static str
        ensures { result.now ≡ words.flag_text self }
    {
        match self {
            Flag::VersionKnown => "version_known",
            Flag::Updatecheck => "updatecheck",
            Flag::Ping => "ping",
            Flag::Event => "event",
            Flag::CohortKnown => "cohort_known",
            Flag::InstalldateKnown => "installdate_known",
        }
    }
}

impl Attribute {
    /// Its number in a helper's arguments.
    pub fn number(self) -> u8
        ensures { result ≡ words.attribute_number self }
    {
        match self {
            Attribute::Appid => 0,
            Attribute::Version => 1,
            Attribute::Brand => 2,
            Attribute::Ap => 3,
            Attribute::Lang => 4,
            Attribute::Cohort => 5,
            Attribute::Platform => 6,
        }
    }

    /// Its name in a rule.
    pub fn text(self) -> &'static str
        ensures { result.now ≡ words.attribute_text self }
    {
        match self {
            Attribute::Appid => "appid",
            Attribute::Version => "version",
            Attribute::Brand => "brand",
            Attribute::Ap => "ap",
            Attribute::Lang => "lang",
            Attribute::Cohort => "cohort",
            Attribute::Platform => "platform",
        }
    }
}

fn is_flag(word: &str, flag: Flag) -> bool
    ensures { result ≡ bytes_eq word.now (words.flag_text flag) }
{
    word == flag.text()
}

fn is_attribute(word: &str, attribute: Attribute) -> bool
    ensures { result ≡ bytes_eq word.now (words.attribute_text attribute) }
{
    word == attribute.text()
}

fn find_flag(table: &[Flag], word: &str) -> Option<Flag>
    ensures { result ≡ find (λ f. bytes_eq word.now (words.flag_text f)) table.now }
{
    table.iter().copied().find(|f| is_flag(word, *f))
}

fn find_attribute(table: &[Attribute], word: &str) -> Option<Attribute>
    ensures { result ≡ find (λ a. bytes_eq word.now (words.attribute_text a)) table.now }
{
    table.iter().copied().find(|a| is_attribute(word, *a))
}

/// The flag of a name.
#[tactic(auto, unfolding(crate::specs::Vocabulary::flag_named))]
pub fn flag_named(word: &str) -> Option<Flag>
    ensures { result ≡ words.flag_named word.now }
{
    find_flag(&FLAGS, word)
}

/// The attribute of a name.
#[tactic(auto, unfolding(crate::specs::Vocabulary::attribute_named))]
pub fn attribute_named(word: &str) -> Option<Attribute>
    ensures { result ≡ words.attribute_named word.now }
{
    find_attribute(&ATTRIBUTES, word)
}
