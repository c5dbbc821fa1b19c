//! The words of the grammar. Flags and attributes have their names in `attrs`.

ghost use Rattle.std.specs.Prelude.{◌≡◌};
ghost use Rattle.std.specs.Str.{bytes_eq};
ghost use Rattle.std.specs.List.{find};
ghost use Rattle.rule_lang.specs.Words as words;

/// A word of the grammar.
#[derive(Clone, Copy, PartialEq, Eq)]
pub enum Keyword {
    Otherwise,
    None,
    Count,
    When,
    Offer,
    Or,
    And,
    Not,
    Version,
    Bucket,
    Today,
    Installed,
    Flag,
    Attr,
    Is,
    Take,
}

/// Every word of the grammar, once.
pub static KEYWORDS: [Keyword; 16] = [
    Keyword::Otherwise,
    Keyword::None,
    Keyword::Count,
    Keyword::When,
    Keyword::Offer,
    Keyword::Or,
    Keyword::And,
    Keyword::Not,
    Keyword::Version,
    Keyword::Bucket,
    Keyword::Today,
    Keyword::Installed,
    Keyword::Flag,
    Keyword::Attr,
    Keyword::Is,
    Keyword::Take,
];

fn keyword_text(keyword: Keyword) -> &'static str
    ensures { result.now ≡ words.keyword_text keyword }
{
    match keyword {
        Keyword::Otherwise => "otherwise",
        Keyword::None => "none",
        Keyword::Count => "count",
        Keyword::When => "when",
        Keyword::Offer => "offer",
        Keyword::Or => "or",
        Keyword::And => "and",
        Keyword::Not => "not",
        Keyword::Version => "version",
        Keyword::Bucket => "bucket",
        Keyword::Today => "today",
        Keyword::Installed => "installed",
        Keyword::Flag => "flag",
        Keyword::Attr => "attr",
        Keyword::Is => "is",
        Keyword::Take => "take",
    }
}

/// Whether a name is the word before a modulus.
pub fn is_modulus_word(name: &str) -> bool
    ensures { result ≡ bytes_eq name.now words.modulus_word }
{
    name == "mod"
}

fn is_keyword(word: &str, keyword: Keyword) -> bool
    ensures { result ≡ bytes_eq word.now (words.keyword_text keyword) }
{
    word == keyword_text(keyword)
}

fn find_keyword(table: &[Keyword], word: &str) -> Option<Keyword>
    ensures { result ≡ find (λ k. bytes_eq word.now (words.keyword_text k)) table.now }
{
    table.iter().copied().find(|k| is_keyword(word, *k))
}

/// The word of the grammar with this text.
#[tactic(auto, unfolding(crate::specs::Words::keyword_named))]
pub fn keyword_named(word: &str) -> Option<Keyword>
    ensures { result ≡ words.keyword_named word.now }
{
    find_keyword(&KEYWORDS, word)
}
