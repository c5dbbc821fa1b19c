//! The kinds of tests: the first word of each, and what follows it.

ghost use Rattle.std.specs.Prelude.{◌≡◌, ◌≤◌};
ghost use Rattle.rule_lang.specs.Named.{token_named};
ghost use Rattle.rule_lang.specs.Phrases.{fewest};
ghost use Rattle.rule_lang.specs.Tests as tests;

use crate::keyword::Keyword;
use crate::phrase::Want;
use crate::token::Token;

/// A kind of test, by its first word.
#[derive(Clone, Copy)]
pub enum TestKind {
    Version,
    Bucket,
    Today,
    Installed,
    Flag,
    Attr,
    Take,
}

static VERSION: [Want; 3] = [
    Want::Keyword(Keyword::Version),
    Want::Comparison,
    Want::Version,
];

static BUCKET: [Want; 5] = [
    Want::Keyword(Keyword::Bucket),
    Want::Salt,
    Want::Modulus,
    Want::Comparison,
    Want::Number,
];

static TODAY: [Want; 3] = [
    Want::Keyword(Keyword::Today),
    Want::Comparison,
    Want::Number,
];

static INSTALLED: [Want; 3] = [
    Want::Keyword(Keyword::Installed),
    Want::Comparison,
    Want::Number,
];

static FLAG: [Want; 2] = [Want::Keyword(Keyword::Flag), Want::Name];

static ATTR: [Want; 4] = [
    Want::Keyword(Keyword::Attr),
    Want::Attribute,
    Want::Keyword(Keyword::Is),
    Want::Text,
];

static TAKE: [Want; 6] = [
    Want::Keyword(Keyword::Take),
    Want::Open,
    Want::Name,
    Want::Comma,
    Want::Number,
    Want::Close,
];

/// The kind of test that begins with this token.
pub fn kind_of<'a>(first: Token<&'a str>) -> Option<TestKind>
    ensures { result ≡ tests.kind_of (token_named first.entry) }
{
    match first {
        Token::Keyword(Keyword::Version) => Some(TestKind::Version),
        Token::Keyword(Keyword::Bucket) => Some(TestKind::Bucket),
        Token::Keyword(Keyword::Today) => Some(TestKind::Today),
        Token::Keyword(Keyword::Installed) => Some(TestKind::Installed),
        Token::Keyword(Keyword::Flag) => Some(TestKind::Flag),
        Token::Keyword(Keyword::Attr) => Some(TestKind::Attr),
        Token::Keyword(Keyword::Take) => Some(TestKind::Take),
        _ => None,
    }
}

/// What the places of a test accept.
pub fn wants_of(kind: TestKind) -> &'static [Want]
    ensures wants { result.now ≡ tests.wants_of kind }
    ensures some { 1 ≤ fewest result.now }
{
    match kind {
        TestKind::Version => &VERSION,
        TestKind::Bucket => &BUCKET,
        TestKind::Today => &TODAY,
        TestKind::Installed => &INSTALLED,
        TestKind::Flag => &FLAG,
        TestKind::Attr => &ATTR,
        TestKind::Take => &TAKE,
    }
}
