//! Laws of the definitions, which nothing calls: a text is at most one word, and has one verdict.

ghost use Rattle.cells.specs.Arrays.{AppShape};
ghost use Rattle.rule_lang.specs.Tokens.{Text};
ghost use Rattle.rule_lang.specs.Verdicts.{HasVerdict, RuleHasOneVerdict};
ghost use Rattle.rule_lang.specs.Words.{AreExact};

/// Law: each word of the grammar, each flag and each attribute is found by its own text and by no
/// other.
pub fn words_are_exact()
    ensures { AreExact }
{}

/// Law: each text has a verdict under each shape. So "out of memory" only ever replaces a verdict;
/// no text is without one.
pub fn some_verdict()
    ensures { (s : AppShape) (text : Text) → HasVerdict s text }
{}

/// Law: a text has at most one verdict under a shape.
pub fn one_verdict()
    ensures { (s : AppShape) (text : Text) → RuleHasOneVerdict s text }
{}
