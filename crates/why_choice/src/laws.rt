//! Laws of the definitions: reports are true. Two of the laws are called, only for their clauses.

ghost use Rattle.why_choice.specs.Quoted as quoted;
ghost use Rattle.why_choice.specs.RuleLines as specs;

/// Law: each reported truth of a test is what the test means.
pub fn truths_sound()
    ensures { specs.TruthsSound }
{}

/// Law: a condition's meaning takes the reported branch: the first if it is reported to hold,
/// otherwise the second.
pub fn conditions_sound()
    ensures { specs.ConditionsSound }
{}

/// Law: a `when` that is reported to hold ends the rule with its release, and after any other the
/// rest of the rule chooses.
pub fn whens_decide()
    ensures { specs.WhensDecide }
{}

/// Law: the rule chooses by the last reported line.
pub fn last_line_chooses()
    ensures { specs.LastLineChooses }
{}

/// Law: evaluating a rule on counters gives what the rule means.
pub fn endings_are_meant()
    ensures { specs.EndingsAreMeant }
{}

/// Law: a quoted text has no quote inside, so it ends at the next quote.
pub fn quotes_end_texts()
    ensures { quoted.QuotesEndTexts }
{}
