//! Rules: statements in order.

ghost use Rattle.std.specs.Prelude.{◌≡◌};

use crate::condition::RuleCondition;
use cells::ArrayName;
use std::marker::Model;

/// One statement of a rule.
#[derive(Drop)]
pub enum Statement {
    /// Adds 1 to a cell of an array without a quota.
    Count {
        array: ArrayName,
        index: u16,
    },
    /// Ends with the release, from 1, if the condition holds.
    When {
        condition: RuleCondition,
        release: u8,
    },
}

/// A rule: its statements in order, and then `otherwise none`.
pub struct Rule {
    statements: Vec<Statement>,
}

// Not derived: a crate that drops one would prove the drop of each of its parts anew.
impl Drop for Rule {
    fn drop(self) {
        let Self {
            statements: _statements,
        } = self;
    }
}

impl Model for Rule {
    ghost use Rattle.std.specs.Prelude.{List};
    ghost use Rattle.rule_lang.specs.declared.rule.Statement.{Statement};

    ghost Value = { List Statement };

    ghost view = { λ r. r.statements.items };
}

impl Rule {
    /// A rule of these statements.
    pub fn of(statements: Vec<Statement>) -> Rule
        ensures { result ≡ statements.items }
    {
        Rule { statements }
    }

    /// The statements, in order.
    pub fn statements(&self) -> &[Statement]
        ensures { result.now ≡ self.now }
    {
        &self.statements
    }
}
