//! The source of a server's rulesets: a trait, so that the port is proved over any files, and tests
//! load from memory.

use cells::Directory;
use ruleset::LoadedRuleset;
use std::alloc::Global;
use std::fmt::Display;

/// Makes a ruleset from the manifest at a path.
pub trait Loader {
    ghost use Rattle.std.specs.Prelude.{ℕ, List, Option, option_copied, IfOk};
    ghost use mathlib.Core.List.{IsPrefix};
    ghost use Rattle.ruleset.specs.Rules.{KnowsOnly};
    ghost use Rattle.operator.specs.Control.{Loading};

    /// Why a load is refused: its text is printed after `refused `.
    type Fault: Display + Drop;

    /// Relates the path of a load, the arrays before it, and its result: the ruleset with the
    /// arrays after it and its digest, or the fault.
    ghost loads: { Self → Loading Self.Fault };

    /// The causes that may be logged with a fault.
    ghost has_cause: { Self.Fault → Option (List ℕ) → Type 0 };

    /// The ruleset of a manifest, and a directory with the earlier arrays and the ruleset's own.
    /// Its programs know only these.
    fn load(
        &self,
        alloc: Global,
        path: &str,
        directory: &Directory,
    ) -> Result<LoadedRuleset, Self::Fault>
        ensures outcome { loads self.now path.now directory.now result }
        ensures only { IfOk result (λ loaded. KnowsOnly loaded.directory loaded.rules) }
        ensures grown { IfOk result (λ loaded. IsPrefix directory.now loaded.directory) };

    /// The cause that is logged with a fault's text, if there is one.
    fn cause<'x>(&self, fault: &'x Self::Fault) -> Option<&'x str>
        ensures { has_cause fault.now (option_copied result) };
}
