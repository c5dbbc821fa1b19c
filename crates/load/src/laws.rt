//! Laws of the definitions: a manifest has one load, and what is gathered of it leads to that.

ghost use Rattle.load.specs.Judged.{SourcesAreLoaded};
ghost use Rattle.load.specs.Made.{SourcesAreMade};
ghost use Rattle.load.specs.OneLoad.{HasOneJudgement, HasOneLoad, HasOneLoadFrom};
ghost use Rattle.load.specs.Opened.{OpenedIsMade};

use declarations::lists_declare_one_way;
use manifest::one_reading;

/// Law: for files with known bytes, one directory and one manifest have one load, unless memory
/// runs out. So a load that is repeated after running out of memory gives what it would have given
/// with ample memory. No program calls it.
pub fn one_load()
    ensures load { HasOneLoad }
    ensures path { HasOneLoadFrom }
    // What was gathered has one verdict, also for a device's files.
    ensures judgement { HasOneJudgement }
{
    one_reading();
    lists_declare_one_way();
    rule_lang::one_verdict();
    bpf_verify::one_verdict();
}

/// Law: the verdict on a gathered manifest and its files is that of their load, and each app's
/// verdict is that of its entry.
pub fn sources_are_loaded()
    ensures { SourcesAreLoaded }
{}

/// Law: the ruleset made of a gathered manifest is the one that its load gives.
pub fn sources_are_made()
    ensures { SourcesAreMade }
{}

/// Law: the ruleset of an opened manifest is the one that a load makes of it.
pub fn opened_is_made()
    ensures { OpenedIsMade }
{}
