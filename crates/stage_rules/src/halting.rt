//! The files that halt an app. A halt replaces the app's file by one of these, and reads nothing of
//! the old one.

ghost use Rattle.std.specs.Prelude.{◌≡◌, ℕ, List};
ghost use Rattle.std.specs.Str.{bytes_eq};
ghost use Rattle.manifest.specs.declared.app.ProgramSource.TheVariants.{Program, Rule};
ghost use Rattle.stage_rules.specs.Halts.{Halts, halted_program, halted_rule};
ghost use Rattle.stage_rules.specs.Halts as specs;

use manifest::ProgramSource;
use rule_lang::one_verdict;

// `mov r0, 0` and `exit`.
static HALTED_PROGRAM: [u8; 16] = [0xb7, 0, 0, 0, 0, 0, 0, 0, 0x95, 0, 0, 0, 0, 0, 0, 0];

fn halted_rule() -> &'static [u8]
    ensures is { result.now ≡ halted_rule }
    ensures halts { (file : List ℕ) → Halts (Rule file) result.now }
{
    one_verdict();
    "otherwise none;\n".as_bytes()
}

fn halted_program() -> &'static [u8]
    ensures is { result.now ≡ halted_program }
    ensures halts { (file : List ℕ) → Halts (Program file) result.now }
{
    &HALTED_PROGRAM
}

/// The bytes that halt an app with a rule, or with a program.
pub fn halting_file(source: &ProgramSource) -> &'static [u8]
    ensures bytes { result.now ≡ specs.halting_file source.now }
    ensures halts { Halts source.now result.now }
{
    match source {
        ProgramSource::Rule(_) => halted_rule(),
        ProgramSource::Program(_) => halted_program(),
    }
}

/// Whether an app's file has the bytes that halt it.
pub(crate) fn is_halting_file(source: &ProgramSource, bytes: &[u8]) -> bool
    ensures { result ≡ bytes_eq bytes.now (specs.halting_file source.now) }
{
    bytes == halting_file(source)
}
