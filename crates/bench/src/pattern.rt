//! The patterns of programs, by the words that name them, and their sizes.

ghost use Rattle.std.specs.Prelude.{◌<◌};

/// The instructions of a program of the benchmark.
#[derive(Clone, Copy)]
pub enum Pattern {
    /// Only arithmetic.
    Straight,
    /// Only arithmetic, in 32 bits.
    Straight32,
    /// Conditional jumps, all to one slot, which no run takes.
    OneTarget,
    /// Branches, one after the other, whose two sides meet again.
    Diamonds,
    /// Such branches over a stack in which all 64 slots keep a value.
    FullStack,
    /// Loads of the context, and an addition after each three.
    Loads,
    /// Stores to the stack, and a load and an addition after each two.
    Stores,
}

const PATTERNS: &[(&str, Pattern)] = &[
    ("straight", Pattern::Straight),
    ("straight32", Pattern::Straight32),
    ("one-target", Pattern::OneTarget),
    ("diamonds", Pattern::Diamonds),
    ("full-stack", Pattern::FullStack),
    ("loads", Pattern::Loads),
    ("stores", Pattern::Stores),
];

impl Pattern {
    /// The pattern of a word, if it names one.
    pub fn named(word: &str) -> Option<Pattern> {
        for (name, pattern) in PATTERNS {
            if *name == word {
                return Some(*pattern);
            }
        }
        None
    }
}

/// The length of a program: `blocks` blocks of four slots each, and four slots more.
#[derive(Clone, Copy)]
pub struct ProgramSize {
    pub blocks: u16,
    pub ghost in_range: { blocks < 1024 },
}

impl ProgramSize {
    /// The size of a word: a number of slots, 4 to 4096, that four divides.
    pub fn of(word: &str) -> Option<ProgramSize> {
        let slots: u16 = word.parse().ok()?;
        if slots < 4 || slots > 4096 || slots % 4 != 0 {
            return None;
        }
        Some(ProgramSize {
            blocks: slots / 4 - 1,
        })
    }
}
