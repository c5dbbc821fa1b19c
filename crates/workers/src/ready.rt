//! The line that a server writes once all its threads exist. It is written in the closure of
//! `thread::scope`, and no contract knows what the closure wrote through a `&mut` that it holds. So
//! the closure holds a value of a type parameter, which returns the writer.

ghost use Rattle.std.specs.Io.KnownBytes.{Appends};
ghost use Rattle.std.specs.Prelude.{◌≡◌, ℕ, IfOk, OnOk};
ghost use Rattle.workers.specs.Texts.{serving_line};

use arrayvec::ArrayVec;
use hot_swap::Generation;
use std::io::{self, Write};

/// More bytes than the line of any generation has.
const LINE_SIZE: usize = 64;

/// Writes that a server serves the ruleset of a generation.
pub(crate) trait Ready {
    type Out: Drop;

    ghost prints: { Self → ℕ → Self.Out → Type 0 };

    fn print(self, generation: Generation) -> io::Result<Self::Out>
        ensures { IfOk result (λ printed. prints self generation printed) };
}

/// A writer, to which the line is written at once.
#[derive(Drop)]
pub(crate) struct ReadyLine<'a, O> {
    pub(crate) out: &'a mut O,
}

impl<'a, O: Write> Ready for ReadyLine<'a, O> {
    type Out = &'a mut O;

    ghost prints = { λ line generation printed. (printed.ghost_name ≡ line.out.ghost_name)
        × Appends (O.contents line.out.now) (O.contents printed.now) (serving_line generation) };

    fn print(self, generation: Generation) -> io::Result<&'a mut O> {
        let ReadyLine { out } = self;
        write_line(out, generation)?;
        Ok(out)
    }
}

// Writes the line by one write, so that no line of another program that writes to the same file is
// mixed with it. It allocates nothing.
fn write_line<O: Write>(out: &mut O, generation: Generation) -> io::Result<()>
    ensures { OnOk result
        (Appends (O.contents out.old) (O.contents out.new) (serving_line generation)) }
{
    let mut line = ArrayVec::<u8, LINE_SIZE>::new();
    writeln!(line, "serving generation {generation}")?;
    out.write_all(line.as_slice())?;
    out.flush()
}

/// Does nothing; the use of the returned writer ties it to the borrowed one.
pub(crate) fn take_back<O>(out: &mut O)
    ensures { out.new ≡ out.old }
{}
