//! Programs that the verifier refuses, on the reference interpreter. Each end on the standard's
//! machine was worked out by hand: a choice, or a step that isn't defined.

ghost use Rattle.std.specs.Prelude.{◌≤◌, length};

use crate::files::shown;
use crate::machine::given::shape_over;
use attrs::Attrs;
use bpf_insn::Insn;
use bpf_text::assemble;
use cells::{PlainCells, PlainPass, Shape};
use flow_check::{laid_out, read_program};
use reference::{Interpreter, RunEnd};
use std::alloc::Global;
use std::sync::Arc;
use std::test::Fail;

const LIMIT: u64 = 100;

/// How a run ends, after how many instructions without the last one, and the program. It has the
/// arrays `a` and `b`, of four counters of 64 and of 32 bits.
const ENDS: &[(RunEnd, u64, &str)] = &[
    (RunEnd::Trap, 0, "exit"),
    (RunEnd::Trap, 1, "mov r0, 3"),
    (RunEnd::Unfinished, 100, "ja -1\nexit"),
    (RunEnd::Trap, 0, "ja -2\nexit"),
    (RunEnd::Trap, 2, "lddw r0, 5\nja -2"),
    (RunEnd::Trap, 1, "mov r0, 7\nmul r0, r2\nexit"),
    (RunEnd::Trap, 0, "mov r10, 0\nexit"),
    (RunEnd::Trap, 0, "ldxdw r2, [r1+57]\nmov r0, 0\nexit"),
    (RunEnd::Trap, 0, "stb [r1+0], 1\nexit"),
    (
        RunEnd::Trap,
        2,
        "mov r2, 7\nstxw [r10-8], r2\nldxw r0, [r10-4]\nexit",
    ),
    (RunEnd::Trap, 0, "stb [r10+0], 1\nexit"),
    (
        RunEnd::Trap,
        2,
        "mov r2, 1\nstxdw [r10-8], r2\naadddw [r10-8], r2\nexit",
    ),
    (RunEnd::Trap, 0, "call 5\nexit"),
    (RunEnd::Trap, 2, "mov r1, 0\ncall 3\nmov r0, r1\nexit"),
    (
        RunEnd::Trap,
        3,
        "ldmap r1, 0\nmov r2, 4\ncall 1\nldxdw r3, [r0+0]\nexit",
    ),
    (RunEnd::Trap, 0, "ldmap r1, 2\nexit"),
    (RunEnd::Trap, 1, "ldcell r6, 0, 0\nstw [r6+0], 9\nexit"),
    (
        RunEnd::Trap,
        2,
        "ldcell r6, 1, 0\nstw [r6+0], 9\nldsxw r0, [r6+0]\nexit",
    ),
    (
        RunEnd::Choice(1),
        3,
        "stw [r10-8], -2\nldsxw r0, [r10-8]\nadd r0, 3\nexit",
    ),
    (RunEnd::Choice(1), 2, "mov r1, 0\ncall 3\nexit"),
    (
        RunEnd::Choice(9),
        3,
        "ldcell r6, 0, 0\nstdw [r6+0], 9\nldxdw r0, [r6+0]\nexit",
    ),
    (
        RunEnd::Choice(4294967295),
        6,
        "ldcell r6, 1, 0\nmov32 r2, -1\nstxw [r6+0], r2\nmov r2, 1\nfaddw [r6+0], r2\n\
            mov r0, r2\nexit",
    ),
];

/// A run from the opening state: its end, and the instructions before it.
fn run(
    attrs: Arc<Attrs>,
    code: &[Option<Insn>],
    shape: &Shape,
    cells: &PlainCells,
    pass: &mut PlainPass,
) -> (RunEnd, u64)
    requires { length code.now ≤ 4096 }
{
    let mut interpreter = Interpreter::start(attrs);
    let end = interpreter.run(code, shape, cells, pass, LIMIT);
    (end, interpreter.count())
}

/// The run of a program of at most 4096 slots, over counters that are 0.
fn ran(alloc: Global, code: &[Option<Insn>], shape: &Shape) -> Result<(RunEnd, u64), Fail> {
    if code.len() > 4096 {
        return Err(Fail::from("too long"));
    }
    let attrs = Arc::new(alloc, Attrs::plain(alloc, "x", Some("1.0"), 42)?)?;
    let (cells, mut pass) = PlainCells::new(alloc)?;
    Ok(run(attrs, code, shape, &cells, &mut pass))
}

/// The instructions of a text, slot by slot.
fn code_of(alloc: Global, text: &str) -> Result<Vec<Option<Insn>>, Fail> {
    let bytes = assemble(alloc, text)?;
    let code = read_program(alloc, &bytes)?;
    Ok(laid_out(alloc, &code)?)
}

fn end_of(alloc: Global, text: &str, shape: &Shape) -> Result<(RunEnd, u64), Fail> {
    let code = code_of(alloc, text)?;
    ran(alloc, &code, shape)
}

/// Fails with the first program that ends otherwise.
fn are_ended(alloc: Global, shape: &Shape) -> Result<(), Fail> {
    for (end, count, text) in ENDS {
        shown(end_of(alloc, *text, shape)? == (*end, *count), *text)?;
    }
    Ok(())
}

#[test]
fn interpreted_programs(rt: HostRuntime) -> Result<(), Fail> {
    are_ended(rt.alloc(), &shape_over(rt.alloc(), 64, "a:64:4,b:32:4")?)
}
