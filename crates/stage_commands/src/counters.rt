//! The counters of the servers, by which a comparison knows which quotas are used up.
//!
//! Servers count by themselves. A cell counts as the least value of all named servers, so that a
//! row is left out only if it changes nothing at each of them.

ghost use Rattle.std.specs.Prelude.{◌≡◌};
ghost use Rattle.stage_commands.specs.Counters as specs;

use cell_assignments::{CellAssignment, read_assignments};
use declarations::ArrayDeclaration;
use operator::ask_server;
use operator_request::OperatorRequest;
use printing::TextBuffer;
use stage_servers::{Lines, StageCall, Stop, push_quotas};
use std::alloc::{AllocError, Global};
use std::net::{Net, TcpStream};

// The value of the same cell at another server, which leaves out a counter that is 0.
fn value_among(cell: &CellAssignment<'_>, others: &[CellAssignment<'_>]) -> u64
    ensures { result ≡ specs.value_among cell.now others.now }
{
    let mut left = others;
    while let [other, more @ ..] = left {
        if other.array() == cell.array() && other.index() == cell.index() {
            return other.value();
        }
        left = more;
    }
    0
}

// The lesser value of a cell, at two servers.
fn least_value(cell: &CellAssignment<'_>, others: &[CellAssignment<'_>]) -> u64
    ensures { result ≡ specs.least_value cell.now others.now }
{
    let other = value_among(cell, others);
    if other < cell.value() {
        return other;
    }
    cell.value()
}

// The lines of the lesser values, of what two servers counted.
fn least_lines(alloc: Global, lines: &str, others: &str) -> Result<String, AllocError> {
    let cells = read_assignments(alloc, lines)?;
    let others = read_assignments(alloc, others)?;
    let mut text = TextBuffer::new(alloc);
    for cell in &cells {
        text.push(cell.array());
        text.push_number("[", cell.index() as u64, "]");
        text.push_number(" ", least_value(cell, &others), "\n");
    }
    text.finish()
}

// The lines of the counters of the server at a port; none without a reply.
fn counters_at<R>(rt: &R, port: u16, stderr: &mut TextBuffer) -> String
where
    R: AllocGlobal + Net<Stream = TcpStream>,
{
    match ask_server(rt, OperatorRequest::Cells, port) {
        Ok(reply) => reply,
        Err(fault) => {
            stderr.push_number("stage: no counters of the server at ", port as u64, " (");
            stderr.push_value(&fault);
            stderr.push("): all quotas count as open\n");
            drop(fault);
            String::new(rt.alloc())
        }
    }
}

// The same, after the quotas that this server has used are added.
fn counters_shown<R>(
    rt: &R,
    port: u16,
    arrays: &[ArrayDeclaration],
    lines: &mut Lines,
) -> Result<String, AllocError>
where
    R: AllocGlobal + Net<Stream = TcpStream>,
{
    let reply = counters_at(rt, port, &mut lines.stderr);
    let cells = read_assignments(rt.alloc(), reply.as_str())?;
    push_quotas(&mut lines.text, port, arrays, &cells);
    drop(cells);
    Ok(reply)
}

/// Adds the quotas of these arrays that each server has used. Returns the lines of the least values
/// of all servers' counters: none if a server doesn't reply, or if no server is to load.
pub(crate) fn least_counters<R, D>(
    call: &StageCall<'_, R, D>,
    arrays: &[ArrayDeclaration],
    lines: &mut Lines,
) -> Result<String, Stop>
where
    R: AllocGlobal + Net<Stream = TcpStream>,
{
    let alloc = call.rt.alloc();
    if call.options.no_load {
        return Ok(String::new(alloc));
    }
    let [first, more @ ..] = call.options.ports() else {
        return Ok(String::new(alloc));
    };
    let mut least = counters_shown(call.rt, *first, arrays, lines)?;
    for port in more {
        let others = counters_shown(call.rt, *port, arrays, lines)?;
        least = least_lines(alloc, least.as_str(), others.as_str())?;
    }
    Ok(least)
}
