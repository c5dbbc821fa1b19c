//! For whom the next manifest changes what the servers give, which may not be what is in place.

ghost use Rattle.std.specs.Prelude.{IfSome};
ghost use Rattle.diff_manifests.specs.Opened.{AreKept};
ghost use Rattle.stage_commands.specs.Compared.{AreAllJudged};

use crate::comparison::push_comparison;
use crate::restored::judged_if;
use bounded_files::Disk;
use diff_manifests::OpenedBoth;
use load::JudgedManifest;
use stage_records::ReplacedFile;
use stage_servers::{
    Lines, Serves, StageCall, Stop, Surveyed, collected_as, collected_with, push_serves,
};
use std::net::{Net, TcpStream};
use std::time::Clock;

// Whether no server serves another step's files, or some server what is in place, or what nobody
// knows.
fn is_present_served(servers: &[Surveyed]) -> bool {
    let mut is_other = false;
    for server in servers {
        match &server.serves {
            Serves::Step { .. } => is_other = true,
            Serves::InPlace | Serves::Unknown => return true,
            Serves::LastLoaded | Serves::Other { .. } => {}
        }
    }
    !is_other
}

/// The manifest in place with these files, judged, if it can be.
pub(crate) fn judged_with_files<R, D>(
    call: &StageCall<'_, R, D>,
    files: &[ReplacedFile],
) -> Option<JudgedManifest>
where
    R: AllocGlobal,
    D: Disk,
    ensures { IfSome result AreAllJudged }
{
    let alloc = call.rt.alloc();
    judged_if(
        alloc,
        collected_with(alloc, call.disk, call.manifest, files),
    )
}

// Whether an earlier server of these serves the same step.
fn is_repeated(servers: &[Surveyed], port: u16, number: u32) -> bool {
    for server in servers {
        if server.port == port {
            return false;
        }
        if let Serves::Step { number: other, .. } = &server.serves
            && *other == number
        {
            return true;
        }
    }
    false
}

fn push_heading(lines: &mut Lines, server: &Surveyed) {
    lines.text.push_number("from what the server at ", server.port as u64, " serves, ");
    push_serves(&mut lines.text, &server.serves);
    lines.text.push(":\n");
}

fn push_uncompared(lines: &mut Lines, server: &Surveyed) {
    let stderr = &mut lines.stderr;
    stderr.push_number(
        "stage: what the server at ",
        server.port as u64,
        " serves, ",
    );
    push_serves(stderr, &server.serves);
    stderr.push(", isn't compared\n");
}

// What one server serves, judged: what has the digest that it names. None if that can no longer be
// gathered, or isn't to be compared.
fn judged_at_server<R, D>(call: &StageCall<'_, R, D>, server: &Surveyed) -> Option<JudgedManifest>
where
    R: AllocGlobal,
    D: Disk,
    ensures { IfSome result AreAllJudged }
{
    let alloc = call.rt.alloc();
    match &server.serves {
        Serves::Step { files, digest, .. } => {
            judged_if(
                alloc,
                collected_as(alloc, call.disk, call.manifest, files, *digest),
            )
        }
        _ => None,
    }
}

// Whether what a server serves is compared by another server's rows, or by those of what is in
// place.
fn is_compared(servers: &[Surveyed], server: &Surveyed) -> bool {
    match &server.serves {
        Serves::InPlace | Serves::Unknown => true,
        Serves::Step { number, .. } => is_repeated(servers, server.port, *number),
        Serves::LastLoaded | Serves::Other { .. } => false,
    }
}

// Compares from another manifest on.
#[tactic(auto, using(crate::proofs::Opening::old_replaced))]
fn begin_with(both: &mut OpenedBoth, old: JudgedManifest)
    requires kept { AreKept both.now }
    requires judged { AreAllJudged old }
    ensures { AreKept both.exit.now }
{
    both.old = old;
}

// Prints what changes from what one server serves, unless that is compared elsewhere.
fn push_server_rows<R, D>(
    call: &StageCall<'_, R, D>,
    server: &Surveyed,
    both: &mut OpenedBoth,
    lines: &mut Lines,
) -> Result<bool, Stop>
where
    R: AllocGlobal + Clock + Net<Stream = TcpStream>,
    D: Disk,
    requires { AreKept both.now }
    ensures { AreKept both.exit.now }
{
    if is_compared(call.servers, server) {
        return Ok(false);
    }
    let Some(old) = judged_at_server(call, server) else {
        push_uncompared(lines, server);
        return Ok(true);
    };
    push_heading(lines, server);
    begin_with(both, old);
    push_comparison(call, &*both, lines)
}

// Prints what changes from what each of these servers serves. Returns whether a row is lost, or an
// app isn't compared.
fn push_served_rows<R, D>(
    call: &StageCall<'_, R, D>,
    servers: &[Surveyed],
    both: &mut OpenedBoth,
    lines: &mut Lines,
) -> Result<bool, Stop>
where
    R: AllocGlobal + Clock + Net<Stream = TcpStream>,
    D: Disk,
    requires { AreKept both.now }
    ensures { AreKept both.exit.now }
{
    let [server, others @ ..] = servers else {
        return Ok(false);
    };
    let here = match push_server_rows(call, server, both, lines) {
        Ok(here) => here,
        Err(stop) => return Err(stop),
    };
    match push_served_rows(call, others, both, lines) {
        Ok(there) => Ok(here || there),
        Err(stop) => Err(stop),
    }
}

/// Prints what changes from what is in place, if a server serves that or may, or none serves an
/// earlier step; and from what each server serves that serves something else. Returns whether a row
/// is lost, or an app isn't compared.
pub(crate) fn push_all_rows<R, D>(
    call: &StageCall<'_, R, D>,
    both: &mut OpenedBoth,
    lines: &mut Lines,
) -> Result<bool, Stop>
where
    R: AllocGlobal + Clock + Net<Stream = TcpStream>,
    D: Disk,
    requires { AreKept both.now }
{
    let mut here = false;
    if is_present_served(call.servers) {
        here = match push_comparison(call, &*both, lines) {
            Ok(lost) => lost,
            Err(stop) => return Err(stop),
        };
    }
    match push_served_rows(call, call.servers, both, lines) {
        Ok(there) => Ok(here || there),
        Err(stop) => Err(stop),
    }
}
