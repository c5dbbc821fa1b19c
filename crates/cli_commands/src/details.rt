//! The second line of a refused start, with `--verbose`: the path or the port that it is about, and
//! why.

use crate::serve_fault::ServeRefusal;
use bounded_files::Disk;
use cli_words::ServeArgs;
use counters_file::CountersFault;
use printing::Printed;
use refusal_details::{
    print_bind_fault, print_cause, print_read_fault, print_unread_manifest, print_write_fault,
};
use serving::ServingFault;
use std::io::Write;
use std::net::{Net, TcpListener, TcpStream};
use std::rt::Files;

/// Prints a line about what `serve` names, if looking at it again shows the cause.
// open: the line, and when there is one: rows.
pub fn print_details<R, D, E>(
    rt: &R,
    disk: &D,
    args: &ServeArgs<'_>,
    fault: &ServeRefusal,
    err: &mut E,
)
where
    R: Files + AllocGlobal + Net<Listener = TcpListener, Stream = TcpStream>,
    D: Disk,
    E: Write,
{
    let _printed = match fault {
        ServeRefusal::Counters(fault) => print_counters_fault(rt, args, fault, err),
        ServeRefusal::Serving(ServingFault::Bind) => {
            print_bind_fault(rt, args.plan.port, args.plan.operator, err)
        }
        ServeRefusal::Serving(ServingFault::Manifest(_)) => {
            print_unread_manifest(rt, disk, args.manifest, err)
                || print_cause(fault.cause(), args.manifest, err)
        }
        ServeRefusal::Serving(_) => false,
    };
}

// The file of a server's counters.
fn print_counters_fault<R: Files, E: Write>(
    rt: &R,
    args: &ServeArgs<'_>,
    fault: &CountersFault,
    err: &mut E,
) -> bool {
    let Some(path) = args.counters else {
        return false;
    };
    let reason = match fault {
        CountersFault::File if print_read_fault(rt, path, err) => return true,
        CountersFault::Store => return print_write_fault(rt, path, err),
        CountersFault::Memory => return false,
        CountersFault::InUse => "another server has it",
        CountersFault::File => "a link, not a regular file, or over 1 MiB",
        CountersFault::Damaged { .. } => "this line is wrong, or the file is cut short",
    };
    let path = Printed(path);
    writeln!(err, "{path}: {reason}").is_ok()
}
