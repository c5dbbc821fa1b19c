//! What a person has to know of an app that was halted.

use cli_words::Task;
use operator_request::OperatorRequest;
use printing::Printed;

/// After a halt, prints how long it lasts, and which command keeps it. The runtime itself writes
/// the line to standard error.
// open: the line: `bench/outside`.
pub fn print_halt_note<R: Eprint>(rt: &R, task: &Task<'_>) {
    if let Task::Send {
        request: OperatorRequest::Halt(appid),
        ..
    } = task
    {
        let appid = Printed(appid);
        let kept = "rollout stage halt";
        let _printed = eprintln!(rt;
            "until the server restarts, unless it has --counters: {kept} {appid} keeps it"
        );
    }
}
