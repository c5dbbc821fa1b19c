//! What the server of a report says: its counters, and for Prometheus or a page also its state.

ghost use Rattle.std.specs.Prelude.{◌≡◌, ◌||◌, IfOk, IfErr, IfSome, is_some};
ghost use Rattle.std.specs.Prelude.{option_copied, option_map, string_bytes};
ghost use Rattle.bounded_files.specs.Files.{KnownFiles};
ghost use Rattle.operator.specs.Done.{IsDoneAs, IsRequestRefusal};
ghost use Rattle.server_replies.specs.Said as said;
ghost use Rattle.cli_tool_commands.specs.Outputs.{IsRefused};
ghost use Rattle.cli_tool_commands.specs.Servers as specs;

use crate::tool_fault::Fault;
use bounded_files::ResourceFault;
use cli_tool_words::{ReportArgs, ToolCommand};
use operator::{RequestFault, ask_server};
use operator_request::OperatorRequest;
use server_replies::{ServerFacts, ServerReplies};
use std::net::{Net, TcpStream};

/// How an older server refuses a word that it doesn't know.
const UNKNOWN_WORD: &str = "B1 Word";

/// What a server replied.
#[derive(Drop)]
pub(crate) struct FoundServer {
    port: u16,
    replies: Option<FoundReplies>,
}

/// Its replies to `state`, unless it is an older server, and to `cells`.
#[derive(Drop)]
pub(crate) struct FoundReplies {
    state: Option<String>,
    cells: String,
}

/// What the server at the port of a report says; none without a port. If only its counters are
/// printed, a server that doesn't reply is a fault.
// open: which replies a server gives: tests.
#[tactic(auto, using(crate::proofs::Replied::replied))]
pub(crate) fn found_server<R>(rt: &R, args: &ReportArgs<'_>) -> Result<Option<FoundServer>, Fault>
where
    R: AllocGlobal + Net<Stream = TcpStream>,
    ensures found { IfOk result (λ found.
        specs.IsFound args.now args.now.operator (option_map specs.found_replies found)) }
    ensures port { IfOk result (λ found. option_map (λ server. server.port) found
        ≡ args.now.operator) }
    ensures fault { (known : KnownFiles)
        → IfErr result (IsRefused known (ToolCommand.Report args.now)) }
{
    let Some(port) = args.operator else {
        return Ok(None);
    };
    if !is_whole(args) {
        return match counters_at(rt, port) {
            Ok(replies) => Ok(Some(FoundServer {
                port,
                replies: Some(replies),
            })),
            Err(fault) => Err(Fault::Ask(fault)),
        };
    }
    match replies_at(rt, port) {
        Ok(replies) => Ok(Some(FoundServer { port, replies })),
        Err(fault) => Err(Fault::Resource(fault)),
    }
}

// Whether a report shows more of a server than its counters.
fn is_whole(args: &ReportArgs<'_>) -> bool
    ensures { result ≡ args.now.prometheus || is_some args.now.page }
{
    args.prometheus || args.page.is_some()
}

fn counters_at<R>(rt: &R, port: u16) -> Result<FoundReplies, RequestFault>
where
    R: AllocGlobal + Net<Stream = TcpStream>,
    ensures replied { IfOk result (λ found. specs.AreReplies (specs.replies_in found)) }
    ensures fault { IfErr result (IsRequestRefusal OperatorRequest.Cells) }
{
    match ask_server(rt, OperatorRequest::Cells, port) {
        Ok(cells) => Ok(FoundReplies { state: None, cells }),
        Err(fault) => Err(fault),
    }
}

// The replies to `state` and to `cells`; none if the server doesn't reply, or refuses.
fn replies_at<R>(rt: &R, port: u16) -> Result<Option<FoundReplies>, ResourceFault>
where
    R: AllocGlobal + Net<Stream = TcpStream>,
    ensures { IfOk result
        (λ found. IfSome (option_map specs.replies_in found) specs.AreReplies) }
{
    match ask_server(rt, OperatorRequest::State, port) {
        Ok(state) => with_cells(rt, port, Some(state)),
        Err(RequestFault::Refused(words)) => {
            let is_older = words.as_str() == UNKNOWN_WORD;
            drop(words);
            if is_older {
                with_cells(rt, port, None)
            } else {
                Ok(None)
            }
        }
        Err(RequestFault::Memory) => Err(ResourceFault::Memory),
        Err(_) => Ok(None),
    }
}

fn with_cells<R>(
    rt: &R,
    port: u16,
    state: Option<String>,
) -> Result<Option<FoundReplies>, ResourceFault>
where
    R: AllocGlobal + Net<Stream = TcpStream>,
    requires { IfSome (option_map string_bytes state) (IsDoneAs OperatorRequest.State) }
    ensures { IfOk result
        (λ found. IfSome (option_map specs.replies_in found) specs.AreReplies) }
{
    match ask_server(rt, OperatorRequest::Cells, port) {
        Ok(cells) => Ok(Some(FoundReplies { state, cells })),
        Err(RequestFault::Memory) => Err(ResourceFault::Memory),
        Err(_) => Ok(None),
    }
}

/// What a server says.
pub(crate) fn server_facts<'a>(found: &'a Option<FoundServer>) -> Option<ServerFacts<'a>>
    ensures said { said.said_by result ≡ option_map specs.found_replies found.now }
    ensures port { option_map (λ server. server.port) result
        ≡ option_map (λ server. server.port) found.now }
{
    match found {
        Some(FoundServer { port, replies }) => Some(ServerFacts {
            port: *port,
            replies: replies_of(replies),
        }),
        None => None,
    }
}

fn replies_of<'a>(found: &'a Option<FoundReplies>) -> Option<ServerReplies<'a>>
    ensures { said.replies_of result ≡ option_map specs.replies_in found.now }
{
    match found {
        Some(FoundReplies { state, cells }) => Some(ServerReplies {
            state: lent(state),
            cells: cells.as_str(),
        }),
        None => None,
    }
}

fn lent<'a>(text: &'a Option<String>) -> Option<&'a str>
    ensures { option_copied result ≡ option_map string_bytes text.now }
{
    match text {
        Some(text) => Some(text.as_str()),
        None => None,
    }
}
