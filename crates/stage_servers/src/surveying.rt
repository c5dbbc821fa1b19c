//! What the servers of a folder serve, before anything is changed: which step's files, by the
//! digest that each server names.

// What a server replies is its own: bench/outside tests it.

ghost use Rattle.std.specs.Prelude.{◌≡◌, ◌++◌, ◌∷◌, ℕ, List, [], IfOk, IfSome, OnOk};
ghost use Rattle.std.specs.Prelude.{Option, Some, false, true};
ghost use Rattle.bounded_files.specs.Files.{KnownFiles};
ghost use Rattle.load.specs.Opened.{IsCollected};
ghost use Rattle.stage_servers.specs.Drift.{IsServedBy, IsSurveyed};
ghost use Rattle.stage_servers.specs.Ports.{AreSurveyed, ports_of};

use crate::collected::app_named;
use crate::load_notes::note_of;
use crate::options::StageCall;
use crate::place::{Place, apps_of, is_in_place, place_of};
use crate::removed_apps::{apps_shown, removed_app};
use crate::server_state::{ServerState, digest_bytes, halted_in, state_in};
use crate::serves::{Serves, Surveyed, step_with};
use bounded_files::Disk;
use operator::ask_server;
use operator_request::OperatorRequest;
use stage_folder::StageFolder;
use stage_records::StageAction;
use std::alloc::{AllocError, Global};
use std::net::{Net, TcpStream};

// An app that a server shows, and that isn't in place or in the next manifest.
fn strange_app(alloc: Global, shown: &str, place: &Place) -> Result<Option<String>, AllocError> {
    for line in shown.lines() {
        if let Some(appid) = removed_app(line, apps_of(&place.present))
            && app_named(apps_of(&place.next), appid).is_none()
        {
            return Ok(Some(String::from_str(alloc, appid)?));
        }
    }
    Ok(None)
}

// What a server serves that no step is known to have left.
fn served_else<R>(
    rt: &R,
    port: u16,
    place: &Place,
    state: ServerState<'_>,
) -> Result<Serves, AllocError>
where
    R: AllocGlobal + Net<Stream = TcpStream>,
    ensures { IfOk result (λ serves. (known : KnownFiles) (current : List ℕ)
        (digest : Option (List ℕ)) → IsServedBy known current digest serves) }
{
    let alloc = rt.alloc();
    if let Some(note) = note_of(place.notes.as_str(), port)
        && note.digest == state.digest
    {
        return Ok(Serves::LastLoaded);
    }
    let shown = apps_shown(rt, port);
    let strange = strange_app(alloc, shown.as_str(), place)?;
    match String::from_str(alloc, state.loaded) {
        Ok(loaded) => Ok(Serves::Other { loaded, strange }),
        Err(_) => {
            drop(strange);
            Err(AllocError)
        }
    }
}

// What a server serves that replied this digest in its state.
fn served_by<R, D>(
    call: &StageCall<'_, R, D>,
    port: u16,
    place: &Place,
    state: ServerState<'_>,
    digest: [u8; 32],
) -> Result<Serves, AllocError>
where
    R: AllocGlobal + Net<Stream = TcpStream>,
    D: Disk,
    requires { IfSome place.now.present
        (IsCollected (D.known call.now.disk.now) call.now.manifest.now) }
    ensures { IfOk result
        (IsServedBy (D.known call.now.disk.now) call.now.manifest.now (Some digest)) }
{
    if is_in_place(place, digest) {
        return Ok(Serves::InPlace);
    }
    match step_with(call, place.steps(), digest)? {
        Some(found) => Ok(found),
        None => {
            let other = served_else(call.rt, port, place, state)?;
            Ok(other)
        }
    }
}

// The digest that a server replied, and what it therefore serves.
#[derive(Drop)]
struct Reply {
    digest: Option<[u8; 32]>,
    serves: Serves,
}

// The same by the lines of its state; nobody knows, if these have no digest.
fn reply_of<R, D>(
    call: &StageCall<'_, R, D>,
    port: u16,
    place: &Place,
    lines: &str,
) -> Result<Reply, AllocError>
where
    R: AllocGlobal + Net<Stream = TcpStream>,
    D: Disk,
    requires { IfSome place.now.present
        (IsCollected (D.known call.now.disk.now) call.now.manifest.now) }
    ensures { IfOk result (λ reply. IsServedBy (D.known call.now.disk.now)
        call.now.manifest.now reply.digest reply.serves) }
{
    let Some(state) = state_in(call.rt.alloc(), lines)? else {
        return Ok(Reply {
            digest: None,
            serves: Serves::Unknown,
        });
    };
    let Some(digest) = digest_bytes(state.digest) else {
        return Ok(Reply {
            digest: None,
            serves: Serves::Unknown,
        });
    };
    let serves = served_by(call, port, place, state, digest)?;
    Ok(Reply {
        digest: Some(digest),
        serves,
    })
}

fn surveyed_at<R, D>(
    call: &StageCall<'_, R, D>,
    port: u16,
    place: &Place,
) -> Result<Surveyed, AllocError>
where
    R: AllocGlobal + Net<Stream = TcpStream>,
    D: Disk,
    requires { IfSome place.now.present
        (IsCollected (D.known call.now.disk.now) call.now.manifest.now) }
    ensures surveyed { IfOk result (IsSurveyed (D.known call.now.disk.now) call.now.manifest.now) }
    ensures port { IfOk result (λ server. server.port ≡ port) }
{
    let alloc = call.rt.alloc();
    let Ok(lines) = ask_server(call.rt, OperatorRequest::State, port) else {
        return Ok(Surveyed {
            port,
            digest: None,
            serves: Serves::Unknown,
            halted: Vec::new(alloc),
        });
    };
    let halted = halted_in(alloc, lines.as_str())?;
    match reply_of(call, port, place, lines.as_str()) {
        Ok(Reply { digest, serves }) => Ok(Surveyed {
            port,
            digest,
            serves,
            halted,
        }),
        Err(_) => {
            drop(halted);
            Err(AllocError)
        }
    }
}

fn push_surveyed(servers: &mut Vec<Surveyed>, server: Surveyed) -> Result<(), AllocError>
    ensures { OnOk result (servers.new.items ≡ servers.old.items ++ server ∷ []) }
{
    servers.push(server)?;
    Ok(())
}

// The servers at these ports.
#[tactic(auto, using(crate::proofs::Ports::begins, crate::proofs::Ports::one_more))]
fn survey_each<R, D>(
    call: &StageCall<'_, R, D>,
    place: &Place,
    ports: &[u16],
) -> Result<Vec<Surveyed>, AllocError>
where
    R: AllocGlobal + Net<Stream = TcpStream>,
    D: Disk,
    requires { IfSome place.now.present
        (IsCollected (D.known call.now.disk.now) call.now.manifest.now) }
    ensures { IfOk result (λ servers. AreSurveyed (D.known call.now.disk.now)
        call.now.manifest.now ports.now [] servers.items) }
{
    let mut servers = Vec::new(call.rt.alloc());
    let mut left = ports;
    while let [port, others @ ..] = left {
        let server = surveyed_at(call, *port, place)?;
        push_surveyed(&mut servers, server)?;
        left = others;
    }
    Ok(servers)
}

/// What each server serves, before this action; none if no server is to load.
// open: whether an allocation fails, its one error; what each server replies, which step that is,
// and which apps it halts: bench/outside.
#[tactic(auto, using(crate::proofs::Ports::surveyed))]
pub fn survey<R, D, F>(
    call: &StageCall<'_, R, D>,
    folder: &F,
    action: &StageAction<'_>,
) -> Result<Vec<Surveyed>, AllocError>
where
    R: AllocGlobal + Net<Stream = TcpStream>,
    D: Disk,
    F: StageFolder,
    ensures surveyed { IfOk result (λ servers. call.now.options.now.no_load ≡ false
        → AreSurveyed (D.known call.now.disk.now) call.now.manifest.now
        (ports_of call.now.options.now) [] servers.items) }
    ensures none { IfOk result (λ servers.
        call.now.options.now.no_load ≡ true → servers.items ≡ []) }
{
    if call.options.no_load {
        return Ok(Vec::new(call.rt.alloc()));
    }
    match place_of(call, folder, action) {
        Ok(place) => {
            let servers = survey_each(call, &place, call.options.ports());
            drop(place);
            servers
        }
        Err(_) => Err(AllocError),
    }
}
