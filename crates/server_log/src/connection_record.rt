//! What the log keeps of a connection: the result for each app, and under which generation. The
//! line is written after the reply was sent: the facts of the request's apps are shared until then,
//! and other texts are copied. A worker reuses the buffers for its next connection.

ghost use Rattle.std.specs.Prelude.{◌≡◌, [], None, Some};
ghost use Rattle.server_log.specs.ConnectionRecord.{IsEmptyRecord, IsSameRequest};

use crate::app_details::AppDetails;
use crate::app_record::{AppExtras, AppRecord, KeptExcerpt};
use crate::kept_texts::{KeptTexts, TextPlace};
use crate::recorder::Recorder;
use crate::requester::{bucket_of_unknown, requester_id};
use access_log::{Excerpt, LoggedApp};
use answering::RequestObserver;
use hot_swap::Generation;
use net_io::Timed;
use omaha_json::{AppObserver, FoundApp, Request, WrittenApp};
use std::alloc::{AllocError, Global};
use std::mem;
use std::net::{IpAddr, SocketAddr};
use std::time::Clock;

/// The contents of a connection's line, if the log keeps them.
#[derive(Drop)]
pub struct ConnectionRecord {
    alloc: Global,
    is_kept: bool,
    /// 0 if no request was answered.
    pub(crate) generation: Generation,
    /// The address in `X-Forwarded-For`.
    forwarded: Option<IpAddr>,
    /// Whether the request has neither a request id nor a session id.
    pub(crate) lacks_id: bool,
    /// A prefix of the request's id, or of its session's if it has none.
    request_id: Option<TextPlace>,
    /// How the connection failed, if it did.
    pub(crate) cause: Option<&'static str>,
    /// The number of bytes written.
    pub(crate) bytes: u64,
    /// The buffer for what is read.
    buffer: Vec<u8>,
    texts: KeptTexts,
    /// The details of each app, in the request's order.
    events: Vec<AppDetails>,
    apps: Vec<AppRecord>,
    /// Whether an allocation failed for some of it.
    is_cut: bool,
}

/// The places of the texts of the client's address and port, and of the address that a proxy names.
#[derive(Clone, Copy)]
pub(crate) struct Addresses {
    peer: TextPlace,
    forwarded: Option<TextPlace>,
}

impl ConnectionRecord {
    /// Starts with nothing.
    pub fn new(alloc: Global, is_kept: bool) -> ConnectionRecord
        ensures empty_record { IsEmptyRecord result }
        ensures kept { result.is_kept ≡ is_kept }
    {
        ConnectionRecord {
            alloc,
            is_kept,
            generation: 0,
            forwarded: None,
            lacks_id: false,
            request_id: None,
            cause: None,
            bytes: 0,
            buffer: Vec::new(alloc),
            texts: KeptTexts::new(alloc),
            events: Vec::new(alloc),
            apps: Vec::new(alloc),
            is_cut: false,
        }
    }

    /// Clears everything for the next connection.
    pub fn begin(&mut self)
        ensures empty_record { IsEmptyRecord self.new }
        ensures kept { self.new.is_kept ≡ self.old.is_kept }
    {
        self.generation = 0;
        self.forwarded = None;
        self.lacks_id = false;
        self.request_id = None;
        self.cause = None;
        self.bytes = 0;
        self.texts.clear();
        self.events.clear();
        self.apps.clear();
        self.is_cut = false;
    }

    /// Wraps a reader so that it keeps what is read, if that is wanted, in the buffer. `remember`
    /// returns the buffer.
    pub fn recorder_of<R>(&mut self, reader: R) -> Recorder<R>
        ensures reader { result.inner ≡ reader }
        ensures kept { result.is_kept ≡ self.old.is_kept }
        ensures bytes { result.bytes.items ≡ [] }
        ensures failure { result.failure ≡ None }
        ensures same { IsSameRequest self.old self.new }
    {
        let buffer = mem::replace(&mut self.buffer, Vec::new(self.alloc));
        Recorder::with_buffer(buffer, reader, self.is_kept)
    }

    /// Takes the details of a connection from its devices: the address that a proxy names, how the
    /// reader failed or else the writer, and the number of bytes written.
    pub fn remember<'x, H: Clock>(
        &mut self,
        reader: Recorder<Timed<'x, H>>,
        writer: Recorder<Timed<'x, H>>,
    )
        ensures bytes { self.new.bytes ≡ writer.entry.inner.bytes }
        ensures same { IsSameRequest self.old self.new }
    {
        self.forwarded = reader.forwarded();
        self.cause = match reader.cause() {
            Some(cause) => Some(cause),
            None => writer.cause(),
        };
        self.bytes = writer.into_inner().bytes();
        self.buffer = reader.into_buffer();
    }

    /// Sets why the connection failed, if its devices don't know.
    pub fn fail(&mut self, cause: &'static str)
        ensures cause { self.new.cause ≡ Some cause.entry }
        ensures same { IsSameRequest self.old self.new }
    {
        self.cause = Some(cause);
    }

    /// Appends the texts of the addresses.
    pub(crate) fn keep_addresses(&mut self, peer: SocketAddr) -> Result<Addresses, AllocError> {
        let peer = self.texts.keep_socket(peer)?;
        let forwarded = match self.forwarded {
            Some(address) => Some(self.texts.keep_address(address)?),
            None => None,
        };
        Ok(Addresses { peer, forwarded })
    }

    /// The text of the client's address and port.
    pub(crate) fn peer(&self, addresses: Addresses) -> &str {
        self.texts.at(addresses.peer)
    }

    /// The text of the address that a proxy names.
    pub(crate) fn forwarded_text(&self, addresses: Addresses) -> Option<&str> {
        self.texts.at_some(addresses.forwarded)
    }

    /// The prefix that is kept of the id of the request, or of its session.
    pub(crate) fn request_id(&self) -> Option<&str> {
        self.texts.at_some(self.request_id)
    }

    /// The app for the line, if there is exactly one and it was kept.
    pub(crate) fn only_app(&self) -> Option<LoggedApp<'_>> {
        match self.apps.as_slice() {
            [app] if !self.is_cut => Some(app.logged(&self.texts)),
            _ => None,
        }
    }

    /// The apps for the line: those that the server has before the others, so that an unknown app
    /// takes no space from them. Fails if an allocation failed for some app.
    pub(crate) fn logged_apps(&self) -> Result<Vec<LoggedApp<'_>>, AllocError> {
        if self.is_cut {
            return Err(AllocError);
        }
        let mut logged = Vec::with_capacity(self.alloc, self.apps.len())?;
        for app in self.apps.iter() {
            if app.is_known {
                logged.push(app.logged(&self.texts))?;
            }
        }
        for app in self.apps.iter() {
            if !app.is_known {
                logged.push(app.logged(&self.texts))?;
            }
        }
        Ok(logged)
    }

    // Keeps the request's id, and the apps, with what was found for them.
    fn keep(
        &mut self,
        request: &Request,
        found: &[Option<FoundApp<'_>>],
    ) -> Result<(), AllocError> {
        self.keep_request_id(requester_id(request.facts()))?;
        let hashed = bucket_of_unknown(request, found);
        let platform = match &request.facts().platform {
            Some(text) => Some(KeptExcerpt::of(&mut self.texts, Excerpt::short(text.as_str()))?),
            None => None,
        };
        for (place, app) in request.apps().iter().enumerate() {
            let Some(found) = found.get(place) else {
                return Ok(());
            };
            let details = self.extras_at(place, platform);
            let recorded = AppRecord::of(&mut self.texts, app.share()?, found, hashed, details)?;
            self.apps.push(recorded)?;
        }
        Ok(())
    }

    // Keeps a prefix of an id, or that there is none.
    fn keep_request_id(&mut self, id: &str) -> Result<(), AllocError> {
        self.lacks_id = id.is_empty();
        if !self.lacks_id {
            self.request_id = Some(self.texts.keep(Excerpt::of_id(id).text)?);
        }
        Ok(())
    }

    // The details of the app at a place, with the request's platform.
    fn extras_at(&self, place: usize, platform: Option<KeptExcerpt>) -> AppExtras {
        let details = match self.events.get(place) {
            Some(details) => *details,
            None => AppDetails::NONE,
        };
        AppExtras { details, platform }
    }

    // Keeps the details of the next app.
    fn keep_details(&mut self, app: WrittenApp<'_>) -> Result<(), AllocError> {
        let details = AppDetails::of(self.alloc, &mut self.texts, app)?;
        self.events.push(details)?;
        Ok(())
    }

    /// Drops the apps, once their line is written.
    pub(crate) fn drop_apps(&mut self) {
        self.apps.clear();
    }
}

impl AppObserver for ConnectionRecord {
    fn observe_app(&mut self, app: WrittenApp<'_>) {
        if self.is_kept {
            let is_kept = self.keep_details(app).is_ok();
            self.is_cut = self.is_cut || !is_kept;
        }
    }
}

impl RequestObserver for ConnectionRecord {
    fn observe(
        &mut self,
        generation: Generation,
        request: &Request,
        found: &[Option<FoundApp<'_>>],
    ) {
        self.generation = generation;
        if self.is_kept {
            let is_kept = self.keep(request, found).is_ok();
            self.is_cut = self.is_cut || !is_kept;
        }
    }
}
