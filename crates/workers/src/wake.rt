//! The connection that wakes the accept loop of a port whose end has begun.

use crate::clock::pause;
use std::net::SocketAddr;
use std::sync::Wait;
use std::sync::atomic::{AtomicU64, Ordering};
use std::time::Clock;

/// The connection isn't made yet.
const NOT_YET: u64 = 0;

/// The connection can't be made.
const NEVER: u64 = 65536;

/// Which connection it is, by the port from which it is made.
#[derive(Drop)]
pub(crate) struct Wake {
    port: AtomicU64,
}

impl Wake {
    /// A connection that isn't made yet.
    pub(crate) fn new() -> Wake {
        Wake {
            port: AtomicU64::new(NOT_YET),
        }
    }

    /// Notes the address from which it is made; `None` if it can't be made.
    pub(crate) fn note(&self, from: Option<SocketAddr>) {
        let port = match from {
            Some(address) => u64::from(address.port()),
            None => NEVER,
        };
        self.port.store(port, Ordering::SeqCst);
    }

    /// Whether a connection from this address is the one. Waits until that is made, or can't be.
    pub(crate) fn is_from<H: Wait + Clock>(&self, rt: &H, peer: SocketAddr) -> bool {
        for _ in rt.forever() {
            let port = self.port.load(Ordering::SeqCst);
            if port != NOT_YET {
                return port == u64::from(peer.port());
            }
            pause(rt);
        }
        unreachable!()
    }
}
