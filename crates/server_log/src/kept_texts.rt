//! The texts that a worker keeps of a request, one after another in a buffer, which is reused for
//! the next request.

use itoa::Buffer;
use std::alloc::{AllocError, Global};
use std::fmt::Write;
use std::net::{IpAddr, Ipv4Addr, SocketAddr};

/// The largest capacity that is kept for the next request.
const KEPT_CAPACITY: usize = 65536;

/// The range of a text in the buffer.
#[derive(Clone, Copy)]
pub(crate) struct TextPlace {
    begin: usize,
    end: usize,
}

/// Texts, one after another.
#[derive(Drop)]
pub(crate) struct KeptTexts {
    alloc: Global,
    all: String,
}

impl KeptTexts {
    /// No text yet.
    pub(crate) fn new(alloc: Global) -> KeptTexts {
        KeptTexts {
            alloc,
            all: String::new(alloc),
        }
    }

    /// Drops all texts, and keeps a buffer of at most `KEPT_CAPACITY` bytes.
    pub(crate) fn clear(&mut self) {
        if self.all.capacity() > KEPT_CAPACITY {
            self.all = String::new(self.alloc);
        }
        self.all.clear();
    }

    /// Appends a text.
    pub(crate) fn keep(&mut self, text: &str) -> Result<TextPlace, AllocError> {
        let begin = self.all.len();
        self.all.push_str(text)?;
        Ok(self.since(begin))
    }

    /// Appends a name to a list of names, separated by a space. The list has to be the last text.
    pub(crate) fn keep_name(
        &mut self,
        names: Option<TextPlace>,
        name: &str,
    ) -> Result<TextPlace, AllocError> {
        let Some(names) = names else {
            return self.keep(name);
        };
        self.all.push_str(" ")?;
        self.all.push_str(name)?;
        Ok(self.since(names.begin))
    }

    /// Appends the text of an address and a port.
    pub(crate) fn keep_socket(&mut self, socket: SocketAddr) -> Result<TextPlace, AllocError> {
        let begin = self.all.len();
        let written = match socket {
            SocketAddr::V4(v4) => push_socket(&mut self.all, *v4.ip(), v4.port()),
            SocketAddr::V6(v6) => write!(self.all, "{v6}"),
        };
        written?;
        Ok(self.since(begin))
    }

    /// Appends the text of an address.
    pub(crate) fn keep_address(&mut self, address: IpAddr) -> Result<TextPlace, AllocError> {
        let begin = self.all.len();
        let written = match address {
            IpAddr::V4(v4) => push_v4(&mut self.all, v4),
            IpAddr::V6(v6) => write!(self.all, "{v6}"),
        };
        written?;
        Ok(self.since(begin))
    }

    // The texts from `begin` on, as one.
    fn since(&self, begin: usize) -> TextPlace {
        TextPlace {
            begin,
            end: self.all.len(),
        }
    }

    /// The text at a place that was returned since the last `clear`.
    pub(crate) fn at(&self, place: TextPlace) -> &str {
        self.all.as_str().get(place.begin..place.end).unwrap_or("")
    }

    /// The text at a place, if there is one.
    pub(crate) fn at_some(&self, place: Option<TextPlace>) -> Option<&str> {
        match place {
            Some(place) => Some(self.at(place)),
            None => None,
        }
    }
}

// Appends an address and a port.
fn push_socket(text: &mut String, address: Ipv4Addr, port: u16) -> Result<(), AllocError> {
    push_v4(text, address)?;
    text.push_str(":")?;
    push_number(text, port)
}

// Appends an address as four numbers.
fn push_v4(text: &mut String, address: Ipv4Addr) -> Result<(), AllocError> {
    let [first, second, third, fourth] = address.octets();
    push_number(text, u16::from(first))?;
    for part in [second, third, fourth] {
        text.push_str(".")?;
        push_number(text, u16::from(part))?;
    }
    Ok(())
}

fn push_number(text: &mut String, number: u16) -> Result<(), AllocError> {
    let mut digits = Buffer::new();
    text.push_str(digits.format(number))
}
