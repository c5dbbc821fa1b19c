//! What is wrong with a request.

ghost use Rattle.std.specs.Prelude.{◌≡◌};
ghost use Rattle.omaha_json.specs.Faults.{omaha_line};

use std::error::Error;
use std::fmt::{self, Display};

/// Why a body isn't a request. If there are several faults, the first is returned. The checks are,
/// in order: that it is JSON, that `request` is an object, the protocol, that `app` is a list, how
/// long it is, and then its items.
#[derive(Clone, Copy, Debug, Drop)]
pub enum OmahaFault {
    /// O1: it isn't a JSON text, nests deeper than 127 levels, or has a number too large for a
    /// float.
    Json,
    /// O2: `request` or an `appid` is missing or of another kind, `app` isn't a list, or an app
    /// isn't an object.
    Shape,
    /// O3: `protocol` isn't the text `3.1`.
    Protocol,
    /// O4: there are more than 256 apps.
    TooManyApps,
    /// O5: an allocation failed, also one for the reply.
    Memory,
}

impl OmahaFault {
    /// The number and the name, as the line that is sent, with its line feed.
    pub fn line(self) -> &'static str
        ensures { result.now ≡ omaha_line self }
    {
        match self {
            OmahaFault::Json => "O1 Json\n",
            OmahaFault::Shape => "O2 Shape\n",
            OmahaFault::Protocol => "O3 Protocol\n",
            OmahaFault::TooManyApps => "O4 TooManyApps\n",
            OmahaFault::Memory => "O5 Memory\n",
        }
    }
}

impl Display for OmahaFault {
    fn fmt<W: fmt::Write>(&self, f: &mut fmt::Formatter<W>) -> fmt::Result {
        f.write_str(self.line().trim_end())
    }
}

impl Error for OmahaFault {}
