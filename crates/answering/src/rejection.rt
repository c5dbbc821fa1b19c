//! The reply to a refused request: a status, and a line that names what is wrong. The lines are
//! constants, so they need no memory.

ghost use Rattle.std.specs.Prelude.{◌≡◌};
ghost use Rattle.http_front.specs.Faults.{post_name};
ghost use Rattle.answering.specs.Reply as specs;

use hot_swap::SwapFault;
use http_front::{PostFault, Status};
use omaha_json::OmahaFault;
use std::marker::Model;

/// A refusal of a request, as it is sent. Its status isn't 200.
#[derive(Drop)]
pub struct Rejection {
    status: Status,
    line: &'static [u8],
}

impl Model for Rejection {
    ghost use Rattle.answering.specs.Reply as specs;

    ghost Value = { specs.HttpReply };

    ghost view = { λ r. record { status = r.status; text = r.line.now } };

    ghost invariant = { λ r. specs.IsRefusalStatus r.status };
}

impl Rejection {
    /// The ruleset can't have another owner.
    pub fn no_place() -> Rejection
        ensures { result ≡ specs.no_place }
    {
        Rejection {
            status: Status::InternalServerError,
            line: SwapFault::NoPlace.line().as_bytes(),
        }
    }

    /// What the runs did to the counters isn't stored.
    pub fn uncovered() -> Rejection
        ensures { result ≡ specs.uncovered }
    {
        Rejection {
            status: Status::ServiceUnavailable,
            line: b"K4 Store\n",
        }
    }

    /// The refusal of a body.
    pub fn of_omaha(fault: OmahaFault) -> Rejection
        ensures { result ≡ specs.omaha_rejection fault }
    {
        Rejection {
            status: omaha_status(fault),
            line: fault.line().as_bytes(),
        }
    }

    /// The refusal, with this status, of a head, or of a body that can't be read.
    pub fn of_post(fault: PostFault, status: Status) -> Rejection
        requires { specs.IsRefusalStatus status }
        ensures { result ≡ specs.rejection status (post_name fault) }
    {
        Rejection {
            status,
            line: fault.line().as_bytes(),
        }
    }

    /// The status, which isn't 200.
    pub fn status(&self) -> Status
        ensures status { result ≡ self.now.status }
        ensures refusal { specs.IsRefusalStatus self.now.status }
    {
        self.status
    }

    /// The line.
    pub fn line(&self) -> &'static [u8]
        ensures { result.now ≡ self.now.text }
    {
        self.line
    }
}

// Out of memory is the server's fault, any other fault is the client's.
fn omaha_status(fault: OmahaFault) -> Status
    ensures status { result ≡ specs.omaha_status fault }
    ensures refusal { specs.IsRefusalStatus result }
{
    match fault {
        OmahaFault::Json | OmahaFault::Shape | OmahaFault::Protocol | OmahaFault::TooManyApps =>
            Status::BadRequest,
        OmahaFault::Memory => Status::InternalServerError,
    }
}
