//! Why a connection has no request.

ghost use Rattle.std.specs.Prelude.{◌≡◌, ◌≢◌, IfSome};
ghost use Rattle.http_front.specs.Faults.{post_line, status_of};

use crate::status::Status;
use std::error::Error;
use std::fmt::{self, Display};

/// What is wrong, with the numbers P1 to P9 that are sent and logged. They are found in this order:
/// P1, P6 and P7 while the head arrives, then P2, P3, P4, P1 and P5 of a whole head, then P7.
#[derive(Clone, Copy, Drop)]
pub enum PostFault {
    /// P1: no bytes can follow that make a head (RFC 9112, sections 2 to 5); or a Content-Length
    /// isn't a number, or two give different numbers.
    Head,
    /// P2: the target is not the one that is served.
    Path,
    /// P3: the method is not POST.
    Method,
    /// P4: no Content-Length, or a Transfer-Encoding.
    Length,
    /// P5: a body of more than 1,048,576 bytes.
    TooLarge,
    /// P6: no whole head within 16,384 bytes, or more than 64 header lines.
    HeadTooLarge,
    /// P7: the input ended before the head or the body did.
    Ended,
    /// P8: the reader failed.
    Device,
    /// P9: an allocation failed.
    Memory,
}

impl PostFault {
    /// The status of the reply. P7 and P8 get none: nobody waits for a reply.
    pub fn status(self) -> Option<Status>
        ensures status { result ≡ status_of self }
        ensures refusal { IfSome result (λ status. status ≢ Status.Success) }
    {
        match self {
            PostFault::Head => Some(Status::BadRequest),
            PostFault::Path => Some(Status::NotFound),
            PostFault::Method => Some(Status::MethodNotAllowed),
            PostFault::Length => Some(Status::LengthRequired),
            PostFault::TooLarge => Some(Status::ContentTooLarge),
            PostFault::HeadTooLarge => Some(Status::HeaderFieldsTooLarge),
            PostFault::Memory => Some(Status::InternalServerError),
            PostFault::Ended | PostFault::Device => None,
        }
    }

    /// The number and the name as the line that is sent, with its line feed.
    pub fn line(self) -> &'static str
        ensures { result.now ≡ post_line self }
    {
        match self {
            PostFault::Head => "P1 Head\n",
            PostFault::Path => "P2 Path\n",
            PostFault::Method => "P3 Method\n",
            PostFault::Length => "P4 Length\n",
            PostFault::TooLarge => "P5 TooLarge\n",
            PostFault::HeadTooLarge => "P6 HeadTooLarge\n",
            PostFault::Ended => "P7 Ended\n",
            PostFault::Device => "P8 Device\n",
            PostFault::Memory => "P9 Memory\n",
        }
    }
}

impl Display for PostFault {
    fn fmt<W: fmt::Write>(&self, f: &mut fmt::Formatter<W>) -> fmt::Result {
        f.write_str(self.line().trim_end())
    }
}

impl fmt::Debug for PostFault {
    fn fmt<W: fmt::Write>(&self, f: &mut fmt::Formatter<W>) -> fmt::Result {
        Display::fmt(self, f)
    }
}

impl Error for PostFault {}
