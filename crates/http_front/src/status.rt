//! The statuses of a reply.

ghost use Rattle.std.specs.Prelude.{◌≡◌, ◌≤◌, length};
ghost use Rattle.http_front.specs.Reply.{code_of, reason_of, type_of, allow_line};

/// The statuses of replies (RFC 9110, section 15; 431 is of RFC 6585, section 5).
#[derive(Clone, Copy, PartialEq, Eq, Drop)]
pub enum Status {
    /// 200
    Success,
    /// 400
    BadRequest,
    /// 404
    NotFound,
    /// 405
    MethodNotAllowed,
    /// 411
    LengthRequired,
    /// 413
    ContentTooLarge,
    /// 431
    HeaderFieldsTooLarge,
    /// 500
    InternalServerError,
    /// 503
    ServiceUnavailable,
}

impl Status {
    /// The number, of three digits.
    pub fn code(self) -> u16
        ensures { result ≡ code_of self }
    {
        match self {
            Status::Success => 200,
            Status::BadRequest => 400,
            Status::NotFound => 404,
            Status::MethodNotAllowed => 405,
            Status::LengthRequired => 411,
            Status::ContentTooLarge => 413,
            Status::HeaderFieldsTooLarge => 431,
            Status::InternalServerError => 500,
            Status::ServiceUnavailable => 503,
        }
    }

    /// The reason phrase after the number in the status line.
    pub fn reason(self) -> &'static [u8]
        ensures text { result.now ≡ reason_of self }
        ensures short { length result.now ≤ 31 }
    {
        match self {
            Status::Success => b"OK",
            Status::BadRequest => b"Bad Request",
            Status::NotFound => b"Not Found",
            Status::MethodNotAllowed => b"Method Not Allowed",
            Status::LengthRequired => b"Length Required",
            Status::ContentTooLarge => b"Content Too Large",
            Status::HeaderFieldsTooLarge => b"Request Header Fields Too Large",
            Status::InternalServerError => b"Internal Server Error",
            Status::ServiceUnavailable => b"Service Unavailable",
        }
    }

    /// The media type of the reply's body.
    pub fn content_type(self) -> &'static [u8]
        ensures text { result.now ≡ type_of self }
        ensures short { length result.now ≤ 31 }
    {
        match self {
            Status::Success => b"application/json; charset=utf-8",
            _ => b"text/plain",
        }
    }

    // The line with the allowed methods, if the reply has one.
    pub(crate) fn allow_line(self) -> &'static [u8]
        ensures text { result.now ≡ allow_line self }
        ensures short { length result.now ≤ 13 }
    {
        match self {
            Status::MethodNotAllowed => b"Allow: POST\r\n",
            _ => b"",
        }
    }
}
