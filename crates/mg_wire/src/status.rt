//! The statuses that a service may give.
ghost use Rattle.std.specs.Prelude.{◌≡◌};
ghost use Rattle.mg_wire.specs.Status.{code_of, has_content, reason_of};

/// A final status (RFC 9110, section 15). A response with any of them can be sent; one with `NotModified` has no content.
#[derive(Clone, Copy, Debug, PartialEq, Eq)]
pub enum Status {
    Ok,
    Created,
    Accepted,
    NotModified,
    BadRequest,
    Unauthorized,
    Forbidden,
    NotFound,
    MethodNotAllowed,
    NotAcceptable,
    Conflict,
    PreconditionFailed,
    ContentTooLarge,
    UnsupportedMediaType,
    InternalServerError,
    NotImplemented,
    ServiceUnavailable,
}

impl Status {
    /// The three digits of the status line.
    pub fn code(self) -> u16
        ensures { result ≡ code_of self }
    {
        match self {
            Status::Ok => 200,
            Status::Created => 201,
            Status::Accepted => 202,
            Status::NotModified => 304,
            Status::BadRequest => 400,
            Status::Unauthorized => 401,
            Status::Forbidden => 403,
            Status::NotFound => 404,
            Status::MethodNotAllowed => 405,
            Status::NotAcceptable => 406,
            Status::Conflict => 409,
            Status::PreconditionFailed => 412,
            Status::ContentTooLarge => 413,
            Status::UnsupportedMediaType => 415,
            Status::InternalServerError => 500,
            Status::NotImplemented => 501,
            Status::ServiceUnavailable => 503,
        }
    }

    /// Whether the response has content.
    pub fn has_content(self) -> bool
        ensures { result ≡ has_content self }
    {
        match self {
            Status::NotModified => false,
            _ => true,
        }
    }

    /// The reason phrase of the status line.
    pub fn reason(self) -> &'static [u8]
        ensures { result.now ≡ reason_of self }
    {
        match self {
            Status::Ok => b"OK",
            Status::Created => b"Created",
            Status::Accepted => b"Accepted",
            Status::NotModified => b"Not Modified",
            Status::BadRequest => b"Bad Request",
            Status::Unauthorized => b"Unauthorized",
            Status::Forbidden => b"Forbidden",
            Status::NotFound => b"Not Found",
            Status::MethodNotAllowed => b"Method Not Allowed",
            Status::NotAcceptable => b"Not Acceptable",
            Status::Conflict => b"Conflict",
            Status::PreconditionFailed => b"Precondition Failed",
            Status::ContentTooLarge => b"Content Too Large",
            Status::UnsupportedMediaType => b"Unsupported Media Type",
            Status::InternalServerError => b"Internal Server Error",
            Status::NotImplemented => b"Not Implemented",
            Status::ServiceUnavailable => b"Service Unavailable",
        }
    }
}
