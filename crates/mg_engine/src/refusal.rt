ghost use Rattle.std.specs.Prelude.{◌≡◌};
ghost use Rattle.mg_engine.specs.Refusals.{status_of, refusal_body};

/// The body of `InvalidJson`.
pub const INVALID_JSON: &str = "{\"error\":\"bad_request\",\"reason\":\"Invalid JSON.\"}\n";
/// The body of `WrongShape`.
pub const WRONG_SHAPE: &str = "{\"error\":\"bad_request\",\"reason\":\"Wrong shape.\"}\n";
/// The body of `InvalidOperator`.
pub const INVALID_OPERATOR: &str =
    "{\"error\":\"invalid_operator\",\"reason\":\"Unknown operator.\"}\n";
/// The body of `BadArg`.
pub const BAD_ARG: &str = "{\"error\":\"bad_arg\",\"reason\":\"Bad argument for an operator.\"}\n";
/// The body of `BadBookmark`.
pub const BAD_BOOKMARK: &str =
    "{\"error\":\"invalid_bookmark\",\"reason\":\"Invalid bookmark.\"}\n";
/// The body of `MixedSort`.
pub const MIXED_SORT: &str =
    "{\"error\":\"unsupported_mixed_sort\",\"reason\":\"Sorts currently only support a single direction for all fields.\"}\n";
/// The body of `NoUsableIndex`.
pub const NO_USABLE_INDEX: &str =
    "{\"error\":\"no_usable_index\",\"reason\":\"No index exists for this sort, try indexing by the sort fields.\"}\n";
/// The body of `BadMember`.
pub const BAD_MEMBER: &str =
    "{\"error\":\"doc_validation\",\"reason\":\"Bad special document member.\"}\n";
/// The body of `BadId`.
pub const BAD_ID: &str = "{\"error\":\"doc_validation\",\"reason\":\"Bad document id.\"}\n";
/// The body of `BadRev`.
pub const BAD_REV: &str = "{\"error\":\"doc_validation\",\"reason\":\"Invalid rev format.\"}\n";
/// The body of `Missing`.
pub const MISSING: &str = "{\"error\":\"not_found\",\"reason\":\"missing\"}\n";
/// The body of `Deleted`.
pub const DELETED: &str = "{\"error\":\"not_found\",\"reason\":\"deleted\"}\n";
/// The body of `NoDatabase`.
pub const NO_DATABASE: &str = "{\"error\":\"not_found\",\"reason\":\"Database does not exist.\"}\n";
/// The body of `MethodNotAllowed`.
pub const METHOD_NOT_ALLOWED: &str =
    "{\"error\":\"method_not_allowed\",\"reason\":\"Method not allowed.\"}\n";
/// The body of `LengthRequired`.
pub const LENGTH_REQUIRED: &str =
    "{\"error\":\"length_required\",\"reason\":\"Content-Length required.\"}\n";
/// The body of `TooLarge`.
pub const TOO_LARGE: &str = "{\"error\":\"too_large\",\"reason\":\"Request too large.\"}\n";
/// The body of `HeadTooLarge`.
pub const HEAD_TOO_LARGE: &str =
    "{\"error\":\"head_too_large\",\"reason\":\"Request head too large.\"}\n";
/// The body of `OutOfMemory`.
pub const OUT_OF_MEMORY: &str = "{\"error\":\"out_of_memory\",\"reason\":\"Out of memory.\"}\n";
/// The body of `BadHead`.
pub const BAD_HEAD: &str = "{\"error\":\"bad_head\",\"reason\":\"Bad request head.\"}\n";

/// The `error` of an edit that is a conflict.
pub const CONFLICT_ERROR: &str = "conflict";
/// The `reason` of an edit that is a conflict.
pub const CONFLICT_REASON: &str = "Document update conflict.";
/// The `error` of an edit whose revision history does not fit the document.
pub const BAD_HISTORY_ERROR: &str = "bad_history";
/// The `reason` of an edit whose revision history does not fit the document.
pub const BAD_HISTORY_REASON: &str = "Revision history does not fit the document.";

/// Why a request is refused. specs/Refusals.antt spells out the texts once more; `body`, which uses the constants above, is proved to
/// return those texts.
#[derive(Clone, Copy, PartialEq, Eq, Debug, Drop)]
pub enum Refusal {
    /// The body is not JSON, nests more than 127 deep, or has a number that is not a 64-bit integer.
    InvalidJson,
    /// The body does not have the shape that the request needs.
    WrongShape,
    /// A selector has an unknown operator.
    InvalidOperator,
    /// An operator of a selector does not allow its argument, or a path of the selector has an empty step.
    BadArg,
    /// The bookmark of a query is malformed, or belongs to another index or direction, or its key has another number of values than the
    /// index has columns.
    BadBookmark,
    /// A sort, or an index, has columns in both directions.
    MixedSort,
    /// No index serves the sort of a query.
    NoUsableIndex,
    /// A document has an unknown reserved member, or a `_deleted` that is neither true nor false.
    BadMember,
    /// The `_id` of a document is not a string, is empty, or begins with an underscore.
    BadId,
    /// The `_rev` or `_revisions` of a document is malformed, or missing where it is required.
    BadRev,
    /// There is no such document, index or path.
    Missing,
    /// The document is deleted.
    Deleted,
    /// The target names another database.
    NoDatabase,
    /// The path matches a route, but no route with this path has the method.
    MethodNotAllowed,
    /// The head of a `POST` has no `Content-Length`, or a head has a `Transfer-Encoding`.
    LengthRequired,
    /// The body would be too long, or the database can count no more commits.
    TooLarge,
    /// The head is too long, or has too many fields.
    HeadTooLarge,
    /// An allocation failed.
    OutOfMemory,
    /// The bytes cannot begin a head, or the head has a malformed `Content-Length` or two different ones.
    BadHead,
}

impl Refusal {
    /// Returns the status of the reply.
    pub fn status(self) -> u16
        ensures { result ≡ status_of self }
    {
        match self {
            Refusal::Missing | Refusal::Deleted | Refusal::NoDatabase => 404,
            Refusal::MethodNotAllowed => 405,
            Refusal::LengthRequired => 411,
            Refusal::TooLarge => 413,
            Refusal::HeadTooLarge => 431,
            Refusal::OutOfMemory => 503,
            _ => 400,
        }
    }

    /// Returns the body of the reply: the compact text of `{"error":..,"reason":..}` and a line feed.
    pub fn body(self) -> &'static str
        ensures { result.now ≡ refusal_body self }
    {
        match self {
            Refusal::InvalidJson => INVALID_JSON,
            Refusal::WrongShape => WRONG_SHAPE,
            Refusal::InvalidOperator => INVALID_OPERATOR,
            Refusal::BadArg => BAD_ARG,
            Refusal::BadBookmark => BAD_BOOKMARK,
            Refusal::MixedSort => MIXED_SORT,
            Refusal::NoUsableIndex => NO_USABLE_INDEX,
            Refusal::BadMember => BAD_MEMBER,
            Refusal::BadId => BAD_ID,
            Refusal::BadRev => BAD_REV,
            Refusal::Missing => MISSING,
            Refusal::Deleted => DELETED,
            Refusal::NoDatabase => NO_DATABASE,
            Refusal::MethodNotAllowed => METHOD_NOT_ALLOWED,
            Refusal::LengthRequired => LENGTH_REQUIRED,
            Refusal::TooLarge => TOO_LARGE,
            Refusal::HeadTooLarge => HEAD_TOO_LARGE,
            Refusal::OutOfMemory => OUT_OF_MEMORY,
            Refusal::BadHead => BAD_HEAD,
        }
    }
}
