//! What is said at once.
use crate::count::CountFault;
use crate::fault::Fault;
use crate::parameter::Parameter;
use crate::place::Fraction;
use crate::route::Resource;
use mg_engine::Refusal;

/// Where a document and its request disagree.
#[derive(Clone, Copy, Debug, PartialEq, Eq)]
pub enum Clash {
    Ids,
    Revisions,
}

/// What is said to a request without asking the database.
#[derive(Debug, Drop)]
pub enum Said {
    /// The name and the version of the server.
    Welcome,
    /// The server is up.
    Up,
    /// The names of the databases.
    Databases,
    /// So many ids, the first of which has this number.
    Ids(u128, usize),
    /// The number of ids is refused.
    BadCount(CountFault),
    /// The database cannot be made: it is there.
    DatabaseExists,
    /// The server makes and deletes no database.
    OneDatabase,
    /// Each commit is kept.
    Committed,
    /// The resource does not have the method.
    NotAllowed(Resource),
    /// The query has a parameter that is not answered.
    Unanswered(Parameter),
    /// The document has another id or revision than the request.
    Clashes(Clash),
    /// The text that the query gives as a revision is none.
    BadRevision,
    /// A member of the body has the wrong shape.
    Wrong(Fault),
    /// The body is a JSON text with a number that is not whole: the first one.
    NotWhole(Option<Fraction>),
    /// The document has attachments.
    Attached,
    /// A design document is not written: an index is made by `_index`.
    NoDesign,
    Refuses(Refusal),
}

impl Said {
    /// Whether it says that the store keeps writes.
    pub(crate) fn is_of_store(&self) -> bool {
        matches!(self, Said::Up | Said::Committed)
    }
}
