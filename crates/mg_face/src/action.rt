//! What a method asks of a resource.
ghost use Rattle.std.specs.Prelude.{◌≡◌};
ghost use Rattle.mg_face.specs.Routes.{verb_of, read_action, post_action, put_action, delete_action, action_of, allowed};

use crate::route::Resource;

/// What a method does. `HEAD` reads as `GET` does.
#[derive(Clone, Copy, Debug, PartialEq, Eq)]
pub enum Verb {
    Read,
    Post,
    Put,
    Delete,
    /// Any other method: no resource has it.
    Other,
}

/// An endpoint that takes the body of a request as it is.
#[derive(Clone, Copy, Debug, PartialEq, Eq)]
pub enum Endpoint {
    /// Runs a query.
    Find,
    /// Explains a query.
    Explain,
    /// Creates an index.
    CreateIndex,
    /// Changes the number of shards.
    Reshard,
}

/// What a request asks for.
#[derive(Clone, Copy, Debug, PartialEq, Eq)]
pub enum Action {
    /// The name and the version of the server.
    Welcome,
    /// Whether the server is up.
    Up,
    /// The names of the databases.
    ListDatabases,
    /// Ids that no document has.
    MakeIds,
    /// What the database is.
    ReadDatabase,
    /// To make the database.
    CreateDatabase,
    /// To delete the database.
    DeleteDatabase,
    /// The rows of documents, by the options of the query.
    ListDocuments,
    /// The rows of documents, by the options of the body too.
    ListDocumentsBy,
    /// That each commit is kept.
    Commit,
    /// To write the documents of a bulk.
    WriteBulk,
    /// What the endpoint does with the body.
    Takes(Endpoint),
    ListIndexes,
    DropIndex,
    /// To drop an index like `DropIndex`; the design document's name is `_design/` followed by its segment.
    DropDesignIndex,
    ReadDocument,
    /// To write a document, whose id the body may have.
    PostDocument,
    /// To write the document of an id.
    PutDocument,
    /// To delete the document of an id.
    DeleteDocument,
    /// A design document.
    ReadDesign,
    /// To write a design document.
    PutDesign,
}

/// Returns what a method does.
pub(crate) fn verb_of(method: &[u8]) -> Verb
    ensures { result ≡ verb_of method.now }
{
    if method == b"GET".as_slice() || method == b"HEAD".as_slice() {
        Verb::Read
    } else if method == b"POST".as_slice() {
        Verb::Post
    } else if method == b"PUT".as_slice() {
        Verb::Put
    } else if method == b"DELETE".as_slice() {
        Verb::Delete
    } else {
        Verb::Other
    }
}

fn read_action(resource: Resource) -> Option<Action>
    ensures { result ≡ read_action resource }
{
    match resource {
        Resource::Root => Some(Action::Welcome),
        Resource::Up => Some(Action::Up),
        Resource::AllDatabases => Some(Action::ListDatabases),
        Resource::Ids => Some(Action::MakeIds),
        Resource::Indexes => Some(Action::ListIndexes),
        Resource::Database => Some(Action::ReadDatabase),
        Resource::AllDocuments => Some(Action::ListDocuments),
        Resource::Document => Some(Action::ReadDocument),
        Resource::Design => Some(Action::ReadDesign),
        _ => None,
    }
}

fn post_action(resource: Resource) -> Option<Action>
    ensures { result ≡ post_action resource }
{
    match resource {
        Resource::Database => Some(Action::PostDocument),
        Resource::AllDocuments => Some(Action::ListDocumentsBy),
        Resource::FullCommit => Some(Action::Commit),
        Resource::BulkDocs => Some(Action::WriteBulk),
        Resource::Find => Some(Action::Takes(Endpoint::Find)),
        Resource::Explain => Some(Action::Takes(Endpoint::Explain)),
        Resource::Indexes => Some(Action::Takes(Endpoint::CreateIndex)),
        Resource::Placement => Some(Action::Takes(Endpoint::Reshard)),
        _ => None,
    }
}

fn put_action(resource: Resource) -> Option<Action>
    ensures { result ≡ put_action resource }
{
    match resource {
        Resource::Database => Some(Action::CreateDatabase),
        Resource::Document => Some(Action::PutDocument),
        Resource::Design => Some(Action::PutDesign),
        _ => None,
    }
}

fn delete_action(resource: Resource) -> Option<Action>
    ensures { result ≡ delete_action resource }
{
    match resource {
        Resource::Database => Some(Action::DeleteDatabase),
        Resource::Document => Some(Action::DeleteDocument),
        Resource::Index => Some(Action::DropIndex),
        Resource::DesignIndex => Some(Action::DropDesignIndex),
        _ => None,
    }
}

/// Returns what a method asks of a resource; `None`: the resource does not have the method.
pub(crate) fn action_of(verb: Verb, resource: Resource) -> Option<Action>
    ensures { result ≡ action_of verb resource }
{
    match verb {
        Verb::Read => read_action(resource),
        Verb::Post => post_action(resource),
        Verb::Put => put_action(resource),
        Verb::Delete => delete_action(resource),
        Verb::Other => None,
    }
}

/// Returns the methods that a resource has, as `Allow` lists them.
pub(crate) fn allowed(resource: Resource) -> &'static [u8]
    ensures { result.now ≡ allowed resource }
{
    match resource {
        Resource::Root => b"GET, HEAD",
        Resource::Up => b"GET, HEAD",
        Resource::AllDatabases => b"GET, HEAD",
        Resource::Ids => b"GET, HEAD",
        Resource::Database => b"DELETE, GET, HEAD, POST, PUT",
        Resource::AllDocuments => b"GET, HEAD, POST",
        Resource::FullCommit => b"POST",
        Resource::BulkDocs => b"POST",
        Resource::Find => b"POST",
        Resource::Explain => b"POST",
        Resource::Indexes => b"GET, HEAD, POST",
        Resource::Index => b"DELETE",
        Resource::DesignIndex => b"DELETE",
        Resource::Placement => b"POST",
        Resource::Design => b"GET, HEAD, PUT",
        Resource::Document => b"DELETE, GET, HEAD, PUT",
        Resource::Nowhere => b"",
    }
}
