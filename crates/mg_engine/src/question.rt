use crate::listing::Listing;
use mg_revtree::Rev;

/// A read that is not a command: what clients of CouchDB ask beside queries and documents. specs/Questions.antt defines each answer.
#[derive(Debug, Drop)]
pub enum Question {
    /// What the database is, as `GET /{db}` shows it: `doc_count` and `doc_del_count`, the documents that are not deleted and those that are;
    /// `update_seq`, the number of commits as a text; `db_name`. The other members are the same for every database here: `cluster` is one
    /// copy of one range; `sizes` are 0, since they are not measured; `disk_format_version` is 1; `purge_seq` and `instance_start_time` are
    /// `"0"`; `compact_running` is false; `props` is empty.
    Database,
    /// The leaf of the document with this id and revision, as `GET /{db}/{id}?rev=` shows it: the winner or another leaf, deleted or not. If
    /// `latest` is true, the best leaf that has this revision or comes of it. If `path` is true, `_revisions` shows the path of its revision.
    /// Status 404 with the reason `missing` for any other revision, since only leaves have bodies.
    Leaf {
        id: String,
        rev: Rev,
        latest: bool,
        path: bool,
    },
    /// The served document with this id, and what is asked for beside it. Status 404 as for `Command::Get`.
    Winner {
        id: String,
        more: More,
    },
    /// The rows of these ids, in their order, as `_all_docs` with `keys` shows them: `{"id":..,"key":..,"value":{"rev":..}}`, with `"doc"` if
    /// `documents` is true; a deleted document has `"deleted":true` in its value and null as its `doc`; for an id that has no document,
    /// `{"error":"not_found","key":..}`. `total_rows` counts all documents that are not deleted; `offset` is 0.
    Keys {
        ids: Vec<String>,
        documents: bool,
    },
    /// The rows of a range of ids, as `_all_docs` shows them. `total_rows` counts all documents that are not deleted; `offset` how many of them
    /// come before the first row.
    Range(Listing),
    /// The design document of this name, as `GET /{db}/_design/{name}` shows one that `_index` made: `language` is `query`, and each of its
    /// indexes is a view. It has no `_rev`. Status 404 with the reason `missing` if no index is of it.
    Design(String),
}

/// What is shown of a document beside its body, as the parameters of `GET /{db}/{id}` ask for it.
#[derive(Clone, Copy, Debug, PartialEq, Eq)]
pub struct More {
    /// `revs`: `_revisions`, `{"ids":[..],"start":N}`, the ids of the revision and of its known ancestors, newest first.
    pub revisions: bool,
    /// `revs_info`: `_revs_info`, these revisions as `{"rev":..,"status":..}`; the status is `available` of the revision that is shown, and
    /// `missing` of its ancestors, of which no body is kept.
    pub revisions_info: bool,
    /// `conflicts`: `_conflicts`, the revisions of the other leaves that are not deleted, best first, if there are any.
    pub conflicts: bool,
    /// `deleted_conflicts`: `_deleted_conflicts`, the revisions of the other leaves that are deleted, best first, if there are any.
    pub deleted_conflicts: bool,
}
