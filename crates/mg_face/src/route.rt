//! What a path names.
ghost use Rattle.std.specs.Prelude.{◌≡◌, ◌==◌, ◌||◌, bytes_eq, drop, map, IfOk};
ghost use Rattle.std.specs.List.{slice_split};
ghost use Rattle.percent_encoding.specs.Percent.{percent_decode};
ghost use Rattle.mg_face.specs.Routes.{segments_of, is_reserved, server_resource, database_resource, three_resource, index_resource, design_resource, resource_of, is_nowhere, is_of_server, names};

use percent_encoding::percent_decode;
use std::alloc::{AllocError, Global};
use std::borrow::CowSlice;

/// What a path names.
#[derive(Clone, Copy, Debug, PartialEq, Eq)]
pub enum Resource {
    /// `/`
    Root,
    /// `/_up`
    Up,
    /// `/_all_dbs`
    AllDatabases,
    /// `/_uuids`
    Ids,
    /// `/{db}`
    Database,
    /// `/{db}/_all_docs`
    AllDocuments,
    /// `/{db}/_ensure_full_commit`
    FullCommit,
    /// `/{db}/_bulk_docs`
    BulkDocs,
    /// `/{db}/_find`
    Find,
    /// `/{db}/_explain`
    Explain,
    /// `/{db}/_index`
    Indexes,
    /// `/{db}/_index/{ddoc}/json/{name}`
    Index,
    /// `/{db}/_index/_design/{ddoc}/json/{name}`
    DesignIndex,
    /// `/{db}/_placement`
    Placement,
    /// `/{db}/_design/{name}`
    Design,
    /// `/{db}/{id}`
    Document,
    /// Nothing that this server has.
    Nowhere,
}

/// Splits the bytes at each slash.
fn split_at_slashes(alloc: Global, bytes: &[u8]) -> Result<Vec<&[u8]>, AllocError>
    ensures { IfOk result (λ v. map (λ s. s.now) v.items ≡ slice_split (λ c. c == 47) bytes.now) }
{
    bytes.split(|b| *b == b'/').collect(alloc)
}

/// Splits the bytes at each slash, and leaves out what comes before the third one.
fn split_after_authority(alloc: Global, bytes: &[u8]) -> Result<Vec<&[u8]>, AllocError>
    ensures { IfOk result (λ v. map (λ s. s.now) v.items ≡ drop 3 (slice_split (λ c. c == 47) bytes.now)) }
{
    bytes.split(|b| *b == b'/').skip(3).collect(alloc)
}

/// Returns the segments of a path; that of a target in absolute form begins with its scheme and its authority.
///
/// Errors: out of memory.
pub(crate) fn segments_of(alloc: Global, path: &[u8]) -> Result<Vec<&[u8]>, AllocError>
    ensures { IfOk result (λ v. map (λ s. s.now) v.items ≡ segments_of path.now) }
{
    match path.split_first() {
        Some((b'/', rest)) => split_at_slashes(alloc, rest),
        Some(_) => split_after_authority(alloc, path),
        None => Ok(Vec::new(alloc)),
    }
}

fn is_reserved(segment: &[u8]) -> bool
    ensures { result ≡ is_reserved segment.now }
{
    match segment.split_first() {
        Some((first, _)) => *first == b'_',
        None => false,
    }
}

fn server_resource(segment: &[u8]) -> Resource
    ensures { result ≡ server_resource segment.now }
{
    if segment.is_empty() {
        Resource::Root
    } else if segment == b"_up".as_slice() {
        Resource::Up
    } else if segment == b"_all_dbs".as_slice() {
        Resource::AllDatabases
    } else if segment == b"_uuids".as_slice() {
        Resource::Ids
    } else if is_reserved(segment) {
        Resource::Nowhere
    } else {
        Resource::Database
    }
}

fn database_resource(segment: &[u8]) -> Resource
    ensures { result ≡ database_resource segment.now }
{
    if segment.is_empty() {
        Resource::Database
    } else if segment == b"_all_docs".as_slice() {
        Resource::AllDocuments
    } else if segment == b"_bulk_docs".as_slice() {
        Resource::BulkDocs
    } else if segment == b"_find".as_slice() {
        Resource::Find
    } else if segment == b"_explain".as_slice() {
        Resource::Explain
    } else if segment == b"_index".as_slice() {
        Resource::Indexes
    } else if segment == b"_ensure_full_commit".as_slice() {
        Resource::FullCommit
    } else if segment == b"_placement".as_slice() {
        Resource::Placement
    } else if is_reserved(segment) {
        Resource::Nowhere
    } else {
        Resource::Document
    }
}

fn three_resource(design: &[u8]) -> Resource
    ensures { result ≡ three_resource design.now }
{
    if design == b"_design".as_slice() {
        Resource::Design
    } else {
        Resource::Nowhere
    }
}

fn index_resource(indexes: &[u8], json: &[u8]) -> Resource
    ensures { result ≡ index_resource indexes.now json.now }
{
    if indexes == b"_index".as_slice() && json == b"json".as_slice() {
        Resource::Index
    } else {
        Resource::Nowhere
    }
}

fn design_resource(indexes: &[u8], design: &[u8], json: &[u8]) -> Resource
    ensures { result ≡ design_resource indexes.now design.now json.now }
{
    if indexes == b"_index".as_slice()
        && design == b"_design".as_slice()
        && json == b"json".as_slice()
    {
        Resource::DesignIndex
    } else {
        Resource::Nowhere
    }
}

/// Returns what the segments of a path name.
pub(crate) fn resource_of(segments: &[&[u8]]) -> Resource
    ensures { result ≡ resource_of (map (λ s. s.now) segments.now) }
{
    match segments {
        [segment] => server_resource(*segment),
        [_, segment] => database_resource(*segment),
        [_, design, _] => three_resource(*design),
        [_, indexes, _, json, _] => index_resource(*indexes, *json),
        [_, indexes, design, _, json, _] => design_resource(*indexes, *design, *json),
        _ => Resource::Nowhere,
    }
}

/// Whether there is no such resource.
pub(crate) fn is_nowhere(resource: Resource) -> bool
    ensures { result ≡ is_nowhere resource }
{
    match resource {
        Resource::Nowhere => true,
        _ => false,
    }
}

fn is_of_server(resource: Resource) -> bool
    ensures { result ≡ is_of_server resource }
{
    match resource {
        Resource::Root | Resource::Up | Resource::AllDatabases | Resource::Ids => true,
        _ => false,
    }
}

/// Whether the segment encodes the text.
///
/// Errors: out of memory.
fn is_encoded(alloc: Global, text: &str, segment: &[u8]) -> Result<bool, AllocError>
    ensures { IfOk result (λ b. b ≡ bytes_eq (percent_decode segment.now) text.now) }
{
    match percent_decode(segment).into_cow(alloc)? {
        CowSlice::Borrowed(bytes) => Ok(bytes == text.as_bytes()),
        CowSlice::Owned(bytes) => Ok(bytes.as_slice() == text.as_bytes()),
    }
}

/// Whether the first segment names the database.
///
/// Errors: out of memory.
fn names(alloc: Global, db: &str, segments: &[&[u8]]) -> Result<bool, AllocError>
    ensures { IfOk result (λ b. b ≡ names db.now (map (λ s. s.now) segments.now)) }
{
    match segments {
        [name, ..] => is_encoded(alloc, db, *name),
        [] => Ok(false),
    }
}

/// Whether the resource is of the server, or of the database.
///
/// Errors: out of memory.
pub(crate) fn is_here(
    alloc: Global,
    db: &str,
    resource: Resource,
    segments: &[&[u8]],
) -> Result<bool, AllocError>
    ensures { IfOk result (λ b. b ≡ (is_of_server resource || names db.now (map (λ s. s.now) segments.now))) }
{
    if is_of_server(resource) {
        Ok(true)
    } else {
        names(alloc, db, segments)
    }
}
