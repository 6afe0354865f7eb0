//! The table of the routes.
ghost use Rattle.std.specs.Prelude.{◌≡◌, map};
ghost use Rattle.mg_http.specs.RouteViews.{route_of};
ghost use Rattle.mg_http.specs.Routes.{routes};

/// An endpoint that takes the body of a message.
#[derive(Clone, Copy, Debug, PartialEq, Eq)]
pub enum Endpoint {
    /// Writes a bulk of documents.
    BulkDocs,
    /// Runs a query.
    Find,
    /// Explains a query.
    Explain,
    /// Creates an index.
    CreateIndex,
    /// Changes the number of shards.
    Reshard,
}

/// What a route asks for.
#[derive(Clone, Copy, Debug, PartialEq, Eq)]
pub enum Action {
    /// What the endpoint does with the body.
    Body(Endpoint),
    /// Reads the document whose id is the parameter after the database's name.
    Document,
    /// Lists the indexes.
    ListIndexes,
    /// Drops the index whose design document and name are the parameters after the database's name.
    DropIndex,
    /// Drops an index like `DropIndex`, but the design document's name is `_design/` followed by its parameter.
    DropDesignIndex,
}

/// A part of a route: one segment of its path.
#[derive(Clone, Copy)]
pub enum RouteSegment<'a> {
    /// Matches the segment that equals it, before percent-decoding.
    Literal(&'a [u8]),
    /// Matches any segment that is not empty.
    Parameter,
}

/// A route: its method, its path after the database's name, and what it asks for.
#[derive(Clone, Copy)]
pub struct Route {
    pub method: &'static [u8],
    pub path: &'static [RouteSegment<'static>],
    pub action: Action,
}

/// The table of the routes, row by row as in the definition (`specs/Routes.antt`).
const ROUTES: [Route; 9] = [
    Route {
        method: b"POST",
        path: &[RouteSegment::Literal(b"_bulk_docs")],
        action: Action::Body(Endpoint::BulkDocs),
    },
    Route {
        method: b"POST",
        path: &[RouteSegment::Literal(b"_explain")],
        action: Action::Body(Endpoint::Explain),
    },
    Route {
        method: b"POST",
        path: &[RouteSegment::Literal(b"_find")],
        action: Action::Body(Endpoint::Find),
    },
    Route {
        method: b"POST",
        path: &[RouteSegment::Literal(b"_index")],
        action: Action::Body(Endpoint::CreateIndex),
    },
    Route {
        method: b"GET",
        path: &[RouteSegment::Literal(b"_index")],
        action: Action::ListIndexes,
    },
    Route {
        method: b"DELETE",
        path: &[
            RouteSegment::Literal(b"_index"),
            RouteSegment::Parameter,
            RouteSegment::Literal(b"json"),
            RouteSegment::Parameter,
        ],
        action: Action::DropIndex,
    },
    Route {
        method: b"DELETE",
        path: &[
            RouteSegment::Literal(b"_index"),
            RouteSegment::Literal(b"_design"),
            RouteSegment::Parameter,
            RouteSegment::Literal(b"json"),
            RouteSegment::Parameter,
        ],
        action: Action::DropDesignIndex,
    },
    Route {
        method: b"POST",
        path: &[RouteSegment::Literal(b"_placement")],
        action: Action::Body(Endpoint::Reshard),
    },
    Route {
        method: b"GET",
        path: &[RouteSegment::Parameter],
        action: Action::Document,
    },
];

/// Returns the table of the routes.
pub(crate) fn all_routes() -> &'static [Route]
    ensures { map route_of result.now ≡ routes }
{
    &ROUTES
}
