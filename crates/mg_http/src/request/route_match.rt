//! Matches a path against the table of routes, segment by segment.
ghost use Rattle.std.specs.Prelude.{◌≡◌, ◌==◌, ◌⊎◌, [], ◌∷◌, ◌++◌, map, length, option_to_list, IfOk, OnOk, find, if◌then◌else◌};
ghost use Rattle.percent_encoding.specs.Percent.{percent_decode};
ghost use Rattle.std.specs.Iterator.{YieldsFirstRef, item_count};
ghost use Rattle.std.specs.List.{list_any};
ghost use Rattle.std.specs.Option.{option_map};
ghost use Rattle.std.specs.Cow.{cow_slice_items};
ghost use Rattle.mg_http.specs.RouteViews.{part_view, route_of, match_in};
ghost use Rattle.mg_http.specs.Routes.{literal, routes, same_part, segments_of};
ghost use Rattle.mg_http.specs.Segments.{segments_left};
ghost use Rattle.mg_http.specs.Walk.{route_after, routes_after, begins_with, any_begins_with, enter, match_of, ends_here, ends_with_method};

use crate::request::decode::decode_segment;
use crate::request::routes::{Action, Route, RouteSegment, all_routes};
use std::alloc::{AllocError, Global};
use std::borrow::CowSlice;

/// The state of a match: the rest of each route that still matches, and the decoded parameters so far.
#[derive(Drop)]
pub struct RouteMatch {
    pub routes: CowSlice<'static, Route>,
    pub parameters: Vec<Vec<u8>>,
}

/// The segments of a path that are not matched yet.
#[derive(Drop)]
pub struct Segments<'a> {
    rest: Option<&'a [u8]>,
}

impl<'a> Segments<'a> {
    /// Returns all segments of the path; a path that does not begin with a slash has none.
    fn new(path: &'a [u8]) -> Segments<'a>
        ensures { segments_left result ≡ segments_of path.now }
    {
        match path.split_first() {
            Some((b'/', rest)) => Segments { rest: Some(rest) },
            _ => Segments { rest: None },
        }
    }
}

impl<'a> Iterator for Segments<'a> {
    type Item = &'a [u8];

    ghost next_gives = { YieldsFirstRef segments_left };

    ghost remaining = { item_count segments_left };

    fn next(&mut self) -> Option<&'a [u8]> {
        let rest = self.rest?;
        match rest.iter().position(|b| *b == b'/') {
            Some(slash) => {
                self.rest = Some(&rest[slash + 1..]);
                Some(&rest[..slash])
            }
            None => {
                self.rest = None;
                Some(rest)
            }
        }
    }
}

/// Whether two parts are equal.
fn same_part(a: RouteSegment<'_>, b: RouteSegment<'_>) -> bool
    ensures { result ≡ same_part (part_view a.entry) (part_view b.entry) }
{
    match (a, b) {
        (RouteSegment::Literal(a), RouteSegment::Literal(b)) => a == b,
        (RouteSegment::Parameter, RouteSegment::Parameter) => true,
        (RouteSegment::Literal(_), RouteSegment::Parameter) => false,
        (RouteSegment::Parameter, RouteSegment::Literal(_)) => false,
    }
}

/// Returns the rest of the route after the part; `None`: the route's path does not begin with the part.
fn route_after(route: &Route, part: RouteSegment<'_>) -> Option<Route>
    ensures { option_map route_of result ≡ route_after (part_view part.entry) (route_of route.now) }
{
    let (first, rest) = route.path.split_first()?;
    if same_part(*first, part) {
        Some(Route {
            method: route.method,
            path: rest,
            action: route.action,
        })
    } else {
        None
    }
}

/// Appends the rest of a route, if there is one.
///
/// Errors: out of memory.
fn push_some(routes: &mut Vec<Route>, left: Option<Route>) -> Result<(), AllocError>
    ensures { OnOk result (map route_of routes.new.items
        ≡ map route_of routes.old.items ++ option_to_list (option_map route_of left)) }
{
    match left {
        Some(route) => {
            routes.push(route)?;
            Ok(())
        }
        None => Ok(()),
    }
}

/// Returns the rests of the routes whose paths begin with the part.
///
/// Errors: out of memory.
fn routes_after(
    alloc: Global,
    routes: &[Route],
    part: RouteSegment<'_>,
) -> Result<Vec<Route>, AllocError>
    ensures { IfOk result
        (λ v. map route_of v.items ≡ routes_after (part_view part.entry) (map route_of routes.now)) }
{
    let mut routes_after = Vec::new(alloc);
    for route in routes {
        push_some(&mut routes_after, route_after(route, part))?;
    }
    Ok(routes_after)
}

/// Whether the route's path begins with the segment as a literal.
fn begins_with(route: &Route, segment: &[u8]) -> bool
    ensures { result ≡ begins_with (literal segment.now) (route_of route.now).path }
{
    match route.path.first() {
        Some(part) => same_part(*part, RouteSegment::Literal(segment)),
        None => false,
    }
}

/// Whether the path of one of the routes begins with the segment as a literal.
fn any_begins_with(routes: &[Route], segment: &[u8]) -> bool
    ensures { result ≡ any_begins_with (literal segment.now) (map route_of routes.now) }
{
    routes.iter().any(|route| begins_with(route, segment))
}

/// Whether nothing of the route's path is left.
fn ends_here(route: &Route) -> bool
    ensures { result ≡ ends_here (route_of route.now) }
{
    route.path.is_empty()
}

/// Whether nothing of the route's path is left, and it has the method.
fn ends_with_method(route: &Route, method: &[u8]) -> bool
    ensures { result ≡ ends_with_method method.now (route_of route.now) }
{
    ends_here(route) && route.method == method
}

impl RouteMatch {
    /// Begins a match with the first segment, the database's name. No route matches an empty name.
    ///
    /// Errors: out of memory.
    fn new(alloc: Global, name: &[u8]) -> Result<RouteMatch, AllocError>
        ensures { IfOk result (λ p. match_in p ≡ record {
          routes_left = if length name.now == 0 then [] else routes;
          parameters = percent_decode name.now ∷ [];
        }) }
    {
        let mut parameters = Vec::new(alloc);
        parameters.push(decode_segment(alloc, name)?)?;
        if name.is_empty() {
            return Ok(RouteMatch {
                routes: CowSlice::Borrowed(&[]),
                parameters,
            });
        }
        Ok(RouteMatch {
            routes: CowSlice::Borrowed(all_routes()),
            parameters,
        })
    }

    /// Matches one more segment: as a literal if some route that is left has it (`is_literal`), else as a parameter, which no empty
    /// segment matches.
    ///
    /// Errors: out of memory.
    fn enter(
        mut self,
        alloc: Global,
        segment: &[u8],
        is_literal: bool,
    ) -> Result<RouteMatch, AllocError>
        requires { is_literal
            ≡ any_begins_with (literal segment.now) (map route_of (cow_slice_items self.routes)) }
        ensures { IfOk result (λ p. match_in p ≡ enter (match_in self) segment.now) }
    {
        if is_literal {
            self.routes = CowSlice::Owned(routes_after(
                alloc,
                &self.routes,
                RouteSegment::Literal(segment),
            )?);
            return Ok(self);
        }
        self.parameters.push(decode_segment(alloc, segment)?)?;
        self.routes = if segment.is_empty() {
            CowSlice::Borrowed(&[])
        } else {
            CowSlice::Owned(routes_after(alloc, &self.routes, RouteSegment::Parameter)?)
        };
        Ok(self)
    }

    /// Matches the whole path. No route matches a path that does not begin with a slash.
    ///
    /// Errors: out of memory.
    pub(crate) fn of(alloc: Global, path: &[u8]) -> Result<RouteMatch, AllocError>
        ensures { IfOk result (λ p. match_in p ≡ match_of (segments_of path.now)) }
    {
        let mut segments = Segments::new(path);
        let Some(name) = segments.next() else {
            return Ok(RouteMatch {
                routes: CowSlice::Borrowed(&[]),
                parameters: Vec::new(alloc),
            });
        };
        let mut matched = RouteMatch::new(alloc, name)?;
        for segment in segments {
            let is_literal = any_begins_with(&matched.routes, segment);
            matched = matched.enter(alloc, segment, is_literal)?;
        }
        Ok(matched)
    }

    /// Whether some route matches the whole path, with any method.
    pub(crate) fn has_whole_match(&self) -> bool
        ensures { result ≡ list_any ends_here (match_in self.now).routes_left }
    {
        self.routes.iter().any(|route| ends_here(route))
    }

    /// Returns the action of the first route that matches the whole path and has the method; `None`: there is no such route.
    pub(crate) fn action(&self, method: &[u8]) -> Option<Action>
        ensures { result ≡ option_map
            (λ r. r.action) (find (ends_with_method method.now) (match_in self.now).routes_left) }
    {
        let route = self
            .routes
            .iter()
            .find(|route| ends_with_method(route, method))?;
        Some(route.action)
    }
}
