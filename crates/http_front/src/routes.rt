//! The paths of requests.

ghost use Rattle.std.specs.Prelude.{◌≡◌, map, true, false, IfOk, MatchOption};
ghost use Rattle.std.specs.Str.{is_utf8};
ghost use Rattle.http_front.specs.Routes.{rows_of, all_routes, route_at, list_in, resource_on, resource_at, for_role, resource_of, verb_of, verb_text};

use crate::cuts::split_at_first;
use crate::numbers::small_number;
use item_model::{Browse, Target};
use matchit::Router;
use share_asks::{Role, Verb};
use std::alloc::{AllocError, Global};

/// What the router finds for a path.
#[derive(Clone, Copy, PartialEq, Eq)]
pub enum Route {
    ServerInfo,
    Codes,
    Login,
    Logout,
    Update,
    Databases,
    Lists,
    Items,
    /// The items of the container whose number is in the path.
    Members,
    Values(Browse),
    Edit,
    Stop,
}

/// The resource that a path names.
#[derive(Clone, Copy, PartialEq, Eq)]
pub enum Resource {
    ServerInfo,
    Codes,
    Login,
    Logout,
    Update,
    Databases,
    Lists,
    Rows(Target),
    Values(Browse),
    Edit,
    Stop,
}

static ROUTES: [(&str, Route); 15] = [
    ("/server-info", Route::ServerInfo),
    ("/content-codes", Route::Codes),
    ("/login", Route::Login),
    ("/logout", Route::Logout),
    ("/update", Route::Update),
    ("/databases", Route::Databases),
    ("/databases/1/containers", Route::Lists),
    ("/databases/1/items", Route::Items),
    ("/databases/1/containers/{list}/items", Route::Members),
    (
        "/databases/1/browse/artists",
        Route::Values(Browse::Artists),
    ),
    ("/databases/1/browse/albums", Route::Values(Browse::Albums)),
    ("/databases/1/browse/genres", Route::Values(Browse::Genres)),
    (
        "/databases/1/browse/composers",
        Route::Values(Browse::Composers),
    ),
    ("/edit", Route::Edit),
    ("/stop", Route::Stop),
];

/// The offset of a container's number in its path.
const LIST_AT: usize = 24;

/// Returns a router of all paths.
#[tactic(auto, unfolding(crate::specs::Routes::all_routes))]
pub fn router(alloc: Global) -> Result<Router<Route>, AllocError>
    ensures { IfOk result (λ router. router ≡ all_routes) }
{
    router_of(alloc, &ROUTES)
}

fn router_of(alloc: Global, table: &[(&str, Route)]) -> Result<Router<Route>, AllocError>
    ensures { IfOk result (λ router. router
        ≡ rows_of (map (λ entry. (entry.0.now, entry.1)) table.now)) }
{
    let mut router = Router::new(alloc);
    for (path, route) in table {
        // No two of the paths conflict, so only allocation can fail.
        if router.insert(path, *route).is_err() {
            return Err(AllocError);
        }
    }
    Ok(router)
}

/// Returns the resource that a path names for a role.
pub fn resource_of(router: &Router<Route>, role: Role, path: &[u8]) -> Option<Resource>
    requires { router.now ≡ all_routes }
    ensures { result ≡ resource_of role path.now }
{
    let text = text_of(path)?;
    for_role(role, resource_at(router, text)?)
}

fn text_of(path: &[u8]) -> Option<&str>
    ensures { MatchOption result (is_utf8 path.now ≡ false) (λ text. (text.now ≡ path.now)
        × (is_utf8 path.now ≡ true)) }
{
    match str::from_utf8(path) {
        Ok(text) => Some(text),
        Err(_) => None,
    }
}

fn resource_at(router: &Router<Route>, path: &str) -> Option<Resource>
    requires { router.now ≡ all_routes }
    ensures { result ≡ resource_at path.now }
{
    resource_on(route_at(router, path)?, path.as_bytes())
}

#[tactic(auto, unfolding(crate::specs::Routes::route_at))]
fn route_at(router: &Router<Route>, path: &str) -> Option<Route>
    requires { router.now ≡ all_routes }
    ensures { result ≡ route_at path.now }
{
    match router.at(path) {
        Ok(found) => Some(*found.value),
        Err(_) => None,
    }
}

fn resource_on(route: Route, path: &[u8]) -> Option<Resource>
    ensures { result ≡ resource_on route path.now }
{
    Some(match route {
        Route::ServerInfo => Resource::ServerInfo,
        Route::Codes => Resource::Codes,
        Route::Login => Resource::Login,
        Route::Logout => Resource::Logout,
        Route::Update => Resource::Update,
        Route::Databases => Resource::Databases,
        Route::Lists => Resource::Lists,
        Route::Items => Resource::Rows(Target::Items),
        Route::Members => return members_on(path),
        Route::Values(browse) => Resource::Values(browse),
        Route::Edit => Resource::Edit,
        Route::Stop => Resource::Stop,
    })
}

fn members_on(path: &[u8]) -> Option<Resource>
    ensures { result ≡ resource_on Route.Members path.now }
{
    Some(Resource::Rows(Target::Container(list_in(path)?)))
}

#[tactic(auto, using(std::proofs::lemmas::List::drop_min))]
fn list_in(path: &[u8]) -> Option<u32>
    ensures { result ≡ list_in path.now }
{
    let (_, rest) = path.split_at(LIST_AT.min(path.len()));
    let (list, _) = split_at_first(rest, b'/');
    small_number(list)
}

fn for_role(role: Role, resource: Resource) -> Option<Resource>
    ensures { result ≡ for_role role resource }
{
    match (role, resource) {
        (Role::Listen, Resource::Edit | Resource::Stop) => None,
        _ => Some(resource),
    }
}

/// Returns the method of requests to a resource.
pub fn verb_of(resource: Resource) -> Verb
    ensures { result ≡ verb_of resource }
{
    match resource {
        Resource::Edit | Resource::Stop => Verb::Post,
        _ => Verb::Get,
    }
}

pub fn verb_text(verb: Verb) -> &'static str
    ensures { result.now ≡ verb_text verb }
{
    match verb {
        Verb::Get => "GET",
        Verb::Post => "POST",
    }
}
