//! The services of the seats of a database.
ghost use Rattle.std.specs.Prelude.{◌≡◌, ◌≤◌, IfOk, map, vec_len};

use mg_http::SeatService;
use mg_live::{Database, Keeper, Seat};
use mg_value::NoMemory;
use std::alloc::Global;

/// Makes a service for each seat, with this number of workers. Errors: `NoMemory` if an allocation fails; then all seats are dropped.
pub(crate) fn services<D: Database, C: Keeper>(
    alloc: Global,
    seats: Vec<Seat<D, C>>,
    workers: usize,
) -> Result<Vec<SeatService<D, C>>, NoMemory>
    requires { (1 ≤ workers) × (workers ≤ 32) }
    ensures count { IfOk result (λ services. vec_len services ≡ vec_len seats) }
    ensures seats { IfOk result (λ services. map (λ service. service.seat) services.items ≡ seats.items) }
    ensures workers { IfOk result (λ services.
        map (λ service. service.workers) services.items ≡ map (λ _. workers) seats.items) }
{
    let mut services = Vec::with_capacity(alloc, seats.len())?;
    for seat in seats {
        services.push(SeatService { seat, workers })?;
    }
    Ok(services)
}

/// Returns the seats of the services. Errors: `NoMemory` if an allocation fails; then all seats are dropped.
pub(crate) fn seats<D: Database, C: Keeper>(
    alloc: Global,
    services: Vec<SeatService<D, C>>,
) -> Result<Vec<Seat<D, C>>, NoMemory>
    ensures { IfOk result (λ seats. seats.items ≡ map (λ service. service.seat) services.items) }
{
    let mut seats = Vec::with_capacity(alloc, services.len())?;
    for service in services {
        let SeatService { seat, workers: _ } = service;
        seats.push(seat)?;
    }
    Ok(seats)
}
