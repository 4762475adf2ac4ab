// The vertices of the mesh: vertex v is the occupied station number v.
ghost use Rattle.std.specs.Prelude.{◌≡◌, ◌+◌, ◌*◌, ◌≤◌, ◌<◌, length, take};
ghost use Rattle.network.specs.Words.{occupied};
ghost use Rattle.network.specs.Views.{counts_in, order_in, points_in};
ghost use Rattle.stations.specs.Unit.{coordinates};
ghost use Rattle.routing.specs.Route.{vertex_of};
ghost use Rattle.routing.specs.Stages.Store.{Rising};

use network::lists::Stations;
use numbers::order::at;

/// The vertices of a mesh: the c occupied stations, in order, each the second of two numbers.
#[derive(Clone, Copy)]
pub(crate) struct Vertices<'a> {
    pub c: usize,
    pub stations: &'a [u32],
    pub ghost few: { c ≤ 4096 },
    pub ghost rising: { Rising (order_in c stations.now) },
}

// Writes the occupied stations, in order, as the second of two numbers each.
#[tactic(auto, using(crate::proofs::crossings::Occupied::noted))]
fn write_occupied(station_count: usize, stations: &mut [u32])
    requires few_stations { station_count ≤ 4096 }
    requires stations_fit { 2 * station_count ≤ length stations.old }
    ensures stations_unchanged { counts_in station_count stations.new
        ≡ counts_in station_count stations.old }
    ensures stations_after { order_in (length (occupied (counts_in station_count stations.old)))
        stations.new ≡ occupied (counts_in station_count stations.old) }
{
    let mut r = 0;
    for s in 0..station_count {
        if stations[2 * s] > 0 {
            stations[2 * r + 1] = s as u32;
            r += 1;
        }
    }
}

/// How many vertices there are. Writes the occupied stations, in order, as the second of two
/// numbers each, and their places to the front of `path`.
pub(crate) fn occupied_vertices(
    station_count: usize,
    stations: &mut [u32],
    places: &[f64],
    path: &mut [f64],
) -> usize
    requires few_stations { station_count ≤ 4096 }
    requires stations_fit { 2 * station_count ≤ length stations.old }
    requires places_given { 2 * station_count ≤ length places.now }
    requires path_fits { 2 * station_count ≤ length path.old }
    ensures counted { result ≡ length (occupied (counts_in station_count stations.old)) }
    ensures stations_unchanged { counts_in station_count stations.new
        ≡ counts_in station_count stations.old }
    ensures stations_after { order_in result stations.new
        ≡ occupied (counts_in station_count stations.old) }
    ensures path_after { take (2 * result) path.new
        ≡ coordinates (points_in station_count places.now)
        (occupied (counts_in station_count stations.old)) }
    ensures at_most_all { result ≤ station_count }
{
    let c = stations::units::coordinates(
        &Stations {
            k: station_count,
            counts: stations,
        },
        places,
        path,
    );
    write_occupied(station_count, stations);
    c
}

/// Where a station stands among the occupied ones, by halving; their number where it isn't one.
#[tactic(auto, using(crate::proofs::crossings::Occupied::halving))]
pub(crate) fn vertex_of(vertices: &Vertices<'_>, station: usize) -> usize
    ensures is_vertex { result
        ≡ vertex_of station (order_in vertices.now.c vertices.now.stations.now) }
    ensures at_most_all { result ≤ vertices.now.c }
{
    // the stations are every second number of the list
    let c = vertices.c;
    let mut lo = 0;
    let mut hi = c;
    while lo < hi {
        let mid = lo + (hi - lo) / 2;
        if (at(vertices.stations, 2 * mid + 1) as usize) < station {
            lo = mid + 1;
        } else {
            hi = mid;
        }
    }
    if lo < c && at(vertices.stations, 2 * lo + 1) as usize == station {
        lo
    } else {
        c
    }
}
