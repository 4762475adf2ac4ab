//! Seeds, the mean of a station's bus points (docs/RULES.md, 'Seeds'); and how a point or a box is
//! stored in a list.
ghost use Rattle.std.specs.Prelude.{◌≡◌, ◌+◌, ◌*◌, ◌≤◌, ◌<◌, length, get_or};
ghost use Rattle.numbers.specs.Table.{table};
ghost use Rattle.plane.specs.Plane.{origin, point_at};
ghost use Rattle.network.specs.Words.{station_count, bus_counts};
ghost use Rattle.network.specs.Views.{points_in, with_point, with_box};
ghost use Rattle.network.specs.Lent.{station_counts};
ghost use Rattle.network.specs.Seed.{bus_point, sum_to, mean, seeds};

use crate::lists::Stations;
use numbers::float::small::is_finite;
use plane::geometry::{Box, Point, point_at};

// The point of a bus: (0, 0) where a coordinate is absent or not finite.
fn bus_point(xy: &[f64], bus: usize) -> Point
    requires { bus < 0x1_0000_0000 }
    ensures { result ≡ bus_point xy.now bus }
{
    let p = point_at(xy, bus);
    if is_finite(p.x) && is_finite(p.y) {
        p
    } else {
        Point { x: 0.0, y: 0.0 }
    }
}

/// Stores a point at this index of a list of two numbers a point.
pub fn put_point(list: &mut [f64], index: usize, point: Point)
    requires { 2 * index + 1 < length list.old }
    ensures { list.new ≡ with_point list.old index point }
{
    list[2 * index] = point.x;
    list[2 * index + 1] = point.y;
}

/// Stores a box at this index of a list of four numbers a box: left, top, right, bottom.
pub fn put_box(list: &mut [f64], index: usize, sides: Box)
    requires { 4 * index + 3 < length list.old }
    ensures { list.new ≡ with_box list.old index sides }
{
    list[4 * index] = sides.left;
    list[4 * index + 1] = sides.top;
    list[4 * index + 2] = sides.right;
    list[4 * index + 3] = sides.bottom;
}

// Sets the points of the stations to (0, 0).
fn clear_points(station_total: usize, places: &mut [f64])
    requires { 2 * station_total ≤ length places.old }
    ensures { points_in station_total places.new ≡ table (λ s. origin) station_total }
{
    places[..2 * station_total].fill(0.0);
}

// Adds each bus's point to its station's.
fn add_points(sub: &[u32], xy: &[f64], station_total: usize, places: &mut [f64])
    requires counted { station_total ≡ station_count sub.now }
    requires few_buses { length sub.now ≤ 4096 }
    requires places_room { 2 * station_total ≤ length places.old }
    requires all_zero { points_in station_total places.old ≡ table (λ s. origin) station_total }
    ensures { points_in station_total places.new
        ≡ table (λ s. sum_to sub.now xy.now s (length sub.now)) station_total }
{
    for (i, &station) in sub.iter().enumerate() {
        let s = station as usize;
        let p = point_at(places, s);
        let q = bus_point(xy, i);
        put_point(
            places,
            s,
            Point {
                x: p.x + q.x,
                y: p.y + q.y,
            },
        );
    }
}

// The sum of so many points, divided by their number.
fn mean_of(count: u32, sum: Point) -> Point
    ensures { result ≡ mean count sum }
{
    if count == 0 {
        return sum;
    }
    Point {
        x: sum.x / count as f64,
        y: sum.y / count as f64,
    }
}

// Divides each station's sum by its bus count.
fn take_means(stations: &Stations<'_>, places: &mut [f64])
    requires few_stations { stations.now.k ≤ 4096 }
    requires places_room { 2 * stations.now.k ≤ length places.old }
    ensures { points_in stations.now.k places.new
        ≡ table (λ s. mean (get_or stations.now.counts.now (2 * s) 0) (point_at places.old s))
        stations.now.k }
{
    for s in 0..stations.k {
        let p = mean_of(stations.counts[2 * s], point_at(places, s));
        put_point(places, s, p);
    }
}

/// The seeds of all stations, in `places`, two numbers of each: the mean of its buses' points,
/// summed in bus order, and (0, 0) of a station without buses (docs/RULES.md, 'Seeds').
pub fn seeds(sub: &[u32], xy: &[f64], stations: &Stations<'_>, places: &mut [f64])
    requires counted { stations.now.k ≡ station_count sub.now }
    requires few_buses { length sub.now ≤ 4096 }
    requires few_stations { stations.now.k ≤ 4096 }
    requires places_room { 2 * stations.now.k ≤ length places.old }
    requires bus_counts { station_counts stations.now ≡ bus_counts sub.now }
    ensures { points_in stations.now.k places.new ≡ seeds sub.now xy.now }
{
    clear_points(stations.k, places);
    add_points(sub, xy, stations.k, places);
    take_means(stations, places);
}
