// The box that a piece enters first, by a look at every station
// (docs/RULES.md, 'The box entered first'). A piece is its two ends, p and q.
ghost use Rattle.std.specs.Prelude.{◌≡◌, ◌+◌, ◌*◌, ◌≤◌, ◌<◌, length, None};
ghost use Rattle.network.specs.Views.{boxes_in};
ghost use Rattle.plane.specs.Plane.{box_in};
ghost use Rattle.boxes.specs.First.{entry_at, comes_first, sooner, look};
ghost use Rattle.boxes.specs.Stages.Lent.{boxes_of, occupied_of};

use network::lists::Placed;
use plane::geometry::entry::enters;
use plane::geometry::{Box, Point, box_at};

/// A station's box, four numbers of `frames`; zeros past the last station.
#[tactic(auto, using(crate::proofs::first_box::Looking::box_laws))]
pub(crate) fn box_in(station_count: usize, frames: &[f64], station: usize) -> Box
    requires { 4 * station_count ≤ length frames.now }
    ensures { result ≡ box_in (boxes_in station_count frames.now) station }
{
    if station < station_count {
        return box_at(frames, station);
    }
    Box {
        left: 0.0,
        top: 0.0,
        right: 0.0,
        bottom: 0.0,
    }
}

/// Where the piece p q enters a station's box, as a part of the piece from 0 to 1; none where it
/// doesn't, and none at the two stations that the line runs between.
#[tactic(auto, unfolding(crate::specs::First::entry_at))]
pub(crate) fn entry_at(
    station_count: usize,
    frames: &[f64],
    p: Point,
    q: Point,
    from_station: usize,
    to_station: usize,
    station: usize,
) -> Option<f64>
    requires { 4 * station_count ≤ length frames.now }
    ensures { result
        ≡ entry_at (boxes_in station_count frames.now) p q from_station to_station station }
{
    if station == from_station {
        return None;
    }
    if station == to_station {
        return None;
    }
    if station < station_count {
        return enters(p, q, &frames[4 * station..4 * station + 4]);
    }
    enters(p, q, &[0.0; 4])
}

/// Whether the box of a station, entered at a fraction, comes before that of another, entered at
/// another place: a tie goes to the lower station.
#[tactic(auto, unfolding(crate::specs::First::comes_first))]
pub(crate) fn comes_first(
    entry: f64,
    station: usize,
    other_entry: f64,
    other_station: usize,
) -> bool
    ensures { result ≡ comes_first entry station other_entry other_station }
{
    entry < other_entry || entry == other_entry && station < other_station
}

/// The box entered first after one more, of `station`: the entry of the piece, and its
/// station.
pub(crate) fn sooner(
    station: usize,
    entry: Option<f64>,
    best: Option<(f64, usize)>,
) -> Option<(f64, usize)>
    ensures { result ≡ sooner station entry best }
{
    let Some(t) = entry else {
        return best;
    };
    if let Some((u, r)) = best {
        if !comes_first(t, station, u, r) {
            return best;
        }
    }
    Some((t, station))
}

/// The box entered first of all occupied stations': the place where the piece p q enters it, and
/// its station.
#[tactic(auto, using(crate::proofs::first_box::Looking::scanned))]
pub(crate) fn scan(
    placed: &Placed<'_>,
    p: Point,
    q: Point,
    from_station: usize,
    to_station: usize,
) -> Option<(f64, usize)>
    ensures { result
        ≡ look (boxes_of placed.now) p q from_station to_station (occupied_of placed.now) None }
{
    let mut best = None;
    for s in 0..placed.k {
        if placed.is_occupied(s) {
            best = sooner(
                s,
                entry_at(placed.k, placed.frames, p, q, from_station, to_station, s),
                best,
            );
        }
    }
    best
}
