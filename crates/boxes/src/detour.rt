// A path led round boxes (docs/RULES.md, 'Detour'): at most four points put in, each beside the box
// that a piece enters first.
ghost use Rattle.std.specs.Prelude.{◌≡◌, ◌+◌, ◌*◌, ◌≤◌, ◌<◌, length};
ghost use Rattle.plane.specs.Plane.{point_at};
ghost use Rattle.boxes.specs.Detour.{detour};
ghost use Rattle.boxes.specs.Stages.Lent.{boxes_of, occupied_of};
ghost use Rattle.boxes.specs.Stages.Paths.{path_in, PutIn, Led};

use crate::corner::corner;
use crate::first_box::box_in;
use crate::first_hit::search::first_hit;
use crate::grid::index::BoxIndex;
use plane::geometry::Point;

// A point of a list of coordinates, two for each.
fn point_in(path: &[f64], number: usize) -> Point
    requires { 2 * number + 1 < length path.now }
    ensures { result ≡ point_at path.now number }
{
    Point {
        x: path[2 * number],
        y: path[2 * number + 1],
    }
}

// Puts a point in as number `number`, the points from there to before `end` moved one up.
fn put_in(path: &mut [f64], number: usize, end: usize, point: Point)
    requires in_order { number ≤ end }
    requires has_room { 2 * end + 1 < length path.old }
    ensures { PutIn number end point path.old path.new }
{
    path.copy_within(2 * number..2 * end, 2 * number + 2);
    path[2 * number] = point.x;
    path[2 * number + 1] = point.y;
}

/// Leads the path of a line between two stations round boxes, and answers how many points it has
/// then (docs/RULES.md, 'Detour'). The path is `count` points of `path` from point `first` on, two
/// numbers each, with room for four more behind it. At most four points are put in, each half of
/// `clearance` off a box that a piece hits, and the same piece is looked at again.
pub fn detour(
    clearance: f64,
    index: &BoxIndex<'_>,
    from_station: usize,
    to_station: usize,
    path: &mut [f64],
    first: usize,
    count: usize,
) -> usize
    requires has_room { 2 * (first + count + 4) ≤ length path.old }
    ensures { Led first result
        (detour (boxes_of index.now.placed) (occupied_of index.now.placed) clearance
        from_station to_station (path_in first count path.old)) path.old path.new }
{
    let mut n = count;
    let mut i = 0;
    let mut left: usize = 4;
    // a piece is looked at again where a point was put in
    while 0 < left && i + 1 < n {
        let p = point_in(path, first + i);
        let q = point_in(path, first + i + 1);
        match first_hit(index, p, q, from_station, to_station) {
            None => i += 1,
            Some(s) => {
                let f = box_in(index.placed.k, index.placed.frames, s);
                put_in(path, first + i + 1, first + n, corner(p, q, f, clearance));
                n += 1;
                left -= 1;
            }
        }
    }
    n
}
