// The figures of an accepted audit.
ghost use Rattle.std.specs.Prelude.{◌≡◌, ◌*◌, ◌≤◌, length};
ghost use Rattle.network.specs.Words.{station_count, bus_counts};
ghost use Rattle.network.specs.Views.{counts_in};
ghost use Rattle.audit.specs.Stages.Sweep.{Finite};
ghost use Rattle.audit.specs.Stages.Views.{figure_lists, FigureRoom, SortRoom};
ghost use Rattle.audit.specs.Held.{held_drawing};
ghost use Rattle.audit.specs.Answer.{Figured};

use crate::figures::{displacements, middles, spacings};
use crate::findings::answer::Figures;
use crate::fit::drawn::FewBuses;
use crate::overlaps::count_overlaps;
use crate::stretches::relative_lengths;
use crate::through::count_through;
use network::lists::{FewPlaced, Placed, Stations};
use network::seeds::seeds;
use plane::neighbours::points::Points;
use stations::units::coordinates;

// The figures of a drawing that isn't refused. `stations` is the stations' number and `counts`
// holds their bus counts; `index`, `spare`, `keys`, `points` and `path` are work lists.
pub(crate) fn figures_of(
    drawing: &FewBuses<'_>,
    stations: usize,
    counts: &[u32],
    displacement: &mut [f64],
    spacing: &mut [f64],
    relative: &mut [f64],
    index: &mut [u32],
    spare: &mut [u32],
    keys: &mut [u64],
    points: &mut [f64],
    path: &mut [f64],
) -> Figures
    requires counted { stations ≡ station_count drawing.now.lists.sub.now }
    requires few_stations { stations ≤ length drawing.now.lists.sub.now }
    requires counts_are { counts_in stations counts.now ≡ bus_counts drawing.now.lists.sub.now }
    requires count_room { 2 * length drawing.now.lists.sub.now ≤ length counts.now }
    requires all_boxes { 4 * stations ≤ length drawing.now.lists.boxes.now }
    requires finite_boxes { Finite drawing.now.lists.boxes.now }
    requires four_each { length drawing.now.lists.pieces.now
        ≡ 4 * length drawing.now.lists.branches.now }
    requires figure_room { FigureRoom stations (length drawing.now.lists.branches.now)
        (figure_lists displacement.old spacing.old relative.old) }
    requires point_room { 2 * length drawing.now.lists.sub.now ≤ length points.old }
    requires path_room { 2 * length drawing.now.lists.sub.now ≤ length path.old }
    requires sort_room { SortRoom (length drawing.now.lists.sub.now) index.old spare.old keys.old }
    ensures { Figured (held_drawing drawing.now.lists)
        (figure_lists displacement.old spacing.old relative.old) result
        (figure_lists displacement.new spacing.new relative.new) }
{
    let drawing = drawing.lists;
    let counted = Stations {
        k: stations,
        counts,
    };
    let placed = Placed {
        k: stations,
        stations: counts,
        frames: drawing.boxes,
    };
    let few = FewPlaced { placed };
    seeds(drawing.sub, drawing.xy, &counted, points);
    displacements(&few, points, displacement);
    middles(stations, drawing.boxes, points);
    let n = coordinates(&counted, points, path);
    let points = Points { n, xy: path };
    spacings(&few, &points, spacing, keys, index, spare);
    let overlaps = count_overlaps(&few, keys, index, spare);
    let through = count_through(&few, index, &drawing);
    let lengths = relative_lengths(drawing.roles, drawing.pieces, drawing.branches, relative);
    Figures {
        stations: n,
        overlaps,
        through,
        relative: lengths,
    }
}
