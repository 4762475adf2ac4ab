// A drawing charted in the work lists: laid out, and its lines routed.
#![tactic(auto)]

/// A drawing laid out.
pub mod lay;

ghost use Rattle.std.specs.Prelude.{◌≡◌, ◌≤◌, length};
ghost use Rattle.network.specs.Options.{search_of};
ghost use Rattle.network.specs.Words.{station_count};
ghost use Rattle.drawing.specs.Network.{network_of};
ghost use Rattle.lent.specs.Held.{held_work, held_crossings};
ghost use Rattle.lent.specs.Held.{SameWork, SameCrossings, LongWork, LongCrossings};
ghost use Rattle.chart.specs.Stages.Lengths.{StationRoom, SortRoom, CrossingRoom, MeshRoom};
ghost use Rattle.chart.specs.Stages.Lengths.{BoxRoom};
ghost use Rattle.chart.specs.Stages.LaidOut.{LaidIn, PreparedKept};
ghost use Rattle.chart.specs.Stages.Charted.{ChartedIn, IndexedIn};

use crate::lay::{lay_out, prepare};
use boxes::box_cells::build::index_boxes;
use lent::{Crossings, Work};
use network::lists::{Bounded, FewPlaced, Placed};
use network::options::Options;
use network::refusals::Refusal;
use placement::sized::ill_sized;
use routing::routes::route_lines;
use routing::surroundings::Surroundings;
use stations::measures::Measures;

// Routes the lines of a drawing that is laid out, unless its sizes are ill, and answers its unit;
// the crossing list holds `room` crossings.
fn route(
    work: &mut Work<'_>,
    crossings: &mut Crossings<'_>,
    options: Options,
    net: &Bounded<'_>,
    stations: usize,
    unit: f64,
    room: usize,
) -> Result<f64, Refusal>
    requires counted { stations ≡ station_count net.now.lists.sub.now }
    requires few_stations { stations ≤ 4096 }
    requires box_room { BoxRoom stations (held_work work.old) }
    requires crossing_room { CrossingRoom room (held_work work.old) (held_crossings crossings.old) }
    requires mesh_room { MeshRoom stations (network_of net.now.lists) (held_work work.old) }
    requires laid { LaidIn options (network_of net.now.lists) stations unit (held_work work.old) }
    ensures same { SameWork work.new work.old × SameCrossings crossings.new crossings.old }
    ensures long { LongWork work.new work.old × LongCrossings crossings.new crossings.old }
    ensures kept { PreparedKept (network_of net.now.lists) stations (held_work work.new)
        (held_work work.old) }
    ensures charted { ChartedIn options (network_of net.now.lists) stations room result
        (held_work work.new) (held_crossings crossings.new) }
{
    let counts = &mut *work.stations;
    let frames = &mut *work.frames;
    let placed = Placed {
        k: stations,
        stations: counts,
        frames,
    };
    if ill_sized(&placed) {
        return Err(Refusal::IllSized);
    }
    let block_options = options.block_options;
    let measures = Measures {
        unit,
        block_options,
    };
    let blocks = &mut *work.blocks;
    let places = &mut *work.places;
    let surroundings = Surroundings {
        measures,
        station_count: stations,
        iterations: options.route_iterations,
        blocks,
        places,
        frames,
    };
    route_lines(
        room,
        net,
        &surroundings,
        work.stations,
        work.ends,
        work.sorted,
        work.spare,
        work.keys,
        work.path,
        crossings.numbers,
        crossings.places,
        crossings.ways,
    )?;
    Ok(unit)
}

/// Routes the lines of a drawing that is laid out, and enters its boxes by cell in `work.sorted`
/// where lines are led round them.
///
/// `stations` is the stations' number, which the caller has counted, `unit` what `lay_out` answered
/// and `room` how many crossings the crossing lists hold. Answers the unit, or refusal 8 (ill
/// sized), 9 (the mesh doesn't fit) or 10 (too many crossings): docs/RULES.md, 'Order of refusals'.
/// Of what `spare`, `keys` and the crossings' numbers and places hold afterwards nothing is said: no
/// stage behind it reads them.
pub fn route_laid_out(
    work: &mut Work<'_>,
    crossings: &mut Crossings<'_>,
    options: Options,
    net: &Bounded<'_>,
    stations: usize,
    unit: f64,
    room: usize,
) -> Result<f64, Refusal>
    requires counted { stations ≡ station_count net.now.lists.sub.now }
    requires few_stations { stations ≤ 4096 }
    requires box_room { BoxRoom stations (held_work work.old) }
    requires sort_room { SortRoom (network_of net.now.lists) (held_work work.old) }
    requires crossing_room { CrossingRoom room (held_work work.old) (held_crossings crossings.old) }
    requires mesh_room { MeshRoom stations (network_of net.now.lists) (held_work work.old) }
    requires laid { LaidIn options (network_of net.now.lists) stations unit (held_work work.old) }
    ensures same { SameWork work.new work.old × SameCrossings crossings.new crossings.old }
    ensures long { LongWork work.new work.old × LongCrossings crossings.new crossings.old }
    ensures kept { PreparedKept (network_of net.now.lists) stations (held_work work.new)
        (held_work work.old) }
    ensures charted { ChartedIn options (network_of net.now.lists) stations room result
        (held_work work.new) (held_crossings crossings.new) }
    ensures indexed { IndexedIn stations (held_work work.new) }
{
    let outcome = route(work, crossings, options, net, stations, unit, room);
    let counts = &mut *work.stations;
    let frames = &mut *work.frames;
    let placed = Placed {
        k: stations,
        stations: counts,
        frames,
    };
    index_boxes(
        0 < options.route_iterations,
        &FewPlaced { placed },
        work.sorted,
    );
    outcome
}

/// Lays a drawing out in the work lists, routes its lines, and enters its boxes by cell in
/// `work.sorted` where lines are led round them.
///
/// `stations` is the stations' number, which the caller has counted, and `room` how many crossings
/// the crossing lists hold. Answers the unit, or refusal 8 (ill sized), 9 (the mesh doesn't fit) or
/// 10 (too many crossings): docs/RULES.md, 'Order of refusals'. Of `spare`, `keys` and the
/// crossings' numbers and places nothing is said.
pub fn lay_out_and_route(
    work: &mut Work<'_>,
    crossings: &mut Crossings<'_>,
    options: Options,
    net: &Bounded<'_>,
    stations: usize,
    room: usize,
) -> Result<f64, Refusal>
    requires counted { stations ≡ station_count net.now.lists.sub.now }
    requires few_stations { stations ≤ length net.now.lists.sub.now }
    requires each_voltage { length net.now.lists.kv.now ≡ length net.now.lists.sub.now }
    requires short_search { search_of options.search ≤ 20 }
    requires station_room { StationRoom (network_of net.now.lists) (held_work work.old) }
    requires sort_room { SortRoom (network_of net.now.lists) (held_work work.old) }
    requires crossing_room { CrossingRoom room (held_work work.old) (held_crossings crossings.old) }
    requires mesh_room { MeshRoom (length net.now.lists.sub.now) (network_of net.now.lists)
        (held_work work.old) }
    ensures same { SameWork work.new work.old × SameCrossings crossings.new crossings.old }
    ensures long { LongWork work.new work.old × LongCrossings crossings.new crossings.old }
    ensures charted { ChartedIn options (network_of net.now.lists) stations room result
        (held_work work.new) (held_crossings crossings.new) }
    ensures indexed { IndexedIn stations (held_work work.new) }
{
    let typical = prepare(work, options, net, stations);
    let laid = lay_out(work, options, net, stations, typical, false);
    route_laid_out(work, crossings, options, net, stations, laid.unit, room)
}
