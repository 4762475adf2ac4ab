// A charted drawing written into the result lists where nothing refuses it.
#![tactic(auto)]

pub(crate) mod draft;

ghost use Rattle.std.specs.Prelude.{◌≡◌, ◌*◌, ◌≤◌, length};
ghost use Rattle.network.specs.Words.{occupied};
ghost use Rattle.network.specs.Views.{counts_in, boxes_in};
ghost use Rattle.boxes.specs.Stages.Cells.{Indexed};
ghost use Rattle.drawing.specs.Network.{network_of};
ghost use Rattle.drawing.specs.Answer.{crossing_room};
ghost use Rattle.lent.specs.Held.{held_lists, held_work, held_crossings};
ghost use Rattle.lent.specs.Held.{SameLists, SameWork, KeptWork};
ghost use Rattle.chart.specs.Stages.Lengths.{DrawnRoom};
ghost use Rattle.chart.specs.Stages.Charted.{ChartedIn, IndexedIn};
ghost use Rattle.finish.specs.Stages.Draft.{DrewIn, ResultRoom, clearance_led};
ghost use Rattle.finish.specs.Stages.Draft.{ChartedBy, ChartedOver};

use crate::draft::{clearance_led, plot_of};
use boxes::grid::grid_of;
use boxes::grid::index::BoxIndex;
use drawing::answer::Plot;
use drawing::lengths::ListLengths;
use lent::{Crossings, Lists, Work};
use network::lists::{Bounded, FewPlaced, Placed};
use network::options::Options;
use network::refusals::Refusal;
use results::buses::write_buses;
use results::lists::{write_roles, write_stations};
use results::piece_list::write_pieces;
use runs::laid::{Laid, Obstacles};
use stations::measures::Measures;

// Judges a drawing that nothing refuses so far, and writes it where nothing does.
#[tactic(auto, using(crate::proofs::Drafts::write_laws))]
fn write(
    lists: &mut Lists<'_>,
    path: &mut [f64],
    options: Options,
    net: &Bounded<'_>,
    laid: &Laid<'_>,
    obstacles: &Obstacles<'_>,
    room: ListLengths,
) -> Result<Plot, Refusal>
    requires measured { laid.now.measures.block_options ≡ options.block_options }
    requires guided { obstacles.now.clearance ≡ clearance_led options laid.now.measures.unit }
    requires block_room { 3 * obstacles.now.index.placed.k ≤ length laid.now.blocks.now }
    requires result_room { ResultRoom (network_of net.now.lists) obstacles.now.index.placed.k room
        (held_lists lists.old) }
    requires charted { ChartedBy options (network_of net.now.lists) room laid.now obstacles.now
        path.old }
    ensures same { SameLists lists.new lists.old }
    ensures drew { DrewIn options (network_of net.now.lists) room (held_lists lists.old) result
        (held_lists lists.new) }
{
    let plot = plot_of(options, net, laid, obstacles, room, path)?;
    let placed = obstacles.index.placed;
    write_buses(
        net.lists.sub,
        laid.measures,
        laid.buses,
        laid.blocks,
        placed.frames,
        lists.positions,
        lists.bars,
    );
    write_stations(
        placed.k,
        placed.frames,
        laid.blocks,
        lists.boxes,
        lists.scales,
    );
    write_roles(&net.lists, lists.roles);
    write_pieces(net, laid, obstacles, path, lists.pieces, lists.branches);
    Ok(plot)
}

// Writes it, with its lines led by the waypoints `ways` and round the boxes of `few`, which `cells`
// enters.
fn write_led<'a>(
    lists: &mut Lists<'_>,
    path: &mut [f64],
    options: Options,
    net: &Bounded<'_>,
    laid: &Laid<'_>,
    few: &FewPlaced<'a>,
    cells: &'a [u32],
    ways: &'a [f64],
    room: ListLengths,
) -> Result<Plot, Refusal>
    requires measured { laid.now.measures.block_options ≡ options.block_options }
    requires block_room { 3 * few.now.placed.k ≤ length laid.now.blocks.now }
    requires indexed { Indexed (boxes_in few.now.placed.k few.now.placed.frames.now)
        (occupied (counts_in few.now.placed.k few.now.placed.stations.now)) cells.now }
    requires result_room { ResultRoom (network_of net.now.lists) few.now.placed.k room
        (held_lists lists.old) }
    requires charted { ChartedOver options (network_of net.now.lists) room laid.now few.now.placed
        path.old ways.now }
    ensures same { SameLists lists.new lists.old }
    ensures drew { DrewIn options (network_of net.now.lists) room (held_lists lists.old) result
        (held_lists lists.new) }
{
    let placed = few.placed;
    let index = BoxIndex {
        placed,
        cells,
        grid: grid_of(placed.k, placed.frames, cells),
    };
    let obstacles = Obstacles {
        clearance: clearance_led(options, laid.measures.unit),
        index,
        ways,
    };
    write(lists, path, options, net, laid, &obstacles, room)
}

/// Writes the charted drawing that the work lists hold into the result lists, where nothing refuses
/// it.
///
/// `stations` is the stations' number, `room` the lengths of the lent lists, and `outcome` what
/// `lay_out_and_route` or `route_laid_out` answered: a refusal of it is the answer. Otherwise
/// answers the drawing's numbers, or refusal 11, which changes no result list (docs/RULES.md, 'After
/// a refusal').
#[tactic(auto, using(std::proofs::lemmas::Result::err_from_is_err_and))]
pub fn write_drawing(
    lists: &mut Lists<'_>,
    work: &mut Work<'_>,
    crossings: &Crossings<'_>,
    options: Options,
    net: &Bounded<'_>,
    stations: usize,
    room: ListLengths,
    outcome: Result<f64, Refusal>,
) -> Result<Plot, Refusal>
    requires few_stations { stations ≤ 4096 }
    requires drawn_room { DrawnRoom stations (held_work work.old) }
    requires indexed { IndexedIn stations (held_work work.old) }
    requires result_room { ResultRoom (network_of net.now.lists) stations room
        (held_lists lists.old) }
    requires charted { ChartedIn options (network_of net.now.lists) stations (crossing_room room)
        outcome (held_work work.old) (held_crossings crossings.now) }
    ensures same { SameLists lists.new lists.old × SameWork work.new work.old }
    ensures kept { KeptWork work.new work.old }
    ensures long { length work.new.path.now ≡ length work.old.path.now }
    ensures drew { DrewIn options (network_of net.now.lists) room (held_lists lists.old) result
        (held_lists lists.new) }
{
    let unit = outcome?;
    let block_options = options.block_options;
    let measures = Measures {
        unit,
        block_options,
    };
    let buses = &mut *work.buses;
    let ends = &mut *work.ends;
    let blocks = &mut *work.blocks;
    let places = &mut *work.places;
    let laid = Laid {
        measures,
        buses,
        ends,
        blocks,
        places,
    };
    let counts = &mut *work.stations;
    let frames = &mut *work.frames;
    let cells = &mut *work.sorted;
    let placed = Placed {
        k: stations,
        stations: counts,
        frames,
    };
    write_led(
        lists,
        work.path,
        options,
        net,
        &laid,
        &FewPlaced { placed },
        cells,
        crossings.ways,
        room,
    )
}
