// A drawing with every list on the heap.
ghost use Rattle.std.specs.Prelude.{◌≡◌};
ghost use Rattle.drawing.specs.Answer.{layout_of};
ghost use Rattle.lent.specs.Held.{held_network, held_work, held_crossings};
ghost use Rattle.tansygate.specs.Lists.{lists_of_seven, lists_in};
ghost use Rattle.tansygate.specs.Work.{work_in, crossings_in};
ghost use Rattle.tansygate.specs.Drawn.{Drew};

use crate::errors::Error;
use crate::lists::{Lists, cut, lists_for};
use crate::work::{Store, work_for};
use drawing::answer::Plot;
use layout::call::tx_schematic_layout;
use network::lists::Network;
use network::options::Options;
use network::refusals::Refusal;
use network::words::station_count;
use std::alloc::Global;

/// How many pieces and crossings there is room for. What is above 16,777,216 counts as that.
///
/// Nothing is written past what a drawing asks: too little room is a refusal, too much is memory
/// that the drawing keeps until it is dropped.
#[derive(Clone, Copy, Debug)]
pub struct AskedRoom {
    /// Pieces of all branches: too few is `Refusal::Pieces`. A branch that runs straight has three
    /// at most.
    pub pieces: usize,
    /// Crossings of lines through the mesh: too few is `Refusal::Crossings`. Without iterations
    /// there are none.
    pub crossings: usize,
}

/// A drawing.
#[derive(Drop)]
pub struct Drawing {
    /// Its unit, bounds and number of pieces.
    pub plot: Plot,
    /// Its lists, each as long as the drawing.
    pub lists: Lists,
}

// Draws in these result lists, with work lists that are lent.
fn drawn_lists(
    positions: &mut [f64],
    bars: &mut [f64],
    boxes: &mut [f64],
    scales: &mut [f64],
    roles: &mut [u8],
    pieces: &mut [f64],
    branches: &mut [u32],
    work: &mut lent::Work<'_>,
    crossings: &mut lent::Crossings<'_>,
    options: Options,
    network: &Network<'_>,
) -> Result<Plot, Refusal>
    ensures answer { result ≡ (layout_of options (held_network network.now)
        (lists_of_seven positions.old bars.old boxes.old scales.old roles.old pieces.old
        branches.old) (held_work work.old) (held_crossings crossings.old)).answer }
    ensures lists { lists_of_seven positions.new bars.new boxes.new scales.new roles.new pieces.new
        branches.new
        ≡ (layout_of options (held_network network.now)
        (lists_of_seven positions.old bars.old boxes.old scales.old roles.old pieces.old
        branches.old) (held_work work.old) (held_crossings crossings.old)).lists }
{
    let mut lists = lent::Lists {
        positions,
        bars,
        boxes,
        scales,
        roles,
        pieces,
        branches,
    };
    tx_schematic_layout(&mut lists, work, crossings, options, network)
}

// The same with the result lists on the heap: the answer, and these lists.
fn drawn_in(
    lists: Lists,
    work: &mut lent::Work<'_>,
    crossings: &mut lent::Crossings<'_>,
    options: Options,
    network: &Network<'_>,
) -> (Result<Plot, Refusal>, Lists)
    ensures answer { result.0 ≡ (layout_of options (held_network network.now) (lists_in lists)
        (held_work work.old) (held_crossings crossings.old)).answer }
    ensures lists { lists_in result.1
        ≡ (layout_of options (held_network network.now) (lists_in lists)
        (held_work work.old) (held_crossings crossings.old)).lists }
{
    let Lists {
        mut positions,
        mut bars,
        mut boxes,
        mut scales,
        mut roles,
        mut pieces,
        mut branches,
    } = lists;
    let answer = drawn_lists(
        positions.as_mut_slice(),
        bars.as_mut_slice(),
        boxes.as_mut_slice(),
        scales.as_mut_slice(),
        roles.as_mut_slice(),
        pieces.as_mut_slice(),
        branches.as_mut_slice(),
        work,
        crossings,
        options,
        network,
    );
    let lists = Lists {
        positions,
        bars,
        boxes,
        scales,
        roles,
        pieces,
        branches,
    };
    (answer, lists)
}

// The same with the work lists on the heap too.
fn drawn_with(
    lists: Lists,
    store: Store,
    options: Options,
    network: &Network<'_>,
) -> (Result<Plot, Refusal>, Lists)
    ensures answer { result.0 ≡ (layout_of options (held_network network.now) (lists_in lists)
        (work_in store) (crossings_in store)).answer }
    ensures lists { lists_in result.1
        ≡ (layout_of options (held_network network.now) (lists_in lists)
        (work_in store) (crossings_in store)).lists }
{
    let Store {
        mut stations,
        mut buses,
        mut ends,
        mut sorted,
        mut spare,
        mut keys,
        mut places,
        mut blocks,
        mut frames,
        mut path,
        mut numbers,
        mut along,
        mut ways,
    } = store;
    let mut work = lent::Work {
        stations: stations.as_mut_slice(),
        buses: buses.as_mut_slice(),
        ends: ends.as_mut_slice(),
        sorted: sorted.as_mut_slice(),
        spare: spare.as_mut_slice(),
        keys: keys.as_mut_slice(),
        places: places.as_mut_slice(),
        blocks: blocks.as_mut_slice(),
        frames: frames.as_mut_slice(),
        path: path.as_mut_slice(),
    };
    let mut crossings = lent::Crossings {
        numbers: numbers.as_mut_slice(),
        places: along.as_mut_slice(),
        ways: ways.as_mut_slice(),
    };
    drawn_in(lists, &mut work, &mut crossings, options, network)
}

/// Draws a network (docs/RULES.md, 'Promises of every call').
///
/// The lists that `tx_schematic_layout` is lent are made here and given back, but those of the
/// drawing. `Refusal::ListTooShort` never comes.
///
/// ```rust
/// let asked = AskedRoom { pieces: 3 * network.from.len(), crossings: 0 };
/// match draw(rt.alloc(), &network, options, asked) {
///     Ok(drawing) => println!(rt; "{:?}", drawing.lists.pieces)?,
///     Err(Error::Refused(refusal)) => println!(rt; "refusal {}", refusal.number())?,
///     Err(Error::OutOfMemory) => println!(rt; "out of memory")?,
/// }
/// ```
pub fn draw(
    alloc: Global,
    network: &Network<'_>,
    options: Options,
    asked: AskedRoom,
) -> Result<Drawing, Error>
    ensures { Drew options (held_network network.now) asked result }
{
    let buses = network.sub.len().min(4096);
    let branches = network.from.len().min(8192);
    let stations = station_count(network.sub).min(4096);
    let mesh = network.mesh.corners.len().min(24576);
    let pieces = asked.pieces.min(16777216);
    let crossings = asked.crossings.min(16777216);
    let sorts = (buses + 2 * branches + mesh).max(crossings);
    let lists = lists_for(alloc, buses, branches, stations, pieces)?;
    let store = work_for(alloc, buses, branches, mesh, sorts, crossings)?;
    let (answer, lists) = drawn_with(lists, store, options, network);
    match answer {
        Ok(plot) => {
            let drawn = plot.pieces.min(pieces);
            let lists = cut(lists, drawn);
            Ok(Drawing { plot, lists })
        }
        Err(refusal) => Err(Error::Refused(refusal)),
    }
}
