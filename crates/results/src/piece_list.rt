// The pieces of all runs: counted, then written.
pub(crate) mod lines;

ghost use Rattle.std.specs.Prelude.{◌≡◌, map, ◌<◌, ◌≤◌, ◌^◌, length};
ghost use Rattle.numbers.specs.Over.{over};
ghost use Rattle.runs.specs.Lists.{flat, piece_numbers};
ghost use Rattle.results.specs.Stages.Pieces.{branch_of};
ghost use Rattle.results.specs.Stages.Passes.{RoomFor, Passed};
ghost use Rattle.results.specs.Stages.Runs.{FitAll, HasRoom};
ghost use Rattle.results.specs.Stages.Lent.{pieces_of, others_of};

use crate::piece_list::lines::lead_lines;
use crate::pieces::count_or_write;
use network::lists::Bounded;
use runs::laid::{Laid, Obstacles};
use runs::run::run;

// Counts the pieces of the branches that are no lines from number `first` on, writes them if it is
// to write, and answers the number after the last.
#[tactic(auto, using(crate::proofs::piece_list::Passes::other_laws))]
fn pass_others(
    write: bool,
    first: usize,
    network: &Bounded<'_>,
    laid: &Laid<'_>,
    frames: &[f64],
    path: &mut [f64],
    numbers: &mut [f64],
    branches: &mut [u32],
) -> usize
    requires path_fits { 0 < length network.now.lists.from.now → 8 ≤ length path.old }
    requires room_for { RoomFor write first (others_of network.now.lists laid.now frames.now)
        numbers.old branches.old }
    ensures { Passed write first result (others_of network.now.lists laid.now frames.now)
        numbers.old numbers.new branches.old branches.new }
{
    let mut next = first;
    for e in 0..network.lists.from.len() {
        let c = run(&network.lists, laid, frames, e, path);
        next = count_or_write(write, next, e, path, c, numbers, branches);
    }
    next
}

/// How many pieces the runs of all branches have. `path` is a work list with room for each
/// branch's run.
#[tactic(auto, using(crate::proofs::piece_list::Passes::count_laws))]
pub fn piece_count(
    network: &Bounded<'_>,
    laid: &Laid<'_>,
    obstacles: &Obstacles<'_>,
    path: &mut [f64],
) -> usize
    requires runs_fit { FitAll network.now.lists.from.now laid.now.ends.now path.old }
    ensures counted { result ≡ length (pieces_of network.now.lists laid.now obstacles.now) }
    ensures few_pieces { result ≤ 2 ^ 45 }
{
    let mut numbers = [0.0; 1];
    let mut branches: [u32; 1] = [0; 1];
    let next = pass_others(
        false,
        0,
        network,
        laid,
        obstacles.index.placed.frames,
        path,
        &mut numbers,
        &mut branches,
    );
    lead_lines(
        false,
        next,
        network,
        laid,
        obstacles,
        path,
        &mut numbers,
        &mut branches,
    )
}

/// Writes all pieces: four coordinates each into `numbers` and its branch into `branches`, those of
/// lines last, each part by branch number (docs/RULES.md, 'Runs, pieces, roles and bounds'). What
/// stands behind them in both lists stays. `path` is a work list with room for each branch's run.
#[tactic(auto, using(crate::proofs::piece_list::Passes::count_laws))]
pub fn write_pieces(
    network: &Bounded<'_>,
    laid: &Laid<'_>,
    obstacles: &Obstacles<'_>,
    path: &mut [f64],
    numbers: &mut [f64],
    branches: &mut [u32],
)
    requires runs_fit { FitAll network.now.lists.from.now laid.now.ends.now path.old }
    requires has_room { HasRoom (pieces_of network.now.lists laid.now obstacles.now)
        numbers.old branches.old }
    ensures numbers_after { numbers.new
        ≡ over (flat piece_numbers (pieces_of network.now.lists laid.now obstacles.now))
        numbers.old }
    ensures branches_after { branches.new
        ≡ over (map branch_of (pieces_of network.now.lists laid.now obstacles.now)) branches.old }
{
    let next = pass_others(
        true,
        0,
        network,
        laid,
        obstacles.index.placed.frames,
        path,
        numbers,
        branches,
    );
    lead_lines(
        true, next, network, laid, obstacles, path, numbers, branches,
    );
}
