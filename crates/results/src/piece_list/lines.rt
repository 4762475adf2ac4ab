// Lines become pieces: requests read from a lent list, each line led round boxes, its pieces
// counted and written.
ghost use Rattle.std.specs.Prelude.{◌<◌, ◌^◌};
ghost use Rattle.runs.specs.Stages.Lent.{lead_of};
ghost use Rattle.results.specs.Stages.Runs.{FitAll};
ghost use Rattle.results.specs.Stages.Passes.{RoomFor, Passed};
ghost use Rattle.results.specs.Stages.Lines.{request_pieces, list_pieces, Asks, AskAll};
ghost use Rattle.results.specs.Stages.Lent.{lines_of, batch_of};

use crate::pieces::count_or_write;
use network::lists::Bounded;
use numbers::order::at;
use runs::laid::{Laid, Obstacles};
use runs::requests::{LineRequest, request_at, requests_from};
use runs::run::run_line;

// Leads the line that a request asks for, counts its pieces from number `first` on, writes them if
// it is to write, and answers the number after the last.
#[tactic(auto, using(crate::proofs::piece_list::Leading::line_laws))]
fn lead_line(
    request: LineRequest,
    write: bool,
    first: usize,
    obstacles: &Obstacles<'_>,
    ends: &[u32],
    path: &mut [f64],
    numbers: &mut [f64],
    branches: &mut [u32],
) -> usize
    requires run_fits { Asks ends.now path.old request }
    requires room_for { RoomFor write first
        (request_pieces (lead_of obstacles.now) obstacles.now.index.placed.frames.now ends.now
        request)
        numbers.old branches.old }
    ensures { Passed write first result
        (request_pieces (lead_of obstacles.now) obstacles.now.index.placed.frames.now ends.now
        request)
        numbers.old numbers.new branches.old branches.new }
{
    if request.sa == request.sb {
        return first;
    }
    let e = request.e;
    let w = at(ends, 4 * e + 2) as usize;
    let n = at(ends, 4 * e + 3) as usize;
    let c = run_line(
        obstacles,
        request.sa,
        request.sb,
        request.row_end_a,
        request.row_end_b,
        request.exit_a,
        request.exit_b,
        w,
        n,
        path,
    );
    count_or_write(write, first, e, path, c, numbers, branches)
}

// Leads the lines that a lent list of requests asks for, one after the other.
#[tactic(auto, using(crate::proofs::piece_list::Leading::along_laws))]
fn lead_requests(
    list: &[LineRequest],
    write: bool,
    first: usize,
    obstacles: &Obstacles<'_>,
    ends: &[u32],
    path: &mut [f64],
    numbers: &mut [f64],
    branches: &mut [u32],
) -> usize
    requires runs_fit { AskAll ends.now path.old list.now }
    requires room_for { RoomFor write first
        (list_pieces (lead_of obstacles.now) obstacles.now.index.placed.frames.now ends.now
        list.now)
        numbers.old branches.old }
    ensures { Passed write first result
        (list_pieces (lead_of obstacles.now) obstacles.now.index.placed.frames.now ends.now
        list.now)
        numbers.old numbers.new branches.old branches.new }
{
    let mut next = first;
    for i in 0..list.len() {
        let r = request_at(list, i);
        next = lead_line(r, write, next, obstacles, ends, path, numbers, branches);
    }
    next
}

// Lends a block of requests.
fn lead_list(
    list: [LineRequest; 16],
    write: bool,
    first: usize,
    obstacles: &Obstacles<'_>,
    ends: &[u32],
    path: &mut [f64],
    numbers: &mut [f64],
    branches: &mut [u32],
) -> usize
    requires runs_fit { AskAll ends.now path.old list }
    requires room_for { RoomFor write first
        (list_pieces (lead_of obstacles.now) obstacles.now.index.placed.frames.now ends.now list)
        numbers.old branches.old }
    ensures { Passed write first result
        (list_pieces (lead_of obstacles.now) obstacles.now.index.placed.frames.now ends.now list)
        numbers.old numbers.new branches.old branches.new }
{
    lead_requests(
        &list, write, first, obstacles, ends, path, numbers, branches,
    )
}

// Leads the lines among a block of branches from `start` on.
fn lead_batch(
    start: usize,
    write: bool,
    first: usize,
    network: &Bounded<'_>,
    laid: &Laid<'_>,
    obstacles: &Obstacles<'_>,
    path: &mut [f64],
    numbers: &mut [f64],
    branches: &mut [u32],
) -> usize
    requires runs_fit { FitAll network.now.lists.from.now laid.now.ends.now path.old }
    requires start_bound { start < 2 ^ 31 }
    requires room_for { RoomFor write first (batch_of network.now.lists laid.now obstacles.now
        start)
        numbers.old branches.old }
    ensures { Passed write first result (batch_of network.now.lists laid.now obstacles.now start)
        numbers.old numbers.new branches.old branches.new }
{
    let list = requests_from(&network.lists, laid, obstacles.index.placed.frames, start);
    lead_list(
        list, write, first, obstacles, laid.ends, path, numbers, branches,
    )
}

/// Leads all lines, each by branch number: counts their pieces from number `first` on, writes them
/// if it is to write, and answers the number after the last.
#[tactic(auto, using(crate::proofs::piece_list::Passes::batch_laws))]
pub(crate) fn lead_lines(
    write: bool,
    first: usize,
    network: &Bounded<'_>,
    laid: &Laid<'_>,
    obstacles: &Obstacles<'_>,
    path: &mut [f64],
    numbers: &mut [f64],
    branches: &mut [u32],
) -> usize
    requires runs_fit { FitAll network.now.lists.from.now laid.now.ends.now path.old }
    requires room_for { RoomFor write first (lines_of network.now.lists laid.now obstacles.now)
        numbers.old branches.old }
    ensures { Passed write first result (lines_of network.now.lists laid.now obstacles.now)
        numbers.old numbers.new branches.old branches.new }
{
    let mut next = first;
    for start in (0..network.lists.from.len()).step_by(16) {
        next = lead_batch(
            start, write, next, network, laid, obstacles, path, numbers, branches,
        );
    }
    next
}
