// The result lists of a drawing on the heap.
ghost use Rattle.std.specs.Prelude.{◌≡◌, ◌≤◌, ◌*◌, IfOk};
ghost use Rattle.tansygate.specs.Lists.{lists_in, lent_lists, cut_to};

use std::alloc::{AllocError, Global};

/// The lists of a drawing of n buses, m branches, k stations and p pieces, each as long as it says
/// (docs/RULES.md, 'Lists').
#[derive(Drop)]
pub struct Lists {
    /// The middle of each bus's bar: x and y, 2 n numbers.
    pub positions: Vec<f64>,
    /// Each bus's bar: x and y of its upper end, then of its lower end, 4 n numbers.
    pub bars: Vec<f64>,
    /// Each station's box: left, top, right and bottom, 4 k numbers.
    pub boxes: Vec<f64>,
    /// Each station's scale, k numbers.
    pub scales: Vec<f64>,
    /// Each branch's role: 0 a line, 1 within a station, 2 open or undrawn; m numbers.
    pub roles: Vec<u8>,
    /// Each piece of a branch: x and y of both ends, 4 p numbers.
    pub pieces: Vec<f64>,
    /// The branch of each piece, p numbers.
    pub branches: Vec<u32>,
}

// Lists of zeros.
pub(crate) fn lists_for(
    alloc: Global,
    buses: usize,
    branches: usize,
    stations: usize,
    pieces: usize,
) -> Result<Lists, AllocError>
    requires few_buses { buses ≤ 4096 }
    requires few_stations { stations ≤ 4096 }
    requires few_pieces { pieces ≤ 16777216 }
    ensures { IfOk result (λ l. lists_in l ≡ lent_lists buses branches stations pieces) }
{
    Ok(Lists {
        positions: vec![in alloc; 0.0; 2 * buses]?,
        bars: vec![in alloc; 0.0; 4 * buses]?,
        boxes: vec![in alloc; 0.0; 4 * stations]?,
        scales: vec![in alloc; 0.0; stations]?,
        roles: vec![in alloc; 0u8; branches]?,
        pieces: vec![in alloc; 0.0; 4 * pieces]?,
        branches: vec![in alloc; 0u32; pieces]?,
    })
}

// The lists with so many pieces.
pub(crate) fn cut(mut lists: Lists, pieces: usize) -> Lists
    requires { pieces ≤ 16777216 }
    ensures { lists_in result ≡ cut_to pieces (lists_in lists) }
{
    lists.pieces.truncate(4 * pieces);
    lists.branches.truncate(pieces);
    lists
}
