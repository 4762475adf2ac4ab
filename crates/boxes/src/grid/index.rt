// The boxes of stations, entered by cell.
ghost use Rattle.std.specs.Prelude.{◌≡◌, ◌≤◌};
ghost use Rattle.boxes.specs.Stages.Cells.{Indexed, grid_in};
ghost use Rattle.boxes.specs.Stages.Lent.{boxes_of, occupied_of};

use crate::grid::Grid;
use network::lists::Placed;

/// At most 4,096 stations with their boxes, the list that the boxes of the occupied ones are
/// entered in by `build::index_boxes`, or in which none is, and the grid that it holds.
#[derive(Clone, Copy)]
pub struct BoxIndex<'a> {
    pub placed: Placed<'a>,
    pub cells: &'a [u32],
    pub grid: Grid,
    pub ghost few: { placed.k ≤ 4096 },
    pub ghost indexed: { ∥ Indexed (boxes_of placed) (occupied_of placed) cells.now ∥₁ },
    pub ghost gridded: { grid ≡ grid_in (boxes_of placed) cells.now },
}
