//! The cell of an edge, as it is stored: plus 2^52 (docs/RULES.md, 'Boxes in cell order').
ghost use Rattle.std.specs.Prelude.{◌≡◌, ◌^◌, ◌≤◌, nat_abs};
ghost use Rattle.plane.specs.Stages.Cells.{cell_number, shifted, cell_key};

use numbers::float::floor::floor_to_i64;

/// A cell as it is stored: plus 2^52.
pub fn shifted(cell: i64) -> u64
    requires { nat_abs cell ≤ 2 ^ 52 }
    ensures { result ≡ shifted cell }
{
    (cell + 4503599627370496) as u64
}

// The floor of a number, held to ±2^52; plus 2^52. A NaN gives the key of cell 0.
fn number_key(number: f64) -> u64
    ensures { result ≡ shifted (cell_number number) }
{
    if -4503599627370496.0 < number {
        if number < 4503599627370496.0 {
            return shifted(floor_to_i64(number));
        }
        return 9007199254740992;
    }
    if number < 0.0 {
        return 0;
    }
    4503599627370496
}

/// The cell of an edge as it is stored, plus 2^52: the floor of edge / unit, held to ±2^52; 0 where
/// the unit isn't above 0, and where the quotient is a NaN.
#[tactic(auto, using(crate::proofs::cells::CellCode::cell_laws))]
pub fn cell_key(unit: f64, edge: f64) -> u64
    ensures { result ≡ cell_key unit edge }
{
    if 0.0 < unit {
        return number_key(edge / unit);
    }
    4503599627370496
}
