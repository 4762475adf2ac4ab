// What a call answers.
use plane::geometry::Box;

/// The numbers of a drawing beside its lists.
#[derive(Clone, Copy)]
pub struct Plot {
    /// The unit, in map units: what interiors are measured by (docs/RULES.md, 'Spacing and unit').
    pub unit: f64,
    /// The least box around the boxes of all occupied stations; 0, 0, 1, 1 where there are none.
    pub bounds: Box,
    /// How many pieces the piece lists hold.
    pub pieces: usize,
}
