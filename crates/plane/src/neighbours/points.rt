//! Points as they are lent.
ghost use Rattle.std.specs.Prelude.{◌*◌, ◌≤◌, length};

/// The first n points of a list of coordinates.
#[derive(Clone, Copy)]
pub struct Points<'a> {
    /// How many points.
    pub n: usize,
    /// The x of point i at 2 i and its y at 2 i + 1.
    pub xy: &'a [f64],
    pub ghost held: { 2 * n ≤ length xy.now },
}
