// The lists that stand still while crossings are spaced.
ghost use Rattle.std.specs.Prelude.{◌^◌, ◌≤◌};

/// What crossings' points are read from: the numbers of m branches and, behind them, of the
/// channels; the vertices' places; the mesh's vertices; and the crossings' numbers.
#[derive(Clone, Copy)]
pub(crate) struct Crossed<'a> {
    pub m: usize,
    pub ends: &'a [u32],
    pub centres: &'a [f64],
    pub corners: &'a [u32],
    pub numbers: &'a [u32],
    pub ghost m_fits: { m ≤ 2 ^ 32 },
}

/// What stands still while crossings are spaced: that, and the lines' exits, behind `base` points
/// of `places`.
#[derive(Clone, Copy)]
pub(crate) struct Fixed<'a> {
    pub crossed: Crossed<'a>,
    pub base: usize,
    pub places: &'a [f64],
    pub ghost base_fits: { base ≤ 2 ^ 32 },
}
