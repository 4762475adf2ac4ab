// The lists of a drawing that an audit reads together.
ghost use Rattle.std.specs.Prelude.{◌≤◌, length};

/// A drawing as it is lent, with its network: of n buses, m branches and k stations
/// (docs/RULES.md, 'Lists').
#[derive(Clone, Copy)]
pub struct Drawn<'a> {
    /// For each bus its station: n.
    pub sub: &'a [u32],
    /// For each bus the bits of its voltage: n.
    pub kv: &'a [u64],
    /// For each branch the bus that it comes from: m.
    pub from: &'a [i64],
    /// For each branch the bus that it goes to: m.
    pub to: &'a [i64],
    /// For each bus its map point, x and y.
    pub xy: &'a [f64],
    /// For each station its box: left, top, right, bottom: 4k.
    pub boxes: &'a [f64],
    /// For each branch the number of its role, 0 for a line: m.
    pub roles: &'a [u8],
    /// For each piece its two ends, x, y, x, y.
    pub pieces: &'a [f64],
    /// For each piece its branch.
    pub branches: &'a [u32],
}

// A drawing of at most 4,096 buses.
#[derive(Clone, Copy)]
pub(crate) struct FewBuses<'a> {
    pub lists: Drawn<'a>,
    pub ghost few_buses: { length lists.sub.now ≤ 4096 },
}
