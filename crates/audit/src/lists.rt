// The lists that an audit is lent to write.

/// The result lists of an audit, of k stations and p pieces (docs/RULES.md, 'Lists').
///
/// A list may be longer than it needs to be: what lies past the figures keeps its content.
#[derive(Drop)]
pub struct FigureLists<'a> {
    /// For each occupied station, in order, how far its box's middle is from its seed, in map
    /// units: k.
    pub displacement: &'a mut [f64],
    /// For each occupied station, in order, the least positive distance of its box's middle to
    /// another's, divided by its box's shorter side: k.
    pub spacing: &'a mut [f64],
    /// For each unbroken stretch of a line's pieces, in list order, its length divided by the
    /// distance of its ends: p.
    pub relative: &'a mut [f64],
}

/// The work lists of an audit of n buses (docs/WORK.md).
///
/// Their content before a call doesn't matter; after one that passes its input they hold zeros.
#[derive(Drop)]
pub struct Work<'a> {
    /// Bus counts: 2n.
    pub stations: &'a mut [u32],
    /// Middles by rising x; boxes by left side; boxes by cell: 5n.
    pub index: &'a mut [u32],
    /// The spare list of sorts: n.
    pub spare: &'a mut [u32],
    /// The keys of sorts: n.
    pub keys: &'a mut [u64],
    /// Seeds, then the middles of boxes: 2n.
    pub points: &'a mut [f64],
    /// The middles of the occupied stations' boxes: 2n.
    pub path: &'a mut [f64],
}
