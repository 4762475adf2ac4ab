// The lengths of the lent lists.

/// The length of each list that a call is lent to write: elements, not bytes (docs/WORK.md).
#[derive(Clone, Copy)]
pub struct ListLengths {
    // The result lists.
    pub positions: usize,
    pub bars: usize,
    pub boxes: usize,
    pub scales: usize,
    pub roles: usize,
    pub pieces: usize,
    pub branches: usize,
    // The work lists of fixed needed length.
    pub stations: usize,
    pub buses: usize,
    pub ends: usize,
    pub sorted: usize,
    pub spare: usize,
    pub keys: usize,
    pub places: usize,
    pub blocks: usize,
    pub frames: usize,
    pub path: usize,
    // The crossing lists: `crossings` is the length of the crossings' places.
    pub numbers: usize,
    pub crossings: usize,
    pub ways: usize,
}
