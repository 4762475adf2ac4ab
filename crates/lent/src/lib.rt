// The lists that a call is lent to write.
#![tactic(auto)]

/// Work lists back to zeros.
pub mod clear;
/// The lengths of the lent lists.
pub mod lengths;

/// The result lists of a drawing, of n buses, m branches and k stations (docs/RULES.md, 'Lists').
///
/// A list may be longer than it needs to be: what lies past the drawing keeps its content.
#[derive(Drop)]
pub struct Lists<'a> {
    /// For each bus its position, x and y: 2n.
    pub positions: &'a mut [f64],
    /// For each bus its bar's two ends, x, y, x, y: 4n.
    pub bars: &'a mut [f64],
    /// For each station its box: left, top, right, bottom: 4k.
    pub boxes: &'a mut [f64],
    /// For each station the scale of its interior: k.
    pub scales: &'a mut [f64],
    /// For each branch the number of its role, 0 for a line: m.
    pub roles: &'a mut [u8],
    /// For each piece its two ends, x, y, x, y: any length. Refusal 11 where it is too short.
    pub pieces: &'a mut [f64],
    /// For each piece its branch: any length. Refusal 11 where it is too short.
    pub branches: &'a mut [u32],
}

/// The work lists of fixed needed length, of n buses, m branches and the mesh length L: the length
/// of the mesh's corner list, counted as at most 24,576 (docs/WORK.md).
///
/// Their content before a call doesn't matter; after one that passes its input they hold zeros.
#[derive(Drop)]
pub struct Work<'a> {
    /// At 2s the bus count of station s; at 2s + 1 first its row count, then the station placed as
    /// number s, in the end the station of vertex s: 2n.
    pub stations: &'a mut [u32],
    /// For each bus its column, its first row, and its last row + 1: 3n.
    pub buses: &'a mut [u32],
    /// For each branch the rows of its two ends and two numbers of its route, and four numbers for
    /// each half-edge and channel: 4m + 4L + 4.
    pub ends: &'a mut [u32],
    /// What is sorted; in between the stations placed so far, in the end the boxes by cell:
    /// n + 2m + L, and at least 5n.
    pub sorted: &'a mut [u32],
    /// The spare list of sorts: n + 2m + L.
    pub spare: &'a mut [u32],
    /// The keys of sorts; in between the cells of the stations placed so far: n + 2m + L.
    pub keys: &'a mut [u64],
    /// For each station its seed, then its place; the two exits of each line: 2n + 4m.
    pub places: &'a mut [f64],
    /// For each station its width, height and scale: 3n.
    pub blocks: &'a mut [f64],
    /// For each station its box, from when it is placed: 4n.
    pub frames: &'a mut [f64],
    /// The seeds, then the places of the occupied stations, behind them low end, high end and least
    /// step of each channel; in the end the points of one run: 2n + 3L + 16.
    pub path: &'a mut [f64],
}

/// The crossing lists, beside the three lists that sort: the drawing may have as many crossings as
/// each of the six lists has room for, or it is refusal 10. Any length (docs/WORK.md).
#[derive(Drop)]
pub struct Crossings<'a> {
    /// At 3x the channel of crossing x, at 3x + 1 its branch, at 3x + 2 the crossing with index x
    /// among those grouped by channel: three.
    pub numbers: &'a mut [u32],
    /// For each crossing its fraction on its channel: one number.
    pub places: &'a mut [f64],
    /// The wishes of one channel's crossings; in the end for each crossing its point: two numbers.
    pub ways: &'a mut [f64],
}
