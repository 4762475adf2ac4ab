// What an audit answers.

/// The figures of an audit that are no lists (docs/RULES.md, 'Lists').
#[derive(Clone, Copy)]
pub struct Figures {
    /// How many stations are occupied: the numbers of displacement and of spacing.
    pub stations: usize,
    /// How many pairs of their boxes overlap.
    pub overlaps: usize,
    /// How many pieces of lines run through a box that isn't one of the line's own stations'.
    pub through: usize,
    /// How many relative lengths there are.
    pub relative: usize,
}
