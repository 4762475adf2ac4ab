//! What lines are routed among.
use stations::measures::Measures;

/// What lines are routed among: the stations as they are laid out, and for how many rounds.
#[derive(Clone, Copy)]
pub struct Surroundings<'a> {
    /// What the interiors of stations are measured by.
    pub measures: Measures,
    pub station_count: usize,
    /// How many rounds of spacing; with 0 no line is led through the mesh.
    pub iterations: u32,
    /// Three numbers for each station: width, height and scale.
    pub blocks: &'a [f64],
    /// Two coordinates for each station, and behind as many of them as there are buses two exits
    /// for each branch.
    pub places: &'a [f64],
    /// Each station's box, four numbers.
    pub frames: &'a [f64],
}
