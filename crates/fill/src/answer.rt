// What the call of the largest fill answers.
use drawing::answer::Plot;

/// The largest fill at which a network is drawn and every box finds a free place, and the numbers
/// of its drawing.
#[derive(Clone, Copy)]
pub struct Largest {
    /// The fill, in sixty-fourths: 1 to 64.
    pub sixty_fourths: u32,
    /// The numbers of the drawing.
    pub plot: Plot,
}
