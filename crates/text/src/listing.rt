// The lines of the text that the program drawlist reads and writes (docs/RULES.md, 'Text of
// drawlist').
/// The network that a text stands for.
pub mod input;
mod line;
/// The text of a drawing, and of a refusal.
pub mod output;
