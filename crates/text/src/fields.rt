// The fields of the text that drawlist reads and writes (docs/RULES.md, 'Text of drawlist').
pub(crate) mod field;
/// Numbers as text.
pub mod spell;
