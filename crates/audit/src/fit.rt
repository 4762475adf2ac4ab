// Whether an audited drawing fits its network, and whether it is ill sized: refusals 13 and 8.
/// The drawing that is audited.
pub mod drawn;
/// Refusal 13.
pub mod fit;
pub(crate) mod scale;
