// What an audit is lent and what it answers.
/// What an audit answers.
pub mod answer;
pub(crate) mod lengths;
