// Why there is no drawing, or no audit.
use network::refusals::Refusal;
use std::alloc::AllocError;
use std::fmt;

/// Why `draw` or `audit` gives nothing.
#[derive(Debug, Drop)]
pub enum Error {
    /// The input is refused (docs/RULES.md, 'Refusals').
    Refused(Refusal),
    /// A list could not be allocated. Nothing is said of the input.
    OutOfMemory,
}

impl From<AllocError> for Error {
    ghost use Rattle.std.specs.Prelude.{◌≡◌};
    ghost use Rattle.tansygate.specs.declared.errors.Error.TheVariants as Errors;

    ghost from_gives = { λ _ error. error ≡ Errors.OutOfMemory };

    fn from(_error: AllocError) -> Self {
        Error::OutOfMemory
    }
}

impl fmt::Display for Error {
    fn fmt<W: fmt::Write>(&self, f: &mut fmt::Formatter<W>) -> fmt::Result {
        match self {
            Error::Refused(refusal) => write!(f, "refusal {}", refusal.number()),
            Error::OutOfMemory => f.write_str("out of memory"),
        }
    }
}

impl std::error::Error for Error {}
