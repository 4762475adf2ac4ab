// The clearance.
ghost use Rattle.std.specs.Prelude.{◌≡◌};
ghost use Rattle.routing.specs.Clearance.{clearance_of};

/// The clearance, 0.8 × unit (docs/RULES.md, 'Channels').
#[tactic(auto, unfolding(crate::specs::Clearance::clearance_of))]
pub fn clearance_of(unit: f64) -> f64
    ensures { result ≡ clearance_of unit }
{
    0.8 * unit
}
