//! The channel between two stations: its part outside both boxes, with its least step
//! (docs/RULES.md, 'Channels').
ghost use Rattle.std.specs.Prelude.{◌≡◌, length};
ghost use Rattle.plane.specs.Plane.{box_at};
ghost use Rattle.channels.specs.Channel.{reach_on, reach, held, channel_of};

use crate::channel::Channel;
use numbers::float::small::{abs, clamp, max, min};
use numbers::hypot::hypot;
use plane::geometry::Point;

// How far a half side reaches along a direction of which this is the part on its axis.
#[tactic(auto, unfolding(crate::specs::Channel::reach_on))]
fn reach_on(half: f64, part: f64) -> f64
    ensures { result ≡ reach_on half part }
{
    let a = abs(part);
    if a > 1e-12 { half / a } else { f64::INFINITY }
}

// The distance from the centre of a box, of which these are the four sides, along (dx, dy) to its
// edge.
#[tactic(auto, unfolding(crate::specs::Channel::reach))]
fn reach(sides: &[f64], dx: f64, dy: f64) -> f64
    requires { length sides.now ≡ 4 }
    ensures { result ≡ reach (box_at sides.now 0) dx dy }
{
    min(
        reach_on((sides[2] - sides[0]) / 2.0, dx),
        reach_on((sides[3] - sides[1]) / 2.0, dy),
    )
}

// Ends that have passed one another both become their mean; then they are held to 0..1.
#[tactic(auto, unfolding(crate::specs::Channel::held))]
fn held(lo: f64, hi: f64, least_step: f64) -> Channel
    ensures { result ≡ held lo hi least_step }
{
    if lo > hi {
        let mid = clamp((lo + hi) / 2.0, 0.0, 1.0);
        return Channel {
            lo: mid,
            hi: mid,
            least_step,
        };
    }
    Channel {
        lo: clamp(lo, 0.0, 1.0),
        hi: clamp(hi, 0.0, 1.0),
        least_step,
    }
}

/// The channel from a station's place to that of another: each with its box, as four sides, and its
/// scale; `clearance` is the clearance of the drawing.
#[tactic(auto, unfolding(crate::specs::Channel::channel_of))]
pub fn channel(
    start: Point,
    end: Point,
    start_box: &[f64],
    end_box: &[f64],
    start_scale: f64,
    end_scale: f64,
    clearance: f64,
) -> Channel
    requires start_sides { length start_box.now ≡ 4 }
    requires end_sides { length end_box.now ≡ 4 }
    ensures { result ≡ channel_of start end (box_at start_box.now 0) (box_at end_box.now 0)
        start_scale end_scale clearance }
{
    let ax = end.x - start.x;
    let ay = end.y - start.y;
    let len = max(hypot(ax, ay), f64::MIN_POSITIVE);
    let dx = ax / len;
    let dy = ay / len;
    let g = clearance * min(start_scale, end_scale);
    held(
        (reach(start_box, dx, dy) + g) / len,
        1.0 - (reach(end_box, dx, dy) + g) / len,
        g / len,
    )
}
