// The rounds of spacing: crossings move along their channels towards their wishes
// (docs/RULES.md, 'Rounds and waypoints').
pub(crate) mod space;

ghost use Rattle.std.specs.Prelude.{◌≡◌, ◌+◌, ◌*◌, ◌^◌, ◌≤◌, ◌<◌, length};
ghost use Rattle.network.specs.Views.{points_in};
ghost use Rattle.routing.specs.Stages.RoundLists.{Entered};
ghost use Rattle.routing.specs.Stages.Lent.{grid_among, scene_among, spaced_points, SameEnds};

use crate::crossings::vertices::Vertices;
use crate::rounds::space::{RoundInput, put_points, rounds, write_channels};
use crate::surroundings::Surroundings;
use crate::tracing::lines::TraceCounts;
use crate::wishes::fixed::{Crossed, Fixed};
use channels::grouping::group;
use network::lists::Bounded;

/// Spaces all crossings of the routing that the lists hold, so many rounds, and puts their points
/// into `ways`. The channels are written behind the mesh's points in `centres`; `sorted`,
/// `spare` and `keys` are work lists.
pub(crate) fn space_all_rounds<'a>(
    network: &Bounded<'a>,
    surroundings: &Surroundings<'a>,
    vertices: &Vertices<'_>,
    ends: &mut [u32],
    centres: &mut [f64],
    counts: TraceCounts,
    numbers: &mut [u32],
    along: &mut [f64],
    ways: &mut [f64],
    sorted: &mut [u32],
    spare: &mut [u32],
    keys: &mut [u64],
)
    requires few_channels { counts.channels < 2 ^ 32 }
    requires few_crossings { counts.crossings < 2 ^ 32 }
    requires ends_fit { 4 * (length network.now.lists.from.now + counts.channels) + 4
        ≤ length ends.old }
    requires centres_fit { 2 * vertices.now.c + 3 * counts.channels ≤ length centres.old }
    requires numbers_fit { 3 * counts.crossings ≤ length numbers.old }
    requires ways_fit { 2 * counts.crossings ≤ length ways.old }
    requires sorted_fits { counts.crossings ≤ length sorted.old }
    requires spare_fits { counts.crossings ≤ length spare.old }
    requires keys_fit { counts.crossings ≤ length keys.old }
    requires entered { Entered (grid_among network.now.lists surroundings.now ends.old)
        surroundings.now.station_count
        vertices.now.c vertices.now.stations.now centres.old
        network.now.lists.mesh.corners.now
        network.now.lists.mesh.twins.now
        numbers.old along.old counts.channels counts.crossings }
    ensures ways_after { points_in counts.crossings ways.new
        ≡ spaced_points (scene_among network.now.lists surroundings.now vertices.now.c
        vertices.now.stations.now ends.old centres.old) surroundings.now.iterations
        counts.crossings }
    ensures ends_unchanged { SameEnds (length network.now.lists.from.now)
        ends.old ends.new }
{
    let m = network.lists.from.len();
    group(
        m,
        counts.channels,
        ends,
        numbers,
        sorted,
        spare,
        &mut keys[..counts.crossings],
    );
    write_channels(
        m,
        surroundings.measures.unit,
        ends,
        surroundings.blocks,
        surroundings.frames,
        vertices.stations,
        network.lists.mesh.corners,
        vertices.c,
        counts.channels,
        centres,
    );
    let crossed = Crossed {
        m,
        ends,
        centres,
        corners: network.lists.mesh.corners,
        numbers,
    };
    let fixed = Fixed {
        crossed,
        base: network.lists.sub.len(),
        places: surroundings.places,
    };
    let input = RoundInput {
        fixed,
        occupied: vertices.c,
        channels: counts.channels,
        most: counts.crossings,
    };
    rounds(
        &input,
        surroundings.iterations,
        along,
        ways,
        sorted,
        spare,
        keys,
    );
    put_points(&crossed, along, counts.crossings, ways);
}
