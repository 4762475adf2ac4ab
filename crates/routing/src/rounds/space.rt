// Crossings spaced on their channels, round after round
// (docs/RULES.md, 'Spacing on a channel', 'Rounds and waypoints').
ghost use Rattle.std.specs.Prelude.{◌≡◌, map, ℕ, ◌+◌, ◌-◌, ◌*◌, ◌^◌, ◌≤◌, ◌<◌, length};
ghost use Rattle.numbers.specs.Table.{table};
ghost use Rattle.channels.specs.Space.{put_all};
ghost use Rattle.network.specs.Views.{points_in};
ghost use Rattle.routing.specs.Stages.RoundLists.{half_edge_in, station_in, wish_in};
ghost use Rattle.routing.specs.Stages.RoundLists.{channel_between, read_channel};
ghost use Rattle.routing.specs.Stages.RoundLists.{put_channel, Boxed, Cornered, Ranged, Ready};
ghost use Rattle.routing.specs.Stages.RoundLists.{space_in, spaced_in, rounds_in};
ghost use Rattle.routing.specs.Stages.Lent.{fixed_lists, crossing_point};
ghost use Rattle.channels.specs.Stages.Grouped.{start_in, member_in};

use crate::crossings::clearance::clearance_of;
use crate::crossings::crossings::{high_at, low_at};
use crate::wishes::fixed::{Crossed, Fixed};
use crate::wishes::{edge_of, point_of, wish_of};
use channels::channel::Channel;
use channels::channel::ends::channel;
use channels::spacing::space_sorted;
use network::seeds::put_point;
use numbers::order::at;
use plane::geometry::{number_at, point_at};

/// What rounds read: what stands still, with so many channels behind `occupied`
/// points of `centres`; each channel's crossings stand one after another in the first `most`.
#[derive(Clone, Copy)]
pub(crate) struct RoundInput<'a> {
    pub(crate) fixed: Fixed<'a>,
    pub(crate) occupied: usize,
    pub(crate) channels: usize,
    pub(crate) most: usize,
    pub(crate) ghost occupied_fits: { occupied ≤ 2 ^ 32 },
    pub(crate) ghost channels_fit: { channels < 2 ^ 32 },
    pub(crate) ghost few: { most ≤ 2 ^ 32 },
    pub(crate) ghost ready: { Ready (fixed_lists fixed) channels most },
}

// Where a channel's crossings begin among those grouped by channel.
#[tactic(auto, unfolding(channels::specs::Stages::Grouped::start_in))]
fn start_of(branch_count: usize, ends: &[u32], channel: usize) -> u32
    requires few_branches { branch_count ≤ 2 ^ 32 }
    requires few_channels { channel ≤ 2 ^ 32 }
    ensures { result ≡ start_in branch_count ends.now channel }
{
    at(ends, 4 * (branch_count + channel) + 3)
}

// A crossing by its number among those grouped by channel.
#[tactic(auto, unfolding(channels::specs::Stages::Grouped::member_in))]
fn member_of(numbers: &[u32], number: usize) -> u32
    requires { number < 2 ^ 33 }
    ensures { result ≡ member_in numbers.now number }
{
    at(numbers, 3 * number + 2)
}

// The station of a vertex.
#[tactic(auto, unfolding(crate::specs::Stages::RoundLists::station_in))]
fn station_at(stations: &[u32], vertex: u32) -> u32
    ensures { result ≡ station_in stations.now vertex }
{
    at(stations, 2 * vertex as usize + 1)
}

// The part where lines may cross the channel of a half-edge.
fn channel_between(
    unit: f64,
    blocks: &[f64],
    frames: &[f64],
    stations: &[u32],
    centres: &[f64],
    corners: &[u32],
    half_edge: u32,
) -> Channel
    requires { Boxed frames.now stations.now corners.now half_edge }
    ensures { result
        ≡ channel_between unit blocks.now frames.now stations.now centres.now corners.now
        half_edge }
{
    let a = low_at(corners, half_edge);
    let b = high_at(corners, half_edge);
    let s = station_at(stations, a) as usize;
    let t = station_at(stations, b) as usize;
    channel(
        point_at(centres, a as usize),
        point_at(centres, b as usize),
        &frames[4 * s..4 * s + 4],
        &frames[4 * t..4 * t + 4],
        number_at(blocks, 3 * s + 2),
        number_at(blocks, 3 * t + 2),
        clearance_of(unit),
    )
}

// Sets a channel, three numbers, behind so many points of a list.
fn put_channel(list: &mut [f64], point_count: usize, channel: usize, value: Channel)
    requires { 2 * point_count + 3 * channel + 3 ≤ length list.old }
    ensures { list.new ≡ put_channel list.old point_count channel value }
{
    let i = 2 * point_count + 3 * channel;
    list[i] = value.lo;
    list[i + 1] = value.hi;
    list[i + 2] = value.least_step;
}

/// Writes every channel behind the points of the mesh's vertices.
#[tactic(auto, using(crate::proofs::rounds::Ranges::ranged))]
pub(crate) fn write_channels(
    branch_count: usize,
    unit: f64,
    ends: &[u32],
    blocks: &[f64],
    frames: &[f64],
    stations: &[u32],
    corners: &[u32],
    vertex_count: usize,
    channels: usize,
    centres: &mut [f64],
)
    requires few_branches { branch_count ≤ 2 ^ 32 }
    requires few_channels { channels < 2 ^ 32 }
    requires centres_fit { 2 * vertex_count + 3 * channels ≤ length centres.old }
    requires half_edges_cornered { (d : ℕ) → d < channels
        → Cornered frames.now stations.now corners.now vertex_count
        (half_edge_in branch_count ends.now d) }
    ensures { Ranged unit blocks.now frames.now stations.now corners.now branch_count ends.now
        vertex_count channels centres.old centres.new }
{
    for d in 0..channels {
        let h = edge_of(branch_count, ends, d);
        let r = channel_between(unit, blocks, frames, stations, centres, corners, h);
        put_channel(centres, vertex_count, d, r);
    }
}

// A channel, behind so many points of a list.
#[tactic(auto, unfolding(crate::specs::Stages::RoundLists::read_channel))]
fn read_channel(list: &[f64], point_count: usize, channel: usize) -> Channel
    requires few_points { point_count ≤ 2 ^ 32 }
    requires few_channels { channel < 2 ^ 32 }
    ensures { result ≡ read_channel point_count list.now channel }
{
    let i = 2 * point_count + 3 * channel;
    Channel {
        lo: number_at(list, i),
        hi: number_at(list, i + 1),
        least_step: number_at(list, i + 2),
    }
}

// The wishes of crossings, those from `start` on among the crossings grouped by channel.
#[tactic(auto, using(crate::proofs::rounds::Pointing::tabled))]
fn take_wishes(fixed: &Fixed<'_>, along: &[f64], start: u32, ways: &mut [f64])
    requires { length ways.old ≤ 2 ^ 32 }
    ensures { ways.new
        ≡ table (λ i. wish_in (fixed_lists fixed.now) along.now
        (member_in fixed.now.crossed.numbers.now (start + i))) (length ways.old) }
{
    for (i, wish) in ways.iter_mut().enumerate() {
        let x = member_of(fixed.crossed.numbers, start as usize + i);
        *wish = wish_of(fixed, along, x);
    }
}

// Puts each fraction at its crossing, by the order of the wishes.
#[tactic(auto, using(crate::proofs::rounds::Putting::putting))]
fn put_places(numbers: &[u32], start: u32, order: &[u32], places: &[f64], along: &mut [f64])
    requires { length order.now ≤ length places.now }
    ensures { along.new
        ≡ put_all (map (λ j. member_in numbers.now (start + j)) order.now) places.now along.old }
{
    for (i, &j) in order.iter().enumerate() {
        let x = member_of(numbers, start as usize + j as usize) as usize;
        if x < along.len() {
            along[x] = places[i];
        }
    }
}

// Spaces a channel's crossings: all its wishes are taken before any fraction changes. `ways`,
// `sorted`, `spare` and `keys` are work lists.
fn space_one(
    input: &RoundInput<'_>,
    channel: usize,
    along: &mut [f64],
    ways: &mut [f64],
    sorted: &mut [u32],
    spare: &mut [u32],
    keys: &mut [u64],
)
    requires channel_in_bounds { channel < input.now.channels }
    requires ways_fit { input.now.most ≤ length ways.old }
    requires sorted_fits { input.now.most ≤ length sorted.old }
    requires spare_fits { input.now.most ≤ length spare.old }
    requires keys_fit { input.now.most ≤ length keys.old }
    ensures { along.new
        ≡ space_in input.now.occupied (fixed_lists input.now.fixed) channel along.old }
{
    let crossed = &input.fixed.crossed;
    let start = start_of(crossed.m, crossed.ends, channel);
    let n = (start_of(crossed.m, crossed.ends, channel + 1) - start) as usize;
    take_wishes(&input.fixed, along, start, &mut ways[..n]);
    let value = read_channel(crossed.centres, input.occupied, channel);
    space_sorted(value, n, ways, keys, sorted, spare);
    put_places(crossed.numbers, start, &sorted[..n], &ways[..n], along);
}

// One round: the channels' crossings spaced, one channel after another.
#[tactic(auto, using(crate::proofs::rounds::Making::spaced_laws))]
fn round(
    input: &RoundInput<'_>,
    along: &mut [f64],
    ways: &mut [f64],
    sorted: &mut [u32],
    spare: &mut [u32],
    keys: &mut [u64],
)
    requires ways_fit { input.now.most ≤ length ways.old }
    requires sorted_fits { input.now.most ≤ length sorted.old }
    requires spare_fits { input.now.most ≤ length spare.old }
    requires keys_fit { input.now.most ≤ length keys.old }
    ensures { along.new
        ≡ spaced_in input.now.occupied (fixed_lists input.now.fixed) input.now.channels
        along.old }
{
    for c in 0..input.channels {
        space_one(input, c, along, ways, sorted, spare, keys);
    }
}

/// So many rounds. `ways`, `sorted`, `spare` and `keys` are work lists.
#[tactic(auto, using(crate::proofs::rounds::Making::rounds_laws))]
pub(crate) fn rounds(
    input: &RoundInput<'_>,
    iterations: u32,
    along: &mut [f64],
    ways: &mut [f64],
    sorted: &mut [u32],
    spare: &mut [u32],
    keys: &mut [u64],
)
    requires ways_fit { input.now.most ≤ length ways.old }
    requires sorted_fits { input.now.most ≤ length sorted.old }
    requires spare_fits { input.now.most ≤ length spare.old }
    requires keys_fit { input.now.most ≤ length keys.old }
    ensures { along.new
        ≡ rounds_in input.now.occupied (fixed_lists input.now.fixed) input.now.channels
        iterations along.old }
{
    for _ in 0..iterations {
        round(input, along, ways, sorted, spare, keys);
    }
}

/// Puts the points of the first `crossing_count` crossings, two numbers each, to the front of
/// `ways`.
#[tactic(auto, using(crate::proofs::rounds::Pointing::pointing))]
pub(crate) fn put_points(
    crossed: &Crossed<'_>,
    along: &[f64],
    crossing_count: usize,
    ways: &mut [f64],
)
    requires few_crossings { crossing_count ≤ 2 ^ 32 }
    requires ways_fit { 2 * crossing_count ≤ length ways.old }
    ensures { points_in crossing_count ways.new
        ≡ table (crossing_point crossed.now along.now) crossing_count }
{
    for x in 0..crossing_count {
        put_point(ways, x, point_of(crossed, along, x));
    }
}
