//! A drawing tried at one fill after the other, from the largest on.
ghost use Rattle.std.specs.Prelude.{◌≡◌, ◌≤◌, length, true, false};
ghost use Rattle.network.specs.Options.{search_of};
ghost use Rattle.network.specs.Words.{station_count};
ghost use Rattle.drawing.specs.Network.{network_of};
ghost use Rattle.drawing.specs.Answer.{crossing_room};
ghost use Rattle.lent.specs.Held.{held_lists, held_work, held_crossings};
ghost use Rattle.lent.specs.Held.{SameLists, SameWork, SameCrossings, LongWork, LongCrossings};
ghost use Rattle.chart.specs.Stages.Lengths.{StationRoom, SortRoom, CrossingRoom, MeshRoom};
ghost use Rattle.chart.specs.Stages.LaidOut.{PreparedIn, SeededIn};
ghost use Rattle.finish.specs.Stages.Draft.{ResultRoom};
ghost use Rattle.fill.specs.Fill.{at_fill, greatest};
ghost use Rattle.fill.specs.Stages.Tried.{AfterFill, passes, AfterFills};

use crate::answer::Largest;
use chart::lay::{lay_out, seed_again};
use chart::route_laid_out;
use drawing::answer::Plot;
use drawing::lengths::ListLengths;
use finish::write_drawing;
use lent::lengths::crossing_room;
use lent::{Crossings, Lists, Work};
use network::lists::Bounded;
use network::options::Options;
use stations::measures::Typical;

/// The options with fill k/64 and straight lines.
#[tactic(auto, unfolding(crate::specs::Fill::at_fill))]
pub(crate) fn at_fill(options: Options, sixty_fourths: u32) -> Options
    ensures { result ≡ at_fill options sixty_fourths }
{
    Options {
        fill: sixty_fourths as f64 / 64.0,
        tier_radius: options.tier_radius,
        tier_count_1: options.tier_count_1,
        tier_count_2: options.tier_count_2,
        tier_scale_1: options.tier_scale_1,
        tier_scale_2: options.tier_scale_2,
        search: options.search,
        route_iterations: 0,
        block_options: options.block_options,
    }
}

// Draws a prepared network into the result lists where nothing refuses the drawing and every box
// finds a free place; else leaves them as they are.
fn try_fill(
    lists: &mut Lists<'_>,
    work: &mut Work<'_>,
    crossings: &mut Crossings<'_>,
    options: Options,
    net: &Bounded<'_>,
    stations: usize,
    room: ListLengths,
    typical: Typical,
) -> Option<Plot>
    requires counted { stations ≡ station_count net.now.lists.sub.now }
    requires few_stations { stations ≤ length net.now.lists.sub.now }
    requires few_buses { length net.now.lists.sub.now ≤ 4096 }
    requires each_voltage { length net.now.lists.kv.now ≡ length net.now.lists.sub.now }
    requires short_search { search_of options.search ≤ 20 }
    requires station_room { StationRoom (network_of net.now.lists) (held_work work.old) }
    requires sort_room { SortRoom (network_of net.now.lists) (held_work work.old) }
    requires crossing_room { CrossingRoom (crossing_room room) (held_work work.old)
        (held_crossings crossings.old) }
    requires mesh_room { MeshRoom (length net.now.lists.sub.now) (network_of net.now.lists)
        (held_work work.old) }
    requires result_room { ResultRoom (network_of net.now.lists) stations room
        (held_lists lists.old) }
    requires prepared { PreparedIn options (network_of net.now.lists) stations typical
        (held_work work.old) }
    requires seeded { SeededIn (network_of net.now.lists) stations (held_work work.old) }
    ensures same { SameLists lists.new lists.old × SameWork work.new work.old
        × SameCrossings crossings.new crossings.old }
    ensures long { LongWork work.new work.old × LongCrossings crossings.new crossings.old }
    ensures prepared { PreparedIn options (network_of net.now.lists) stations typical
        (held_work work.new) }
    ensures tried { AfterFill options (network_of net.now.lists) room (held_lists lists.old) result
        (held_lists lists.new) }
{
    let laid = lay_out(work, options, net, stations, typical, true);
    if !laid.all_free {
        return None;
    }
    let fit = crossing_room(room);
    let outcome = route_laid_out(work, crossings, options, net, stations, laid.unit, fit);
    write_drawing(
        lists, work, crossings, options, net, stations, room, outcome,
    )
    .ok()
}

/// Tries the fills from so many sixty-fourths down to one: the first that serves, with its drawing
/// in the result lists; none where there is none, and the result lists then stay as they are.
pub(crate) fn try_fills(
    lists: &mut Lists<'_>,
    work: &mut Work<'_>,
    crossings: &mut Crossings<'_>,
    options: Options,
    net: &Bounded<'_>,
    stations: usize,
    room: ListLengths,
    typical: Typical,
    sixty_fourths: u32,
) -> Option<Largest>
    requires counted { stations ≡ station_count net.now.lists.sub.now }
    requires few_stations { stations ≤ length net.now.lists.sub.now }
    requires few_buses { length net.now.lists.sub.now ≤ 4096 }
    requires each_voltage { length net.now.lists.kv.now ≡ length net.now.lists.sub.now }
    requires short_search { search_of options.search ≤ 20 }
    requires station_room { StationRoom (network_of net.now.lists) (held_work work.old) }
    requires sort_room { SortRoom (network_of net.now.lists) (held_work work.old) }
    requires crossing_room { CrossingRoom (crossing_room room) (held_work work.old)
        (held_crossings crossings.old) }
    requires mesh_room { MeshRoom (length net.now.lists.sub.now) (network_of net.now.lists)
        (held_work work.old) }
    requires result_room { ResultRoom (network_of net.now.lists) stations room
        (held_lists lists.old) }
    requires prepared { PreparedIn options (network_of net.now.lists) stations typical
        (held_work work.old) }
    ensures same { SameLists lists.new lists.old × SameWork work.new work.old
        × SameCrossings crossings.new crossings.old }
    ensures long { LongWork work.new work.old × LongCrossings crossings.new crossings.old }
    ensures found { AfterFills options (network_of net.now.lists) room sixty_fourths
        (held_lists lists.old) result (held_lists lists.new) }
{
    if sixty_fourths == 0 {
        return None;
    }
    seed_again(work, net, stations);
    let tried = try_fill(
        lists,
        work,
        crossings,
        at_fill(options, sixty_fourths),
        net,
        stations,
        room,
        typical,
    );
    if let Some(plot) = tried {
        return Some(Largest {
            sixty_fourths,
            plot,
        });
    }
    try_fills(
        lists,
        work,
        crossings,
        options,
        net,
        stations,
        room,
        typical,
        sixty_fourths - 1,
    )
}
