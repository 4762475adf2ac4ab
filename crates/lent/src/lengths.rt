// The lengths of the lent lists, and how many crossings they hold.
ghost use Rattle.std.specs.Prelude.{◌≡◌};
ghost use Rattle.drawing.specs.Answer.{room_of, crossing_room};
ghost use Rattle.lent.specs.Held.{held_lists, held_work, held_crossings};

use crate::{Crossings, Lists, Work};
use drawing::lengths::ListLengths;

/// The lengths of the lent lists.
pub fn room_of(lists: &Lists<'_>, work: &Work<'_>, crossings: &Crossings<'_>) -> ListLengths
    ensures { result
        ≡ room_of (held_lists lists.now) (held_work work.now) (held_crossings crossings.now) }
{
    ListLengths {
        positions: lists.positions.len(),
        bars: lists.bars.len(),
        boxes: lists.boxes.len(),
        scales: lists.scales.len(),
        roles: lists.roles.len(),
        pieces: lists.pieces.len(),
        branches: lists.branches.len(),
        stations: work.stations.len(),
        buses: work.buses.len(),
        ends: work.ends.len(),
        sorted: work.sorted.len(),
        spare: work.spare.len(),
        keys: work.keys.len(),
        places: work.places.len(),
        blocks: work.blocks.len(),
        frames: work.frames.len(),
        path: work.path.len(),
        numbers: crossings.numbers.len(),
        crossings: crossings.places.len(),
        ways: crossings.ways.len(),
    }
}

/// How many crossings the crossing list holds: as many as each of its six lists.
#[tactic(auto, using(crate::proofs::Least::six), unfolding(drawing::specs::Answer::crossing_room))]
pub fn crossing_room(room: ListLengths) -> usize
    ensures { result ≡ crossing_room room }
{
    let sorts = room.sorted.min(room.spare).min(room.keys);
    (room.numbers / 3)
        .min(room.crossings)
        .min(room.ways / 2)
        .min(sorts)
}
