// A drawing and the audit of it in one call.
ghost use Rattle.std.specs.Prelude.{ℕ, ◌≡◌, ◌*◌, ◌^◌, ◌<◌, ◌≤◌, length, get_or};
ghost use Rattle.audit.specs.Answer as Audited;
ghost use Rattle.lent.specs.Held.{held_network, held_lists, held_work, held_crossings};
ghost use Rattle.lent.specs.Held.{SameLists, SameWork, SameCrossings};
ghost use Rattle.wall.specs.Wall.{audit_parts};
ghost use Rattle.wall.specs.Claim.{both, figure_lists, audit_work, Claim};

use audit::findings::answer::Figures;
use audit::fit::drawn::Drawn;
use audit::quality::tx_layout_quality;
use drawing::answer::Plot;
use layout::call::tx_schematic_layout;
use lent::{Crossings, Lists, Work};
use network::lists::Network;
use network::options::Options;
use network::refusals::Refusal;
use network::words::station_count;

// Audits the parts of the lists that a drawing of `count` pieces fills: they are cut here.
fn audit_drawing(
    displacement: &mut [f64],
    spacing: &mut [f64],
    relative: &mut [f64],
    stations: &mut [u32],
    index: &mut [u32],
    spare: &mut [u32],
    keys: &mut [u64],
    points: &mut [f64],
    path: &mut [f64],
    count: usize,
    network: &Network<'_>,
    drawn: &Lists<'_>,
) -> Result<Figures, Refusal>
    requires pieces_room { 4 * count ≤ length drawn.now.pieces.now }
    requires branches_room { count ≤ length drawn.now.branches.now }
    ensures { Audited.call result
        (figure_lists displacement.new spacing.new relative.new)
        (audit_work stations.new index.new spare.new keys.new points.new path.new)
        ≡ Audited.audit_of
        (audit_parts network.now.sub.now network.now.kv.now network.now.from.now network.now.to.now
        network.now.xy.now drawn.now.boxes.now drawn.now.roles.now drawn.now.pieces.now
        drawn.now.branches.now count)
        (figure_lists displacement.old spacing.old relative.old)
        (audit_work stations.old index.old spare.old keys.old points.old path.old) }
{
    let k = station_count(network.sub);
    let b = (4 * k).min(drawn.boxes.len());
    let m = network.from.len().min(drawn.roles.len());
    let part = Drawn {
        sub: network.sub,
        kv: network.kv,
        from: network.from,
        to: network.to,
        xy: network.xy,
        boxes: &drawn.boxes[0..b],
        roles: &drawn.roles[0..m],
        pieces: &drawn.pieces[0..4 * count],
        branches: &drawn.branches[0..count],
    };
    let mut lists = audit::lists::FigureLists {
        displacement,
        spacing,
        relative,
    };
    let mut work = audit::lists::Work {
        stations,
        index,
        spare,
        keys,
        points,
        path,
    };
    tx_layout_quality(&mut lists, &mut work, &part)
}

// Nothing but what the list's type says: it is known of a list that is passed, and not of one in a
// struct.
fn patterned(kv: &[u64])
    ensures { (i : ℕ) → get_or kv.now i 0 < 2 ^ 64 }
{}

/// Draws the network into the lent lists and audits the drawing as it stands there (docs/RULES.md,
/// 'Draw and audit').
///
/// The audit's numbers go into work lists: displacement into `blocks`, spacing into `frames`,
/// relative lengths into the crossings' `ways`. `Err`: layout's refusal. `Ok`: the plot, and what
/// the audit answers, which may be a refusal.
pub fn draw_and_audit(
    lists: &mut Lists<'_>,
    work: &mut Work<'_>,
    crossings: &mut Crossings<'_>,
    options: Options,
    network: &Network<'_>,
) -> Result<(Plot, Result<Figures, Refusal>), Refusal>
    ensures same_lists { SameLists lists.new lists.old }
    ensures same_work { SameWork work.new work.old }
    ensures same_crossings { SameCrossings crossings.new crossings.old }
    ensures is { Claim options (held_network network.now)
        (held_lists lists.old) (held_work work.old) (held_crossings crossings.old)
        (both result (held_lists lists.new) (held_work work.new) (held_crossings crossings.new)) }
{
    patterned(network.kv);
    let plot = tx_schematic_layout(lists, work, crossings, options, network)?;
    let blocks = &mut *work.blocks;
    let frames = &mut *work.frames;
    let ways = &mut *crossings.ways;
    let stations = &mut *work.stations;
    let sorted = &mut *work.sorted;
    let spare = &mut *work.spare;
    let keys = &mut *work.keys;
    let places = &mut *work.places;
    let path = &mut *work.path;
    let audit = audit_drawing(
        blocks,
        frames,
        ways,
        stations,
        sorted,
        spare,
        keys,
        places,
        path,
        plot.pieces,
        network,
        lists,
    );
    Ok((plot, audit))
}
