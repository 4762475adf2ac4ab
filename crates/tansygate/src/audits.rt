// An audit with every list on the heap.
ghost use Rattle.std.specs.Prelude.{◌≡◌, ◌≤◌, IfOk};
ghost use Rattle.audit.specs.Answer.{audit_of};
ghost use Rattle.audit.specs.Held.{held_drawing, held_work};
ghost use Rattle.lent.specs.Held.{held_network};
ghost use Rattle.tansygate.specs.Lists.{lists_in};
ghost use Rattle.tansygate.specs.Audited.{drawn_of, lists_of_three, figures_in, store_in};
ghost use Rattle.tansygate.specs.Audited.{lent_figures, lent_store, cut_to, DidAudit};

use crate::errors::Error;
use crate::lists::Lists;
use audit::findings::answer::Figures;
use audit::fit::drawn::Drawn;
use audit::lists::Work;
use audit::quality::tx_layout_quality;
use network::lists::Network;
use network::refusals::Refusal;
use network::words::station_count;
use std::alloc::{AllocError, Global};

/// What an audit finds (docs/RULES.md, 'Displacement and spacing', 'Overlaps', 'Lines through
/// boxes', 'Relative lengths').
#[derive(Drop)]
pub struct Audited {
    /// How many stations have buses, how many pairs of their boxes overlap, how many pieces of lines run
    /// through boxes, and how many relative lengths there are.
    pub figures: Figures,
    /// A number for each station with buses, in station order, and one for each relative length.
    pub lists: Findings,
}

/// The numbers of each station, and of each unbroken stretch of a line.
#[derive(Drop)]
pub struct Findings {
    /// How far each station with buses is from its seed, in station order.
    pub displacement: Vec<f64>,
    /// How far its nearest neighbour is, by its shorter side.
    pub spacing: Vec<f64>,
    /// How long each unbroken stretch of a line is, by the distance of its ends.
    pub relative: Vec<f64>,
}

// The work lists.
#[derive(Drop)]
struct Store {
    stations: Vec<u32>,
    index: Vec<u32>,
    spare: Vec<u32>,
    keys: Vec<u64>,
    points: Vec<f64>,
    path: Vec<f64>,
}

// Result lists of zeros.
fn findings_for(alloc: Global, stations: usize, pieces: usize) -> Result<Findings, AllocError>
    ensures { IfOk result (λ f. figures_in f ≡ lent_figures stations pieces) }
{
    Ok(Findings {
        displacement: vec![in alloc; 0.0; stations]?,
        spacing: vec![in alloc; 0.0; stations]?,
        relative: vec![in alloc; 0.0; pieces]?,
    })
}

// Work lists of zeros.
fn store_for(alloc: Global, buses: usize) -> Result<Store, AllocError>
    requires { buses ≤ 4096 }
    ensures { IfOk result (λ s. store_in s ≡ lent_store buses) }
{
    Ok(Store {
        stations: vec![in alloc; 0u32; 2 * buses]?,
        index: vec![in alloc; 0u32; 5 * buses]?,
        spare: vec![in alloc; 0u32; buses]?,
        keys: vec![in alloc; 0u64; buses]?,
        points: vec![in alloc; 0.0; 2 * buses]?,
        path: vec![in alloc; 0.0; 2 * buses]?,
    })
}

// The lists with numbers of so many stations, and so many relative lengths.
fn cut(mut findings: Findings, stations: usize, relative: usize) -> Findings
    ensures { figures_in result ≡ cut_to stations relative (figures_in findings) }
{
    findings.displacement.truncate(stations);
    findings.spacing.truncate(stations);
    findings.relative.truncate(relative);
    findings
}

// Audits with these result lists, and work lists that are lent.
fn audited_lists(
    displacement: &mut [f64],
    spacing: &mut [f64],
    relative: &mut [f64],
    work: &mut Work<'_>,
    drawn: &Drawn<'_>,
) -> Result<Figures, Refusal>
    ensures answer { result ≡ (audit_of (held_drawing drawn.now)
        (lists_of_three displacement.old spacing.old relative.old) (held_work work.old)).answer }
    ensures lists { lists_of_three displacement.new spacing.new relative.new
        ≡ (audit_of (held_drawing drawn.now)
        (lists_of_three displacement.old spacing.old relative.old) (held_work work.old)).lists }
{
    let mut lists = audit::lists::FigureLists {
        displacement,
        spacing,
        relative,
    };
    tx_layout_quality(&mut lists, work, drawn)
}

// The same with the result lists on the heap: the answer, and these lists.
fn audited_in(
    findings: Findings,
    work: &mut Work<'_>,
    drawn: &Drawn<'_>,
) -> (Result<Figures, Refusal>, Findings)
    ensures answer { result.0
        ≡ (audit_of (held_drawing drawn.now) (figures_in findings) (held_work work.old)).answer }
    ensures lists { figures_in result.1
        ≡ (audit_of (held_drawing drawn.now) (figures_in findings) (held_work work.old)).lists }
{
    let Findings {
        mut displacement,
        mut spacing,
        mut relative,
    } = findings;
    let answer = audited_lists(
        displacement.as_mut_slice(),
        spacing.as_mut_slice(),
        relative.as_mut_slice(),
        work,
        drawn,
    );
    let findings = Findings {
        displacement,
        spacing,
        relative,
    };
    (answer, findings)
}

// The same with the work lists on the heap too.
fn audited_with(
    findings: Findings,
    store: Store,
    drawn: &Drawn<'_>,
) -> (Result<Figures, Refusal>, Findings)
    ensures answer { result.0
        ≡ (audit_of (held_drawing drawn.now) (figures_in findings) (store_in store)).answer }
    ensures lists { figures_in result.1
        ≡ (audit_of (held_drawing drawn.now) (figures_in findings) (store_in store)).lists }
{
    let Store {
        mut stations,
        mut index,
        mut spare,
        mut keys,
        mut points,
        mut path,
    } = store;
    let mut work = Work {
        stations: stations.as_mut_slice(),
        index: index.as_mut_slice(),
        spare: spare.as_mut_slice(),
        keys: keys.as_mut_slice(),
        points: points.as_mut_slice(),
        path: path.as_mut_slice(),
    };
    audited_in(findings, &mut work, drawn)
}

/// Audits a drawing of this network, of `draw` or of any lists (docs/RULES.md, 'Fit').
///
/// The lists that `tx_layout_quality` is lent are made here and given back, but those of the
/// findings. The network's mesh and the drawing's positions, bars and scales aren't read.
/// `Refusal::ListTooShort` never comes.
///
/// ```rust
/// let audited = audit(rt.alloc(), &network, &drawing.lists)?;
/// println!(rt; "{} overlaps", audited.figures.overlaps)?;
/// ```
pub fn audit(alloc: Global, network: &Network<'_>, lists: &Lists) -> Result<Audited, Error>
    ensures { DidAudit (drawn_of (held_network network.now) (lists_in lists.now)) result }
{
    let buses = network.sub.len().min(4096);
    let stations = station_count(network.sub).min(4096);
    let findings = findings_for(alloc, stations, lists.branches.len())?;
    let store = store_for(alloc, buses)?;
    let drawn = Drawn {
        sub: network.sub,
        kv: network.kv,
        from: network.from,
        to: network.to,
        xy: network.xy,
        boxes: lists.boxes.as_slice(),
        roles: lists.roles.as_slice(),
        pieces: lists.pieces.as_slice(),
        branches: lists.branches.as_slice(),
    };
    let (answer, findings) = audited_with(findings, store, &drawn);
    match answer {
        Ok(figures) => {
            let lists = cut(findings, figures.stations, figures.relative);
            Ok(Audited { figures, lists })
        }
        Err(refusal) => Err(Error::Refused(refusal)),
    }
}
