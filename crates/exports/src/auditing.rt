// The audit call.
ghost use Rattle.audit.specs.Drawn.{drawn};
ghost use Rattle.records.specs.Lent.{audit_lists, audit_work};
ghost use Rattle.records.specs.Plain.{judged, AuditAnswered};

use audit::fit::drawn::Drawn;
use audit::lists::{FigureLists, Work};
use audit::quality::tx_layout_quality;
use records::plain::Audited;

/// Audits a drawing, as `tansygate_plot` left it or any other (docs/RULES.md, 'Fit' to 'Relative
/// lengths'). n buses, m branches, k the highest station number + 1, p pieces.
///
/// Result lists: `displacement`, k or more: each occupied station's distance from its seed to the
/// middle of its box. `spacing`, k or more: its distance to the nearest other, in shorter sides of
/// its box. `relative`, p or more: each stretch's drawn length over its straight length.
///
/// Work lists, with any content: `stations` 2 n, `index` 5 n, `spare` n, `keys` n, `points` 2 n and
/// `path` 2 n, or more.
///
/// The network: `sub`, n: each bus's station. `kv`, n: its voltage, as the bits of a float. `from`
/// and `to`, m: each branch's buses. `xy`, 2 n: each bus's map point.
///
/// The drawing: `boxes`, just 4 k: left, top, right and bottom of each station's box. `roles`, just
/// m: each branch's role. `pieces`, just 4 p: x and y of both ends. `branches`, p: each piece's
/// branch.
///
/// The answer's number is 0, or the first that applies, and then its other numbers are zeros and no
/// result list is changed: 1 more than 4,096 buses or 8,192 branches; 2 `kv` isn't as long as
/// `sub`; 3 `to` isn't as long as `from`; 4 a station number isn't below the bus count; 15 a
/// voltage isn't finite and above zero; 6 a bus with two finite coordinates has one above 10^12 in
/// size; 7 a result or work list is too short; 13 the drawing doesn't fit its network; 8 the boxes
/// have no size, or a corner or an end of a piece by that size isn't at most 2^40 in size. After 1
/// to 7 and 15 the work lists hold what they held, else zeros.
#[unsafe(no_mangle)]
pub extern "C" fn tansygate_audit(
    displacement: &mut [f64],
    spacing: &mut [f64],
    relative: &mut [f64],
    stations: &mut [u32],
    index: &mut [u32],
    spare: &mut [u32],
    keys: &mut [u64],
    points: &mut [f64],
    path: &mut [f64],
    sub: &[u32],
    kv: &[u64],
    from: &[i64],
    to: &[i64],
    xy: &[f64],
    boxes: &[f64],
    roles: &[u8],
    pieces: &[f64],
    branches: &[u32],
) -> Audited
    ensures { AuditAnswered
        (drawn sub.now kv.now from.now to.now xy.now boxes.now roles.now pieces.now branches.now)
        (audit_lists displacement.old spacing.old relative.old)
        (audit_work stations.old index.old spare.old keys.old points.old path.old)
        (judged result
        (audit_lists displacement.new spacing.new relative.new)
        (audit_work stations.new index.new spare.new keys.new points.new path.new)) }
{
    let mut lists = FigureLists {
        displacement,
        spacing,
        relative,
    };
    let mut work = Work {
        stations,
        index,
        spare,
        keys,
        points,
        path,
    };
    let drawing = Drawn {
        sub,
        kv,
        from,
        to,
        xy,
        boxes,
        roles,
        pieces,
        branches,
    };
    Audited::from(tx_layout_quality(&mut lists, &mut work, &drawing))
}
