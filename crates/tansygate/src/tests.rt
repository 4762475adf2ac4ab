// That each call succeeds, by numbers worked out by hand, and that it refuses; and that where an
// allocation fails the call that asked for it says so, and the next one is answered. `rt try --test
// --fail-alloc N` lets the Nth allocation of each test fail.
use crate::{AskedRoom, Audited, Drawing, Error, Lists, audit, draw};
use network::lists::Network;
use network::mesh::Mesh;
use network::options::Options;
use network::refusals::Refusal;
use std::alloc::Global;
use std::test::Fail;

// 110.0
const KV: u64 = 0x405b_8000_0000_0000;

// Two stations of one bus each at (0, 0) and (1, 0), with a line between them.
fn two_buses<'a>(kv: &'a [u64]) -> Network<'a> {
    Network {
        sub: &[0, 1],
        kv,
        from: &[0],
        to: &[1],
        service: &[1],
        xy: &[0.0, 0.0, 1.0, 0.0],
        mesh: Mesh {
            corners: &[],
            twins: &[],
        },
    }
}

// Drawn straight, half filled; once more where memory ran out.
fn drawn(alloc: Global, network: &Network<'_>, pieces: usize) -> Result<Drawing, Error> {
    let options = Options {
        fill: 0.5,
        route_iterations: 0,
        ..Options::default()
    };
    let asked = AskedRoom {
        pieces,
        crossings: 0,
    };
    match draw(alloc, network, options, asked) {
        Err(Error::OutOfMemory) => draw(alloc, network, options, asked),
        answer => answer,
    }
}

// Audited; once more where memory ran out.
fn audited(alloc: Global, network: &Network<'_>, lists: &Lists) -> Result<Audited, Error> {
    match audit(alloc, network, lists) {
        Err(Error::OutOfMemory) => audit(alloc, network, lists),
        answer => answer,
    }
}

// What a call is refused for.
fn refusal<T: Drop>(answer: Result<T, Error>) -> Option<Refusal> {
    match answer {
        Err(Error::Refused(refusal)) => Some(refusal),
        _ => None,
    }
}

#[test]
fn draws_and_audits(rt: HostRuntime) -> Result<(), Fail> {
    let network = two_buses(&[KV, KV]);
    let drawing = drawn(rt.alloc(), &network, 3)?;
    let lists = &drawing.lists;
    let boxes = [-0.125, -0.25, 0.125, 0.25, 0.875, -0.25, 1.125, 0.25];
    assert_eq!(rt; lists.boxes.as_slice(), boxes.as_slice());
    assert_eq!(rt; lists.branches.as_slice(), [0, 0, 0].as_slice());
    let found = audited(rt.alloc(), &network, lists)?;
    assert_eq!(rt; found.figures.stations, 2);
    assert_eq!(rt; found.lists.displacement.as_slice(), [0.0, 0.0].as_slice());
    assert_eq!(rt; found.lists.spacing.as_slice(), [4.0, 4.0].as_slice());
    assert_eq!(rt; found.lists.relative.as_slice(), [1.0].as_slice());
    Ok(())
}

#[test]
fn refuses(rt: HostRuntime) -> Result<(), Fail> {
    let network = two_buses(&[KV, KV]);
    let short = two_buses(&[KV]);
    assert_eq!(rt;
        refusal(drawn(rt.alloc(), &short, 3)),
        Some(Refusal::KvLength)
    );
    assert_eq!(rt;
        refusal(drawn(rt.alloc(), &network, 2)),
        Some(Refusal::Pieces)
    );
    let mut drawing = drawn(rt.alloc(), &network, 3)?;
    drawing.lists.boxes.truncate(4);
    let unfit = audited(rt.alloc(), &network, &drawing.lists);
    assert_eq!(rt; refusal(unfit), Some(Refusal::NoFit));
    Ok(())
}
