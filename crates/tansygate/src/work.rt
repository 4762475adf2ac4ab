// The work lists of a drawing on the heap.
ghost use Rattle.std.specs.Prelude.{◌≡◌, ◌≤◌, ◌*◌, IfOk};
ghost use Rattle.tansygate.specs.Work.{work_in, crossings_in, lent_work, lent_crossings};

use std::alloc::{AllocError, Global};

// The lists of `lent::Work`, then those of `lent::Crossings`.
#[derive(Drop)]
pub(crate) struct Store {
    pub stations: Vec<u32>,
    pub buses: Vec<u32>,
    pub ends: Vec<u32>,
    pub sorted: Vec<u32>,
    pub spare: Vec<u32>,
    pub keys: Vec<u64>,
    pub places: Vec<f64>,
    pub blocks: Vec<f64>,
    pub frames: Vec<f64>,
    pub path: Vec<f64>,
    pub numbers: Vec<u32>,
    pub along: Vec<f64>,
    pub ways: Vec<f64>,
}

// Lists of zeros: `spare` and `keys` hold `sorts` numbers each, and `sorted` as many, or 5 a bus for
// the grid of boxes.
pub(crate) fn work_for(
    alloc: Global,
    buses: usize,
    branches: usize,
    mesh: usize,
    sorts: usize,
    crossings: usize,
) -> Result<Store, AllocError>
    requires few_buses { buses ≤ 4096 }
    requires few_branches { branches ≤ 8192 }
    requires small_mesh { mesh ≤ 24576 }
    requires few_crossings { crossings ≤ 16777216 }
    ensures work { IfOk result (λ s. work_in s ≡ lent_work buses branches mesh sorts) }
    ensures crossings { IfOk result (λ s. crossings_in s ≡ lent_crossings crossings) }
{
    Ok(Store {
        stations: vec![in alloc; 0u32; 2 * buses]?,
        buses: vec![in alloc; 0u32; 3 * buses]?,
        ends: vec![in alloc; 0u32; 4 * branches + 4 * mesh + 4]?,
        sorted: vec![in alloc; 0u32; sorts.max(5 * buses)]?,
        spare: vec![in alloc; 0u32; sorts]?,
        keys: vec![in alloc; 0u64; sorts]?,
        places: vec![in alloc; 0.0; 2 * buses + 4 * branches]?,
        blocks: vec![in alloc; 0.0; 3 * buses]?,
        frames: vec![in alloc; 0.0; 4 * buses]?,
        path: vec![in alloc; 0.0; 2 * buses + 3 * mesh + 16]?,
        numbers: vec![in alloc; 0u32; 3 * crossings]?,
        along: vec![in alloc; 0.0; crossings]?,
        ways: vec![in alloc; 0.0; 2 * crossings]?,
    })
}
