//! Runs stored test values and prints how many were compared and how many differ.
//!
//! Standard input has one test a line: a name of three letters, then operands and expected results
//! as 16 hexadecimal digits each, every one after a space. Expected IEEE values come from exact
//! whole-number arithmetic (reference/ieee_values.py), those of other names from the original
//! (reference/oracle, `vectors 1 100`).
#![tactic(auto)]

mod ieee;
mod lists;
mod planar;
mod words;

use std::io;
use std::io::Read;
use words::{WORD, words};

// How much of the input is read.
const MOST_BYTES: u64 = 524288;

// How many tests were compared, and how many of them differ.
#[derive(Clone, Copy, Default)]
struct Tally {
    compared: u64,
    differ: u64,
}

impl Tally {
    // Counts one test more.
    fn add(&mut self, agrees: bool) {
        self.compared = self.compared.wrapping_add(1);
        self.differ = self.differ.wrapping_add(u64::from(!agrees));
    }
}

// Whether the test on one line agrees; one whose name is unknown does not. The lists of a test lie
// on the stack only while it runs.
#[inline(never)]
fn agrees(line: &[u8]) -> bool {
    let Some(name) = line.get(..3) else {
        return false;
    };
    let digits = line.get(4..).unwrap_or(&[]);
    let mut w = [0; 32];
    words(digits, &mut w);
    let count = digits.len().div_ceil(WORD);
    match name {
        b"hit" => planar::hit_agrees(&w),
        b"crs" => planar::cross_agrees(&w),
        b"par" => planar::param_agrees(&w),
        b"ovl" => planar::overlap_agrees(&w),
        b"chn" => lists::channel_agrees(&w),
        b"spa" => lists::space_agrees(&w),
        b"nea" => lists::nearest_agrees(&w),
        b"wit" => lists::within_agrees(&w),
        b"med" => lists::median_agrees(&w),
        b"flo" => count == 2 && ieee::floors(w[0], w[1]),
        _ => count == 3 && ieee::agrees(name, w[0], w[1], w[2]),
    }
}

// Counts the tests of a text, a line each.
fn run(text: &[u8]) -> Tally {
    let mut tally = Tally::default();
    for line in text.split_inclusive(|b| *b == b'\n') {
        tally.add(agrees(line.strip_suffix(b"\n").unwrap_or(line)));
    }
    tally
}

fn main(rt: HostRuntime) -> io::Result<()> {
    let mut text = Vec::new(rt.alloc());
    rt.reader().take(MOST_BYTES).read_to_end(&mut text)?;
    let Tally { compared, differ } = run(&text);
    println!(rt; "{compared} compared, {differ} differ")
}
