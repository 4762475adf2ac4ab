//! Runs stored calls through layout, the largest fill and audit, and prints how many agree with the
//! original's answers, for each answer.
//!
//! Standard input has a call and the original's answer on each line: L, F or A, then words in
//! hexadecimal digits, each after a space (src/layouts.rt, src/audits.rt; made by
//! reference/make_replay). At the first that differs its line number is printed, and nothing
//! further is run.
#![tactic(auto)]

mod audits;
mod fills;
mod layouts;
mod lists;
mod words;

use crate::layouts::Call;
use std::io;
use std::io::Read;

// How much of the input is read.
const MOST_BYTES: u64 = 524288;

// How many calls came to each answer, by its number.
type AnswerCounts = [u64; 19];

// The counts of each call.
#[derive(Drop)]
struct Agreed {
    layout: AnswerCounts,
    fill: AnswerCounts,
    audit: AnswerCounts,
}

// One more of this number.
fn count(counts: &mut AnswerCounts, number: u64) {
    if let Some(n) = counts.get_mut(number as usize) {
        *n = n.wrapping_add(1);
    }
}

// Whether the call on one line agrees; it is counted by its answer.
fn agrees(line: &[u8], agreed: &mut Agreed) -> bool {
    let mut w = [0; 1024];
    text::stored::words(line.get(2..).unwrap_or(&[]), &mut w);
    match line.first() {
        Some(b'L') => {
            count(&mut agreed.layout, w[25]);
            layouts::agrees(Call::Layout, &w)
        }
        Some(b'F') => {
            count(&mut agreed.fill, w[25]);
            layouts::agrees(Call::LargestFill, &w)
        }
        Some(b'A') => {
            count(&mut agreed.audit, w[13]);
            audits::agrees(&w)
        }
        _ => false,
    }
}

// The index of the first line that differs, if one does.
fn run(text: &[u8], agreed: &mut Agreed) -> Option<usize> {
    text.split_inclusive(|b| *b == b'\n').position(|line| !agrees(
        line.strip_suffix(b"\n").unwrap_or(line),
        agreed,
    ))
}

// A line for each answer that came.
fn print_counts(rt: &impl Print, name: &str, counts: &AnswerCounts) -> io::Result<()> {
    for (i, n) in counts.iter().enumerate() {
        if *n != 0 {
            println!(rt; "{name}{i}: {n} agree")?;
        }
    }
    Ok(())
}

fn main(rt: HostRuntime) -> io::Result<()> {
    let mut text = Vec::new(rt.alloc());
    let mut agreed = Agreed {
        layout: [0; 19],
        fill: [0; 19],
        audit: [0; 19],
    };
    rt.reader().take(MOST_BYTES).read_to_end(&mut text)?;
    if let Some(i) = run(&text, &mut agreed) {
        return println!(rt; "line {} differs", i.wrapping_add(1));
    }
    print_counts(&rt, "layout ", &agreed.layout)?;
    print_counts(&rt, "fill ", &agreed.fill)?;
    print_counts(&rt, "audit ", &agreed.audit)
}
