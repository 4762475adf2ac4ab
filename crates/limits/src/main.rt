//! The limits of a call, executed through the public one: how many buses, how wide a search, how
//! large a number and which block options pass (docs/RULES.md, 'Options' and 'Refusals').
//!
//! A line for each: what is tried, and the answer's number, 0 where it is drawn.
#![tactic(auto)]

ghost use Rattle.std.specs.Prelude.{◌≤◌};

mod call;

use call::answer_of;
use network::options::{BlockOptions, Options};
use network::refusals::Refusal;
use std::io;

// The answer for so many buses of one station at (0, 0).
fn of_buses(count: usize) -> Result<(), Refusal>
    requires { count ≤ 4097 }
{
    let sub = [0; 4097];
    let kv = [1; 4097];
    let xy = [0.0; 8194];
    answer_of(
        Options::default(),
        &sub[..count],
        &kv[..count],
        &xy[..2 * count],
    )
}

// The answer for two stations, at (0, 0) and (distance, 0), by these
// options.
fn of_two(options: Options, distance: f64) -> Result<(), Refusal> {
    answer_of(options, &[0, 1], &[1, 1], &[0.0, 0.0, distance, 0.0])
}

// That of two stations on one seed, by their search, bar gap and buffer.
fn of_settings(search: i32, bar_gap: f64, buffer: f64) -> Result<(), Refusal> {
    let d = Options::default();
    let block_options = BlockOptions {
        bar_gap,
        buffer,
        ..d.block_options
    };
    of_two(
        Options {
            search,
            block_options,
            ..d
        },
        0.0,
    )
}

// That of two stations so far apart.
fn of_distance(distance: f64) -> Result<(), Refusal> {
    of_two(Options::default(), distance)
}

fn main(rt: HostRuntime) -> io::Result<()> {
    let tried = [
        ("4096 buses", of_buses(4096)),
        ("4097 buses", of_buses(4097)),
        ("search 20", of_settings(20, 2.0, 1.0)),
        ("search 21", of_settings(21, 2.0, 1.0)),
        ("x 10^12", of_distance(1e12)),
        ("x the next float", of_distance(1000000000000.0001)),
        ("bar gap 0.5, buffer 8", of_settings(10, 0.5, 8.0)),
        ("bar gap 8, buffer 0.5", of_settings(10, 8.0, 0.5)),
        (
            "bar gap the float below 0.5",
            of_settings(10, 0.49999999999999994, 1.0),
        ),
        (
            "buffer the float above 8",
            of_settings(10, 2.0, 8.000000000000002),
        ),
    ];
    for (name, answer) in tried {
        // 0 where it is drawn, else the refusal's number
        let number = match answer {
            Ok(()) => 0,
            Err(r) => r.number(),
        };
        println!(rt; "{name}: {number}")?;
    }
    Ok(())
}
