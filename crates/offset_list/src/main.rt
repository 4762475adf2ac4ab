//! Prints the table of offsets for search 20: the line `a b`, then one pair a line (docs/RULES.md,
//! 'Text of the table').
#![tactic(auto)]

mod table;

ghost use Rattle.std.specs.Prelude.{IsOk, OnOk};
ghost use Rattle.std.specs.Io.KnownBytes.{Appends};
ghost use Rattle.offset_table.specs.Table.{table_pairs};
ghost use Rattle.offset_lines.specs.Stages.Text.{offset_text};

use std::io;
use streams::sink::{Sink, Writer};
use table::print_table;

/// Writes the text of the table. No memory is asked for. Of what `out` holds afterwards nothing is
/// said: it is room for the text, and its lender doesn't read it.
#[tactic(auto, using(text::proofs::listing::Writing::front_laws))]
pub fn run<W: Sink>(output: &mut W, out: &mut [u8; 40348]) -> io::Result<()>
    ensures written { OnOk result
        (Appends (W.contents output.old) (W.contents output.new) (offset_text table_pairs)) }
    ensures succeeds { W.takes output.old (offset_text table_pairs) → IsOk result }
{
    let count = print_table(out);
    output.put(&out[..count])
}

fn main(rt: HostRuntime) -> io::Result<()> {
    // the text's length is known, so a buffer on the stack will do
    let mut out = [0u8; 40348];
    run(&mut Writer(io::writer(&rt)), &mut out)
}
