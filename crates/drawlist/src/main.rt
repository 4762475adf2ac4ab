//! Reads a network from standard input and writes the pieces of its drawing (docs/RULES.md, 'Text
//! of drawlist').
#![tactic(auto)]

mod draw;
mod plot;

ghost use Rattle.std.specs.Prelude.{◌≡◌, ℕ, List, take, IfSome, IsOk, OnOk};
ghost use Rattle.std.specs.Io.KnownBytes.{Appends};
ghost use Rattle.small.specs.Output.{output_of};

use draw::{ROOM, list_of};
use std::io;
use streams::sink::{Sink, Writer};
use streams::source::{Reader, Source, read_front};

// The longest well-formed input has 6,936 bytes. One byte more is read, so that a longer one is
// seen to be malformed.
const MOST_BYTES: usize = 6937;

// Writes what comes of a text.
#[tactic(auto, using(text::proofs::listing::Writing::front_laws))]
fn write_list<W: Sink>(text: &[u8], output: &mut W, out: &mut [u8; ROOM]) -> io::Result<()>
    ensures written { OnOk result
        (Appends (W.contents output.old) (W.contents output.new) (output_of text.now)) }
    ensures succeeds { W.takes output.old (output_of text.now) → IsOk result }
{
    let count = list_of(text, out);
    output.put(&out[..count])
}

/// Reads a text and writes what comes of it. Of a longer text the first 6,937 bytes are enough. No
/// memory is asked for. Of what `text` and `out` hold afterwards nothing is said: they are room for
/// what is read and what is written, and their lender reads neither.
#[tactic(auto, using(crate::proofs::Listed::enough))]
pub fn run<R: Source, W: Sink>(
    input: &mut R,
    output: &mut W,
    text: &mut [u8; MOST_BYTES],
    out: &mut [u8; ROOM],
) -> io::Result<()>
    ensures written { OnOk result (IfSome (R.left input.old) (λ bytes.
        Appends (W.contents output.old) (W.contents output.new) (output_of bytes))) }
    ensures succeeds { R.gives input.old → IfSome (R.left input.old) (λ bytes.
        W.takes output.old (output_of bytes) → IsOk result) }
    ensures enough { (bytes : List ℕ) → output_of (take 6937 bytes) ≡ output_of bytes }
{
    let count = read_front(input, text)?;
    write_list(&text[..count], output, out)
}

fn main(rt: HostRuntime) -> io::Result<()> {
    let mut text = [0u8; MOST_BYTES];
    let mut out = [0u8; ROOM];
    run(
        &mut Reader(rt.reader()),
        &mut Writer(io::writer(&rt)),
        &mut text,
        &mut out,
    )
}
