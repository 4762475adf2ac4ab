// The text that drawlist writes for the text that it reads.
ghost use Rattle.std.specs.Prelude.{◌≡◌, [], length};
ghost use Rattle.drawing.specs.Network.{network};
ghost use Rattle.numbers.specs.Over.{over};
ghost use Rattle.small.specs.Output.{text_of, output_of};

use crate::plot::plot;
use network::refusals::Refusal;
use text::listing::input::parse;
use text::listing::output::{print, print_refusal};

// The length of the buffer that the text is written into, which is on the stack: the longest text
// has 15,960 bytes.
pub(crate) const ROOM: usize = 16384;

// Draws a network of at most 64 buses and 64 branches, and writes its pieces or its refusal to out.
fn list_drawing(
    sub: &[u32],
    kv: &[u64],
    from: &[i64],
    to: &[i64],
    service: &[u8],
    xy: &[f64],
    out: &mut [u8; ROOM],
) -> usize
    ensures byte_count { result ≡ length
        (text_of (network sub.now kv.now from.now to.now service.now xy.now [] [])) }
    ensures out_after { out.new ≡ over
        (text_of (network sub.now kv.now from.now to.now service.now xy.now [] [])) out.old }
{
    let mut roles = [0u8; 64];
    let mut pieces = [0f64; 768];
    let mut branches = [0u32; 192];
    match plot(
        sub,
        kv,
        from,
        to,
        service,
        xy,
        &mut roles,
        &mut pieces,
        &mut branches,
    ) {
        Ok(p) => print(p.pieces, &roles, &pieces, &branches, out),
        Err(r) => print_refusal(r.number(), out),
    }
}

// What drawlist writes for a text: the pieces of its network's drawing, its refusal, or refusal 14.
#[tactic(auto, using(crate::proofs::Listed::read_laws))]
pub(crate) fn list_of(text: &[u8], out: &mut [u8; ROOM]) -> usize
    ensures byte_count { result ≡ length (output_of text.now) }
    ensures out_after { out.new ≡ over (output_of text.now) out.old }
{
    let mut sub = [0u32; 64];
    let mut kv = [0u64; 64];
    let mut xy = [0f64; 128];
    let mut from = [0i64; 64];
    let mut to = [0i64; 64];
    let mut live = [0u8; 64];
    match parse(
        text, &mut sub, &mut kv, &mut xy, &mut from, &mut to, &mut live,
    ) {
        Some(c) => list_drawing(
            &sub[..c.buses],
            &kv[..c.buses],
            &from[..c.branches],
            &to[..c.branches],
            &live[..c.branches],
            &xy[..2 * c.buses],
            out,
        ),
        None => print_refusal(Refusal::Malformed.number(), out),
    }
}
