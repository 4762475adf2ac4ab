// A line at a place of a text: its values, and the place after it (docs/RULES.md, 'Text of
// drawlist').
ghost use Rattle.std.specs.Prelude.{◌≡◌, drop};
ghost use Rattle.text.specs.Stages.Places.{field_of};
ghost use Rattle.text.specs.Line.{begins as begins_with, bus_line, branch_line};

use crate::fields::field::{Parsed, bus_number, pattern, whole};

// A bus: substation, and the bits of kv, x and y.
#[derive(Clone, Copy)]
pub(crate) struct Bus {
    pub sub: u32,
    pub kv: u64,
    pub x: u64,
    pub y: u64,
}

// A branch: two bus numbers and live.
#[derive(Clone, Copy)]
pub(crate) struct Branch {
    pub from: i64,
    pub to: i64,
    pub live: u8,
}

// Whether the text from `at` on begins with the given bytes.
#[tactic(auto, using(crate::proofs::listing::Lines::begins_laws))]
pub(crate) fn begins(text: &[u8], at: usize, word: &[u8]) -> bool
    ensures { result ≡ begins_with word.now (drop at text.now) }
{
    text.get(at..).unwrap_or(&[]).starts_with(word)
}

// A bus line: `sub kv x y`.
#[tactic(auto, using(crate::proofs::listing::Lines::line_laws), unfolding(crate::specs::Stages::Places::field_of, crate::specs::Line::bus_line, crate::specs::Line::and_then))]
pub(crate) fn bus_line(text: &[u8], at: usize) -> Option<Parsed<Bus>>
    ensures { bus_line (drop at text.now) ≡ field_of text.now result }
{
    let sub = whole(text, at, b' ', 0xFFFF_FFFF)?;
    let kv = pattern(text, sub.next, b' ')?;
    let x = pattern(text, kv.next, b' ')?;
    let y = pattern(text, x.next, b'\n')?;
    Some(Parsed {
        value: Bus {
            sub: sub.value as u32,
            kv: kv.value,
            x: x.value,
            y: y.value,
        },
        next: y.next,
    })
}

// A branch line: `from to live`.
#[tactic(auto, using(crate::proofs::listing::Lines::line_laws), unfolding(crate::specs::Stages::Places::field_of, crate::specs::Line::branch_line, crate::specs::Line::and_then))]
pub(crate) fn branch_line(text: &[u8], at: usize) -> Option<Parsed<Branch>>
    ensures { branch_line (drop at text.now) ≡ field_of text.now result }
{
    let from = bus_number(text, at, b' ')?;
    let to = bus_number(text, from.next, b' ')?;
    let live = whole(text, to.next, b'\n', 0xFF)?;
    Some(Parsed {
        value: Branch {
            from: from.value,
            to: to.value,
            live: live.value as u8,
        },
        next: live.next,
    })
}
