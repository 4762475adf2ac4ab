// The text of the constant table of offsets, made without reading it.
ghost use Rattle.std.specs.Prelude.{◌≡◌, length};
ghost use Rattle.numbers.specs.Over.{over};
ghost use Rattle.offset_table.specs.Table.{table_pairs};
ghost use Rattle.offset_lines.specs.Stages.Text.{offset_text};

use offset_lines::print;

// Writes the table's text over the front of `out`, and returns its length. The pairs are generated:
// no code here reads the table.
#[tactic(auto, using(crate::proofs::Generated::generated_text))]
pub(crate) fn print_table(out: &mut [u8; 40348]) -> usize
    ensures byte_count { result ≡ length (offset_text table_pairs) }
    ensures out_after { out.new ≡ over (offset_text table_pairs) out.old }
{
    let mut keys = [0u64; 1681];
    let mut sorted = [0u32; 1681];
    let mut spare = [0u32; 1681];
    print(20, &mut keys, &mut sorted, &mut spare, out)
}
