// Refusal 11, which the drawing decides, after 8 to 10.
ghost use Rattle.std.specs.Prelude.{◌≡◌, None};
ghost use Rattle.std.specs.Result.{result_err};
ghost use Rattle.drawing.specs.Answer.{late_by};

use network::refusals::Refusal;

/// Refusal 11 where the pieces outnumber the lent piece lists, of which one holds four numbers for
/// each piece and the other its branch (docs/RULES.md, 'Refusals'). 8 to 10 are ruled out before.
#[tactic(auto, unfolding(crate::specs::Answer::late_by, crate::specs::Answer::piece_room))]
pub fn check_pieces(pieces: usize, numbers: usize, names: usize) -> Result<(), Refusal>
    ensures { result_err result ≡ late_by None pieces numbers names }
{
    if names < pieces || numbers / 4 < pieces {
        return Err(Refusal::Pieces);
    }
    Ok(())
}
