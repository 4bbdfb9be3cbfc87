// The judge of relaxed openings.
#![tactic(auto)]

mod combination;
mod key_rows;
mod scaling;

ghost use Rattle.std.specs.Prelude.{◌≡◌};
ghost use Rattle.protocol.specs.Answers.{as_judged};
ghost use Rattle.protocol.specs.Calls.{judge_answer};

use protocol::{Item, Refusal, Residue, Settings};
use ranges::tests;

// The judge: is c times the commitment the sum of w_i·G_i modulo q in every row, with no coefficient of w beyond the growth bound.
pub fn judge(
    settings: Settings,
    commitment: Item,
    c: u32,
    key: &[Residue],
    w: &[i64],
) -> Result<bool, Refusal>
    ensures { as_judged result ≡ judge_answer settings commitment c key.now w.now }
{
    refusals::judge::judge(settings, commitment, c, key, w)?;
    Ok(
        tests::all_within(sizes::growth(settings), w)
            && key_rows::every_row_opens(settings, &commitment, c, key, w),
    )
}
