// The judge's equation row by row: each has its part of the key, and its element of the commitment by value.
ghost use Rattle.std.specs.Prelude.{◌≡◌, ◌<◌};
ghost use Rattle.protocol.specs.Basic.{every};
ghost use Rattle.protocol.specs.Element.{value_row};
ghost use Rattle.protocol.specs.Judge as of;
ghost use Rattle.protocol.specs.Rows.{key_row};
ghost use Rattle.judge.specs.Rows.{AllRows};

use crate::combination;
use protocol::{Residue, Settings, WIDTH};

// Does the equation hold in row i.
fn row_opens(
    settings: Settings,
    i: usize,
    commitment: &[Residue],
    c: u32,
    key: &[Residue],
    w: &[i64],
) -> bool
    requires { AllRows settings commitment.now key.now w.now × (i < settings.rows) }
    ensures { result ≡ of.opens settings (key_row settings key.now i) (value_row commitment.now i) c w.now }
{
    let at = i * WIDTH;
    let n = w.len();
    let from = i * n;
    let to = from + n;
    combination::opens(settings, &commitment[at..], c, &key[from..to], w)
}

// Does it hold in every row.
pub(crate) fn every_row_opens(
    settings: Settings,
    commitment: &[Residue],
    c: u32,
    key: &[Residue],
    w: &[i64],
) -> bool
    requires { AllRows settings commitment.now key.now w.now }
    ensures { result ≡ every settings.rows (λ i. of.opens settings (key_row settings key.now i) (value_row commitment.now i) c w.now) }
{
    (0..settings.rows as usize).all(|i| row_opens(settings, i, commitment, c, key, w))
}
