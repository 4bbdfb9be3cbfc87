// The fold of a message, over whole numbers. The public function is safe for every input; what it gives is said by a definition under a condition that the
// refusals ensure.
#![tactic(auto)]

ghost use Rattle.std.specs.Prelude.{◌≡◌, ◌*◌, ◌<◌, ◌≤◌, length};
ghost use Rattle.protocol.specs.Basic.{Provided};
ghost use Rattle.protocol.specs.Element.{width};
ghost use Rattle.protocol.specs.Opening.{fold_signed};
ghost use Rattle.half_sums.specs.Room.{Room};
ghost use Rattle.message_folds.specs.Messages.{Foldable, half_most};

use folds::{HALF_MOST, add_part};
use protocol::WIDTH;
use residues::sums::Whole;

// The fold of a table of 2h elements at least: X^e·m1 is two rows of each element of m1, with different signs.
fn fold_halves(d: usize, h: usize, e: usize, message: &mut [i32])
    requires { (0 < d) × (d ≤ width) × (h ≤ half_most) × (e < 2 * d) × (2 * (h * d) ≤ length message.old) }
    ensures { Provided (Room (2 * (h * d)) message.old) (message.new ≡ fold_signed d h e message.old) }
{
    let half = h * d;
    let low = e < d;
    let s = residues::row_start(d, e);
    let rest = d - s;
    add_part(Whole, low, d, h, s, half + rest, 0, message);
    add_part(Whole, !low, d, h, rest, half, s, message);
}

// The fold m0 + X^e·m1, the halves having h elements: it stands where m0 stood.
pub fn fold_message(d: u32, h: u32, e: u32, message: &mut [i32])
    ensures { Provided (Foldable d h e message.old) (message.new ≡ fold_signed d h e message.old) }
{
    let n = d as usize;
    if n == 0 {
        return;
    }
    if n > WIDTH {
        return;
    }
    if h > HALF_MOST {
        return;
    }
    if e as usize >= 2 * n {
        return;
    }
    if message.len() < 2 * ((h as usize) * n) {
        return;
    }
    fold_halves(n, h as usize, e as usize, message);
}
