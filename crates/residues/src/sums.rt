// How two numbers are added, and rows of them that are added number by number.
ghost use Rattle.std.specs.Prelude.{Bool, ◌≡◌, ℕ, ◌+◌, ◌<◌, ◌≤◌, length, pos, ◌+ℤ◌, get_or};
ghost use Rattle.protocol.specs.Basic.{Provided, tabulate};
ghost use Rattle.protocol.specs.Element.{modulo};
ghost use Rattle.residues.specs.Residues.{BothBelow, BothSmall, signed};

use crate::Entry;
use protocol::Residue;

// A way to add two numbers, or to take the second away: which numbers it allows, and what it makes of them.
pub trait Sum<T>: Copy {
    ghost allowed: { Self → T → T → Type 0 };

    ghost sum: { Self → Bool → T → T → T };

    fn add(self, negative: bool, x: T, y: T) -> T
        ensures { Provided (allowed self x y) (result ≡ sum self negative x y) };
}

// Residues modulo q.
#[derive(Clone, Copy)]
pub struct Modulo {
    pub q: Residue,
}

impl Sum<Residue> for Modulo {
    ghost allowed = { λ s. BothBelow s.q };

    ghost sum = { λ s negative x y. modulo s.q (pos x +ℤ signed negative (pos y)) };

    fn add(self, negative: bool, x: Residue, y: Residue) -> Residue {
        crate::signed_sum(self.q, negative, x, y)
    }
}

// Whole numbers that are small enough for their sum to be a number of 32 bits too.
#[derive(Clone, Copy)]
pub struct Whole;

impl Sum<i32> for Whole {
    ghost allowed = { λ _. BothSmall };

    ghost sum = { λ _ negative x y. x +ℤ signed negative y };

    fn add(self, negative: bool, x: i32, y: i32) -> i32 {
        if negative {
            x.wrapping_sub(y)
        } else {
            x.wrapping_add(y)
        }
    }
}

// Adds a row to as many numbers, each to the one at its place, or takes it away. They stay as they are where the row is shorter.
pub fn add_row<T: Entry, S: Sum<T>>(by: S, negative: bool, row: &[T], sums: &mut [T])
    ensures added { Provided (length sums.old ≤ length row.now)
        (Provided ((k : ℕ) → k < length sums.old → S.allowed by (get_or sums.old k T.NONE) (get_or row.now k T.NONE))
        (sums.new ≡ tabulate (length sums.old) (λ k. S.sum by negative (get_or sums.old k T.NONE) (get_or row.now k T.NONE)))) }
    ensures short { Provided (length row.now < length sums.old) (sums.new ≡ sums.old) }
{
    if row.len() < sums.len() {
        return;
    }
    for (k, x) in sums.iter_mut().enumerate() {
        *x = by.add(negative, *x, row[k]);
    }
}

#[cfg(test)]
mod tests {
    use super::*;

    #[test]
    fn a_row_is_added_or_taken_away(rt: HostRuntime) {
        let by = Modulo { q: 17 };
        let mut sums = [3, 16, 0];
        add_row(by, false, &[5, 16, 0, 9], &mut sums);
        assert_eq!(rt; sums, [8, 15, 0]);
        add_row(by, true, &[9, 15, 1, 9], &mut sums);
        assert_eq!(rt; sums, [16, 0, 16]);
        add_row(by, false, &[1, 1], &mut sums);
        assert_eq!(rt; sums, [16, 0, 16], "a shorter row");
        let mut wholes = [-4, 7];
        add_row(Whole, true, &[6, 7], &mut wholes);
        assert_eq!(rt; wholes, [-10, 0]);
    }
}
