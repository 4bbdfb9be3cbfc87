// The sums of the two halves of a table, number by number; the second half comes as a part of the table. Every public function is safe for every input.
#![tactic(auto)]

ghost use Rattle.std.specs.Prelude.{◌≡◌, ℕ, ◌+◌, ◌%◌, ◌^◌, ◌<◌, ◌≤◌, pos, nat_abs, ◌+ℤ◌, length, get_or};
ghost use Rattle.protocol.specs.Basic.{Provided};
ghost use Rattle.residues.specs.Lists.{filled};
ghost use Rattle.residues.specs.Residues.{BothSmall, Residues, signed};
ghost use Rattle.half_sums.specs.Room.{Room, Long, Summed};
ghost use Rattle.half_sums.specs.Halves.{MessageAt, MessageSum, KeyAt, KeySum, HalvesAt, HalfSums};

use protocol::Residue;
use residues::Entry;
use residues::sums::{Modulo, Sum};

// x, or 0 where it is so large that two such numbers may have no sum of 32 bits.
fn limited(x: i32) -> i32
    ensures { (nat_abs result < 2 ^ 30) × Provided (nat_abs x < 2 ^ 30) (result ≡ x) }
{
    if x.unsigned_abs() < 1073741824 { x } else { 0 }
}

// Whole numbers, of which one that is too large counts as 0: so a sum of two needs no test of the message before it.
#[derive(Clone, Copy)]
struct Narrow;

impl Sum<i32> for Narrow {
    ghost allowed = { λ _. BothSmall };

    ghost sum = { λ _ negative x y. x +ℤ signed negative y };

    fn add(self, negative: bool, x: i32, y: i32) -> i32 {
        if negative {
            limited(x) - limited(y)
        } else {
            limited(x) + limited(y)
        }
    }
}

// The sums of the first n numbers of two tables, written to the front of a third.
fn add_parts<T: Entry, S: Sum<T>>(by: S, n: usize, first: &[T], second: &[T], sums: &mut [T])
    ensures { Summed T.NONE S.allowed S.sum by n first.now second.now sums.old sums.new }
{
    if first.len() < n {
        return;
    }
    if second.len() < n {
        return;
    }
    if sums.len() < n {
        return;
    }
    let front = &mut sums[..n];
    for (p, x) in front.iter_mut().enumerate() {
        *x = by.add(false, first[p], second[p]);
    }
}

// Of a message, whose halves have n numbers.
pub fn message_sums(n: usize, first: &[i32], second: &[i32], sums: &mut [i32])
    ensures { Provided (Long n (length first.now) (length second.now) (length sums.old)) (Provided (Room n first.now
        × Room n second.now) (sums.new ≡ filled (λ p. get_or first.now p (pos 0) +ℤ get_or second.now p (pos 0)) n sums.old)) }
{
    add_parts(Narrow, n, first, second, sums);
}

// Of a key, modulo q.
pub fn key_sums(q: Residue, n: usize, first: &[Residue], second: &[Residue], sums: &mut [Residue])
    ensures { Provided (Long n (length first.now) (length second.now) (length sums.old)) (Provided (Residues q n 0 first.now
        × Residues q n 0 second.now) (sums.new ≡ filled (λ p. (get_or first.now p 0 + get_or second.now p 0) % q) n sums.old)) }
{
    add_parts(Modulo { q }, n, first, second, sums);
}

// Element i of the sums of a message's halves, written to the front of m: the elements that begin at these two places are added.
pub fn add_message(d: usize, at: usize, behind: usize, f: &[i32], m: &mut [i32])
    ensures { (h i : ℕ) → Provided (MessageAt d h i at behind f.now × (d ≤ length m.old))
        (MessageSum d h f.now i m.new) }
{
    if f.len() < at {
        return;
    }
    if f.len() < behind {
        return;
    }
    message_sums(d, &f[at..], &f[behind..], m);
}

// The same of a key, modulo q.
pub fn add_key(q: Residue, d: usize, at: usize, behind: usize, g: &[Residue], k: &mut [Residue])
    ensures { (h i : ℕ) → Provided (KeyAt q d h i at behind g.now × (d ≤ length k.old))
        (KeySum q d h g.now i k.new) }
{
    if g.len() < at {
        return;
    }
    if g.len() < behind {
        return;
    }
    key_sums(q, d, &g[at..], &g[behind..], k);
}

// The same of both.
pub fn add_halves(
    q: Residue,
    d: usize,
    at: usize,
    behind: usize,
    f: &[i32],
    g: &[Residue],
    m: &mut [i32],
    k: &mut [Residue],
)
    ensures { (h i : ℕ) → Provided (HalvesAt q d h i at behind f.now g.now × (d ≤ length m.old) × (d ≤ length k.old))
        (HalfSums q d h f.now g.now i m.new k.new) }
{
    add_message(d, at, behind, f, m);
    add_key(q, d, at, behind, g, k);
}
