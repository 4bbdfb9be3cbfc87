// The transform modulo 12289 and its inverse, level by level and in place. A block of 2^D places stands for an element modulo X^(2^D) − 9^e; it splits into two blocks
// of half the length, at the two square roots of 9^e. At each place stand w numbers, one of each of w elements that are transformed together. Numbers stand for
// their residues: on the way down they stay below 4·12289, on the way up below 2·12289. Every public function is safe for every input.
#![tactic(auto)]

ghost use Rattle.std.specs.Prelude.{◌≡◌, ℕ, ◌+◌, ◌*◌, ◌/◌, ◌%◌, ◌^◌, ◌<◌, ◌≤◌, length, slice_index};
ghost use Rattle.protocol.specs.Basic.{Provided};
ghost use Rattle.powers.specs.Powers.{powers, Below};
ghost use Rattle.levels.specs.Levels.{Sent, Returned, Down, Up};
ghost use Rattle.levels.specs.Halves.{Split, Joined};

// A power out of the table. The table goes by reference, since a constant that is read at a place is copied for it.
fn power(e: usize, table: &[u16; 256]) -> u16
    requires { (e < 256) × (table.now ≡ powers) }
    ensures { result ≡ slice_index powers e }
{
    table[e]
}

// The share of z in 12289, in parts of 65536.
fn share_of(z: u16) -> u16
    requires { z < 12289 }
    ensures { result ≡ z * 65536 / 12289 }
{
    (u32::from(z) * 65536 / 12289) as u16
}

// A number below 2·12289 that stands for z·x.
fn times(z: u16, share: u16, x: u16) -> u16
    requires { (z < 12289) × (share ≡ z * 65536 / 12289) }
    ensures { (result < 24578) × (result % 12289 ≡ x * z % 12289) }
{
    let number = u32::from(x);
    let factor = u32::from(z);
    let part = (number * u32::from(share) >> 16) as u16;
    (number * factor - u32::from(part) * 12289) as u16
}

// The same residue, below 2·12289 where x is below 4·12289.
fn lowered(x: u16) -> u16
    ensures { (result % 12289 ≡ x % 12289) × Provided (x < 49156) (result < 24578) }
{
    if x >= 24578 { x - 24578 } else { x }
}

// One level down: the upper half of a block, times z, is added to its lower half and taken from it. Each turn writes two places of one slice, so the loop counts.
fn split(z: u16, h: usize, s: &mut [u16])
    requires { (z < 12289) × (h + h ≤ length s.old) }
    ensures { Split z h s.old s.new }
{
    let share = share_of(z);
    for i in 0..h {
        let x = lowered(s[i]);
        let y = times(z, share, s[h + i]);
        s[i] = x.wrapping_add(y);
        s[h + i] = x.wrapping_add(24578 - y);
    }
}

// The block at e, all the way down.
fn down(level: u32, e: usize, s: &mut [u16], table: &[u16; 256])
    requires { (e < 256) × (table.now ≡ powers) }
    ensures { Down level e s.old s.new }
{
    if level == 0 {
        return;
    }
    let h = s.len() / 2;
    let half = e / 2;
    split(power(half, table), h, s);
    down(level - 1, half, &mut s[..h], table);
    down(level - 1, half + 128, &mut s[h..], table);
}

// One level up: the sum of two blocks, and z times their difference. The loop counts as the one down does.
fn join(z: u16, h: usize, s: &mut [u16])
    requires { (z < 12289) × (h + h ≤ length s.old) }
    ensures { Joined z h s.old s.new }
{
    let share = share_of(z);
    for i in 0..h {
        let x = s[i];
        let y = s[h + i];
        s[i] = lowered(x.wrapping_add(y));
        s[h + i] = times(z, share, y.wrapping_add(24578).wrapping_sub(x));
    }
}

// The block at e, all the way up.
fn up(level: u32, e: usize, s: &mut [u16], table: &[u16; 256])
    requires { (e < 256) × (table.now ≡ powers) }
    ensures { Up level e s.old s.new }
{
    if level == 0 {
        return;
    }
    let h = s.len() / 2;
    let half = e / 2;
    up(level - 1, half, &mut s[..h], table);
    up(level - 1, half + 128, &mut s[h..], table);
    join(power(128 - half, table), h, s);
}

// The transform of w elements of degree 2^level side by side.
pub fn forward(level: u32, s: &mut [u16])
    ensures { (w : ℕ) → Provided ((level ≤ 7) × (length s.old ≡ 2 ^ level * w) × Below 49156 s.old) (Sent level w 128 s.old s.new) }
{
    if level > 7 {
        return;
    }
    let table = powers::table();
    down(level, 128, s, &table);
}

// The transform of one element of degree 2^level, back; the element comes 2^level times.
pub fn backward(level: u32, s: &mut [u16])
    ensures { Provided ((level ≤ 7) × (length s.old ≡ 2 ^ level) × Below 24578 s.old) (Returned level 128 s.old s.new) }
{
    if level > 7 {
        return;
    }
    let table = powers::table();
    up(level, 128, s, &table);
}
