// Halves modulo an odd q.
ghost use Rattle.std.specs.Prelude.{◌≡◌, ◌+◌, ◌*◌, ◌/◌, ◌%◌, ◌^◌};
ghost use Rattle.protocol.specs.Basic.{Provided};
ghost use Rattle.modular.specs.Factors.{Halvable};

// x/2 modulo q, of a residue: x/2 where x is even, else (x + q)/2.
pub fn halved(q: u64, x: u64) -> u64
    ensures { Provided (Halvable q x) (result ≡ (q + 1) / 2 * x % q) }
{
    if x % 2 == 0 {
        return x / 2;
    }
    x / 2 + q / 2 + 1
}

// x/2^t modulo q, of a residue.
pub fn halved_times(q: u64, t: u32, x: u64) -> u64
    ensures { Provided (Halvable q x) (result ≡ ((q + 1) / 2) ^ t * x % q) }
{
    let mut y = x;
    for i in 0..t {
        y = halved(q, y);
    }
    y
}
