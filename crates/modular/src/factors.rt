// Products modulo q by a factor that is prepared once: Shoup's way, with no division. What takes most of the product away is a multiple of q that comes from
// the factor's share in 2^64.
ghost use Rattle.std.specs.Prelude.{◌≡◌, ℕ, ◌*◌, ◌/◌, ◌%◌, ◌^◌, ◌<◌, ◌≤◌};
ghost use Rattle.protocol.specs.Basic.{Provided};
ghost use Rattle.modular.specs.Factors.{Modulus, Prepared};

// A factor modulo q: its residue, and what share of q that is, in parts of 2^64.
#[derive(Clone, Copy)]
pub struct Factor {
    pub modulus: u64,
    pub residue: u64,
    pub share: u64,
}

// y·2^64/q, rounded down, of a residue: one binary digit and 21 octal ones, since eight times a residue fits 64 bits.
fn share(q: u64, y: u64) -> u64
    requires { (y < q) × (q ≤ 2 ^ 61) }
    ensures { result ≡ y * 2 ^ 64 / q }
{
    let mut digits = 2 * y / q;
    let mut rest = 2 * y % q;
    for i in 0..21u32 {
        let next = 8 * rest;
        digits = 8 * digits + next / q;
        rest = next % q;
    }
    digits
}

// The factor y modulo q.
pub fn prepare(q: u64, y: u64) -> Factor
    ensures { Provided (Modulus q) (Prepared q y result) }
{
    let none = Factor {
        modulus: 0,
        residue: 0,
        share: 0,
    };
    if q == 0 {
        return none;
    }
    if q > 2305843009213693952 {
        return none;
    }
    let residue = y % q;
    Factor {
        modulus: q,
        residue,
        share: share(q, residue),
    }
}

// x·y/2^64, rounded down: each number is cut into halves of 32 bits, so that a product of halves fits a word, and these products are added column by column with
// their carries. The compiler makes one multiplication of it.
fn upper(x: u64, y: u64) -> u64
    ensures { result ≡ x * y / 2 ^ 64 }
{
    let x0 = x % 4294967296;
    let x1 = x / 4294967296;
    let y0 = y % 4294967296;
    let y1 = y / 4294967296;
    let middle = x1 * y0 + x0 * y0 / 4294967296;
    let next = x0 * y1 + middle % 4294967296;
    x1 * y1 + middle / 4294967296 + next / 4294967296
}

// x·y modulo q, y being the prepared factor and x any number: the estimate of the quotient is at most 1 too small.
pub fn multiply(factor: Factor, x: u64) -> u64
    ensures { (q y : ℕ) → Provided (Prepared q y factor) (result ≡ x * y % q) }
{
    let taken = upper(x, factor.share).wrapping_mul(factor.modulus);
    let rest = x.wrapping_mul(factor.residue).wrapping_sub(taken);
    if rest < factor.modulus {
        return rest;
    }
    rest - factor.modulus
}
