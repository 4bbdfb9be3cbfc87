// The tests that refusals go by.
ghost use Rattle.std.specs.Prelude.{◌≡◌, ℕ, ℤ, ◌^◌, ◌<◌, ◌≤◌, ◌&&◌, ltb, length, nat_lt, slice_index, unsigned_abs};
ghost use Rattle.protocol.specs.Basic.{every, all, within, unless, Provided};
ghost use Rattle.protocol.specs.Element.{value_row};
ghost use Rattle.protocol.specs.Refusal.{number, refusal_of};
ghost use Rattle.protocol.specs.Layout.{width, rows_most, rows_width};
ghost use Rattle.protocol.specs.Settings.{degree_allowed, modulus_allowed, bound_allowed, rows_allowed, settings_refusal, all_within};

use protocol::{ROWS, Refusal, Residue, Settings, TRANSFORM_MODULUS, WIDTH};

// The largest depth, one round for each slot of a record, the largest modulus and the largest bound (PROTOCOL 1.1): as `depth_allowed`, `modulus_allowed` and
// `bound_allowed` have them.
pub const DEPTH_MOST: u32 = 8;

const MODULUS_MOST: Residue = 2305843009213693951;

pub const BOUND_MOST: u32 = 127;

// A test of a call: where it fails the call is refused.
#[tactic(auto, unfolding(protocol::specs::Basic::unless))]
pub fn require(holds: bool, otherwise: Refusal) -> Result<(), Refusal>
    ensures { refusal_of result ≡ unless (number otherwise) holds }
{
    if holds { Ok(()) } else { Err(otherwise) }
}

// Refusal 3: is the degree allowed; the largest one is with one modulus alone.
fn degree_allowed(settings: Settings) -> bool
    ensures { result ≡ degree_allowed settings }
{
    let d = settings.degree;
    match d {
        2 | 4 | 8 | 16 | 32 | 64 => true,
        _ => (d == 128) & (settings.modulus == TRANSFORM_MODULUS),
    }
}

// Refusal 5: is the modulus odd and in its range.
fn modulus_allowed(settings: Settings) -> bool
    ensures { result ≡ modulus_allowed settings }
{
    let q = settings.modulus;
    (q % 2 == 1) & (3 <= q) & (q <= MODULUS_MOST)
}

// Refusal 6: is the bound in its range.
fn bound_allowed(settings: Settings) -> bool
    ensures { result ≡ bound_allowed settings }
{
    let b = settings.bound;
    (1 <= b) & (b <= BOUND_MOST)
}

// Refusal 16: is the number of rows in its range.
fn rows_allowed(settings: Settings) -> bool
    ensures { result ≡ rows_allowed settings }
{
    let rows = settings.rows as usize;
    (1 <= rows) & (rows <= ROWS)
}

// Refusals 3 to 6 and 16: are the settings allowed.
#[tactic(auto, unfolding(protocol::specs::Basic::first, protocol::specs::Basic::unless, protocol::specs::Settings::settings_refusal, protocol::specs::Settings::depth_allowed))]
pub fn allow(settings: Settings) -> Result<(), Refusal>
    ensures { refusal_of result ≡ settings_refusal settings }
{
    require(degree_allowed(settings), Refusal::Degree)?;
    require(settings.depth <= DEPTH_MOST, Refusal::Depth)?;
    require(modulus_allowed(settings), Refusal::Modulus)?;
    require(bound_allowed(settings), Refusal::Bound)?;
    require(rows_allowed(settings), Refusal::Rows)
}

// Is every number of a table below the limit: refusal 10 at 2d. The loops over tables ask all numbers, also after one that fails, so that the compiler takes
// several at a time.
pub fn all_below(limit: u32, t: &[u32]) -> bool
    ensures { result ≡ all (λ x. ltb x limit) t.now }
{
    let mut good = true;
    for x in t {
        good = good & (*x < limit);
    }
    good
}

// The same of numbers of 64 bits, for every limit.
fn all_below_any(limit: u64, t: &[u64]) -> bool
    ensures { result ≡ all (λ x. ltb x limit) t.now }
{
    let mut good = true;
    for x in t {
        good = good & (*x < limit);
    }
    good
}

// 2^63: the highest bit of a number of 64 bits.
const SIGN: u64 = 9223372036854775808;

// One number more. Where the limit is at most 2^63 the highest bit of x, or of x and what the limit is less than 2^63, is set just where x is not below it.
fn with_signs(signs: u64, limit: u64, x: u64) -> u64
    ensures { Provided (limit ≤ 2 ^ 63) (nat_lt result (2 ^ 63) ≡ (nat_lt signs (2 ^ 63) && nat_lt x limit)) }
{
    let raised = x.wrapping_add(SIGN.wrapping_sub(limit));
    signs | x | raised
}

// Are all residues of a table below the modulus: refusal 8. The highest bits of all numbers are gathered, and asked for once, so that the compiler takes several
// numbers at a time.
pub fn all_below_wide(limit: u64, t: &[u64]) -> bool
    ensures { result ≡ all (λ x. ltb x limit) t.now }
{
    if limit > SIGN {
        return all_below_any(limit, t);
    }
    let mut signs: u64 = 0;
    for x in t {
        signs = with_signs(signs, limit, *x);
    }
    signs < SIGN
}

// The same for the first n numbers of a table that has them.
fn front_below(limit: u64, n: usize, t: &[u64]) -> bool
    ensures { Provided (n ≤ length t.now) (result ≡ every n (λ k. ltb (slice_index t.now k) limit)) }
{
    if n > t.len() {
        return false;
    }
    all_below_wide(limit, &t[..n])
}

// The same for the first d places of row i of what is passed by value for each row.
fn row_below(limit: Residue, d: u32, i: usize, a: &[Residue]) -> bool
    requires { i < rows_most }
    ensures { Provided ((d ≤ width) × (length a.now ≡ rows_width)) (result ≡ every d (λ k. ltb (slice_index (value_row a.now i) k) limit)) }
{
    let at = i * WIDTH;
    if a.len() < at {
        return false;
    }
    front_below(limit, d as usize, &a[at..])
}

// The same for every row. Places past the rows are not read.
pub fn rows_below(limit: Residue, d: u32, rows: u32, a: &[Residue]) -> bool
    ensures { Provided ((d ≤ width) × (rows ≤ rows_most) × (length a.now ≡ rows_width))
        (result ≡ every rows (λ i. every d (λ k. ltb (slice_index (value_row a.now i) k) limit))) }
{
    let n = rows as usize;
    if n > ROWS {
        return false;
    }
    (0..n).all(|i| row_below(limit, d, i, a))
}

// A number with a sign, of 32 bits or of 64, beside the bound of its magnitude.
pub trait Signed: Copy {
    type Bound: Copy;

    ghost number: { Self → ℤ };

    ghost bound: { Self.Bound → ℕ };

    // Is it from −bound to bound.
    fn is_within(self, most: Self::Bound) -> bool
        ensures { result ≡ within (bound most) (number self) };
}

impl Signed for i32 {
    type Bound = u32;

    ghost number = { λ x. x };

    ghost bound = { λ b. b };

    #[tactic(auto, unfolding(protocol::specs::Basic::within))]
    fn is_within(self, most: u32) -> bool {
        self.unsigned_abs() <= most
    }
}

impl Signed for i64 {
    type Bound = u64;

    ghost number = { λ x. x };

    ghost bound = { λ b. b };

    #[tactic(auto, unfolding(protocol::specs::Basic::within))]
    fn is_within(self, most: u64) -> bool {
        most >= self.unsigned_abs()
    }
}

// Is every number of a table from −bound to bound. All are asked, also behind one that is not, so that the compiler takes several at a time.
pub fn all_within<T: Signed>(most: T::Bound, t: &[T]) -> bool
    ensures { result ≡ all (λ x. within (T.bound most) (T.number x)) t.now }
{
    let mut good = true;
    for x in t {
        good = good & x.is_within(most);
    }
    good
}
