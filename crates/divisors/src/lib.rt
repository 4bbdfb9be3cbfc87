// The greatest common divisor, for every two numbers.
#![tactic(auto)]

ghost use Rattle.std.specs.Prelude.{◌≡◌};
ghost use Rattle.protocol.specs.CommonDivisor.{greatest_common_divisor};

// Euclid's algorithm: at most some 100 divisions, as two steps at least halve the first number. The loop counts no index.
#[tactic(auto, using(protocol::proofs::CommonDivisor::divisor_zero, protocol::proofs::CommonDivisor::divisor_step))]
pub fn greatest_common_divisor(a: u64, b: u64) -> u64
    ensures { result ≡ greatest_common_divisor a b }
{
    let mut first = a;
    let mut second = b;
    while second != 0 {
        let rest = first % second;
        first = second;
        second = rest;
    }
    first
}
