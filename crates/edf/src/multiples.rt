// Divisors and multiples of two numbers. specs/Multiples.antt says what they are.

ghost use Rattle.std.specs.Prelude.{◌≡◌, ◌≤◌};
ghost use Rattle.edf.specs.Multiples.{gcd_of, lcm_of, GreatestDivisor, LeastMultiple};

use cache::units::Ticks;

// The greatest common divisor, by Euclid's rule of remainders.
pub fn gcd(a: u64, b: u64) -> u64
    ensures value { result ≡ gcd_of a b }
    ensures greatest { GreatestDivisor a b result }
{
    if b == 0 { a } else { gcd(b, a % b) }
}

// The least common multiple of two numbers of ticks. Their product fits into a word.
pub fn lcm(a: u64, b: u64) -> u64
    requires { (1 ≤ a) × (a ≤ Ticks.LONGEST) × (b ≤ Ticks.LONGEST) }
    ensures value { result ≡ lcm_of a b }
    ensures least { LeastMultiple a b result }
{
    a / gcd(a, b) * b
}
