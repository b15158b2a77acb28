// The arithmetic that the Rust takes from its language and its standard library: bit patterns as
// floats, counts as floats, floats as whole numbers, sums and differences that stop at the ends of
// u64, and the test of a fraction. time.rs is the module `time`.
#![tactic(auto)]

ghost use Rattle.std.specs.Prelude.{◌≡◌, ◌-◌, ◌%◌, min, pos};
ghost use Rattle.std.specs.Float.Ieee as Ieee;
ghost use Rattle.std.specs.Float.{binary32, binary64};
ghost use Rattle.numbers.specs.Finite.{is_finite};
ghost use Rattle.numbers.specs.Fraction.{reached};
ghost use Rattle.numbers.specs.Round.{round_away};
ghost use Rattle.numbers.specs.Saturating.{saturating_add};

pub mod time;

// ---- floats of words

// The f64 of a bit pattern. Every NaN pattern gives the NaN.
pub fn f64_of_word(w: u64) -> f64
    ensures { result ≡ Ieee.of_bits binary64 w }
{
    std::num::f64_from_bits_with_nan(w)
}

// The f32 of the bit pattern in a word's low 32 bits, NaN patterns as above.
pub fn f32_of_word(w: u64) -> f32
    ensures { result ≡ Ieee.of_bits binary32 (w % 4294967296) }
{
    std::num::f32_from_bits_with_nan((w % 4294967296) as u32)
}

// ---- floats and whole numbers

// Rust's `n as f64`: the nearest f64, at a tie the even one.
fn count_as_f64(n: u64) -> f64
    ensures { result ≡ Ieee.of_int binary64 (pos n) }
{
    std::num::nearest_u64_to_f64(n)
}

// Rust's `x as u64`: cut toward zero, 0 for a NaN and below zero, u64::MAX from 2^64 on.
pub fn cut(x: f64) -> u64
    ensures { result ≡ Ieee.to_unsigned 64 x }
{
    std::num::saturating_f64_to_u64(x)
}

// Rust's `x.round() as u64`: to the nearest whole number, a half away from zero.
pub fn round_half_away(x: f64) -> u64
    ensures { result ≡ round_away x }
{
    cut(x.round())
}

// Rust's `x.is_finite()`.
pub fn is_finite(x: f64) -> bool
    ensures { result ≡ is_finite x }
{
    x.is_finite()
}

// ---- counts

// Rust's `a.saturating_add(b)`.
pub fn saturating_add(a: u64, b: u64) -> u64
    ensures { result ≡ saturating_add a b }
{
    a.saturating_add(b)
}

// Rust's `a.saturating_sub(b)`. The contract's minus is that of the natural numbers: 0 where b is
// the larger.
pub fn saturating_sub(a: u64, b: u64) -> u64
    ensures { result ≡ a - b }
{
    a.saturating_sub(b)
}

// Rust's `a.min(b)`.
pub fn smaller(a: u64, b: u64) -> u64
    ensures { result ≡ min a b }
{
    a.min(b)
}

// Whether p of t reach the fraction f: the f64 quotient of the counts against f. 0 of 0 is a NaN
// and does not reach it; 1 of 0 is an infinity and does.
#[tactic(auto, unfolding(crate::specs::Fraction::reached))]
pub fn fraction_reached(p: u64, t: u64, f: f64) -> bool
    ensures { result ≡ reached p t f }
{
    count_as_f64(p) / count_as_f64(t) >= f
}
