//! Arithmetic of the numbers that the language has: whole numbers of 64 bits. A result is the exact number of
//! mathematics, or there is none.
//!
//! **A crate of its own**, since a wrong body of it is refused within seconds here, and within minutes in a crate
//! of values.
//!
//! **Must not know**: values, and what a fault is called.
#![tactic(auto)]

ghost use Rattle.std.specs.Prelude.{◌≡◌, ◌≤ℤ◌, ◌+ℤ◌, ◌-ℤ◌, ◌*ℤ◌, neg_ℤ, pos, FitsSigned, SomeIff};
ghost use Rattle.std.specs.Int.{w64, int_div_euclid, int_rem_euclid};

/// The number with the other sign (profile). None if 64 bits do not hold it.
pub fn negative(n: i64) -> Option<i64>
    ensures { SomeIff result (FitsSigned w64 (neg_ℤ n)) (neg_ℤ n) }
{
    n.checked_neg()
}

/// The sum of two numbers (profile). None if 64 bits do not hold it.
pub fn sum(m: i64, n: i64) -> Option<i64>
    ensures { SomeIff result (FitsSigned w64 (m +ℤ n)) (m +ℤ n) }
{
    m.checked_add(n)
}

/// The difference of two numbers (profile). None if 64 bits do not hold it.
pub fn difference(m: i64, n: i64) -> Option<i64>
    ensures { SomeIff result (FitsSigned w64 (m -ℤ n)) (m -ℤ n) }
{
    m.checked_sub(n)
}

/// The product of two numbers (profile). None if 64 bits do not hold it.
pub fn product(m: i64, n: i64) -> Option<i64>
    ensures { SomeIff result (FitsSigned w64 (m *ℤ n)) (m *ℤ n) }
{
    m.checked_mul(n)
}

/// The quotient, rounded down, of a divisor of at least 1 (profile). None if the divisor is less.
pub fn quotient(m: i64, n: i64) -> Option<i64>
    ensures { SomeIff result (pos 1 ≤ℤ n) (int_div_euclid m n) }
{
    if 1 <= n { Some(m.div_euclid(n)) } else { None }
}

/// What the quotient leaves, of a divisor of at least 1 (profile). None if the divisor is less.
pub fn remainder(m: i64, n: i64) -> Option<i64>
    ensures { SomeIff result (pos 1 ≤ℤ n) (int_rem_euclid m n) }
{
    if 1 <= n { Some(m.rem_euclid(n)) } else { None }
}
