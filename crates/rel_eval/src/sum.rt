//! Sums of numbers of 128 bits that are exact, however far they go on the way.

ghost use Rattle.std.specs.Prelude.{◌≡◌, ◌≤◌, ◌<◌, ◌+◌, ◌^◌, pos, neg_ℤ, ◌+ℤ◌, ◌-ℤ◌, ◌≤ℤ◌, ◌<ℤ◌};
ghost use Rattle.vdb_model.specs.Groups as spec;
ghost use Rattle.vdb_model.specs.Number.{extent, number};
ghost use Rattle.rel_eval.specs.Sums.{amount, number_in};

use vdb_base::Value;

/// A sum: `low`, and 2^128 for each of `carries`.
#[derive(Clone, Copy)]
struct Sum {
    low: i128,
    carries: i128,
}

/// Two numbers whose sum is past the greatest, less 2^128.
fn from_above(a: i128, b: i128) -> i128
    requires { pos (2 ^ 127) ≤ℤ (a +ℤ b) }
    ensures { result ≡ (a +ℤ b) -ℤ pos (2 ^ 128) }
{
    (a + i128::MIN) + (b + i128::MIN)
}

/// Two numbers whose sum is past the least, and 2^128.
fn from_below(a: i128, b: i128) -> i128
    requires { (a +ℤ b) <ℤ neg_ℤ (pos (2 ^ 127)) }
    ensures { result ≡ (a +ℤ b) +ℤ pos (2 ^ 128) }
{
    (a - i128::MIN) + (b - i128::MIN)
}

/// Adds a number, where fewer than 2^64 were added before.
fn plus(sum: Sum, n: i128) -> Sum
    requires { extent sum.carries < 2 ^ 64 }
    ensures amount { amount result ≡ amount sum +ℤ n }
    ensures carries { extent result.carries ≤ extent sum.carries + 1 }
{
    match sum.low.checked_add(n) {
        Some(low) => Sum {
            low,
            carries: sum.carries,
        },
        None if n < 0 => Sum {
            low: from_below(sum.low, n),
            carries: sum.carries - 1,
        },
        None => Sum {
            low: from_above(sum.low, n),
            carries: sum.carries + 1,
        },
    }
}

/// The sum as a value, which is NULL past 128 bits.
fn value_of(sum: Sum) -> Value
    ensures { result ≡ number (amount sum) }
{
    if sum.carries == 0 {
        Value::Num(sum.low)
    } else {
        Value::Null
    }
}

fn number_in(v: &Value) -> i128
    ensures { result ≡ number_in v.now }
{
    match v {
        Value::Num(n) => *n,
        Value::Null | Value::Bool(_) | Value::Str(_) => 0,
    }
}

fn total(vs: &[Value]) -> Sum
    ensures { amount result ≡ spec.total vs.now }
{
    let mut sum = Sum { low: 0, carries: 0 };
    for v in vs {
        sum = plus(sum, number_in(v));
    }
    sum
}

/// The sum of the numbers among the values, or NULL where there is no value.
pub fn sum_of(vs: &[Value]) -> Value
    ensures { result ≡ spec.sum_of vs.now }
{
    if vs.is_empty() {
        Value::Null
    } else {
        value_of(total(vs))
    }
}
