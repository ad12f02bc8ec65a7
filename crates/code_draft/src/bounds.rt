//! Between which ends the numbers of an expression lie, as far as that is known.

ghost use Rattle.std.specs.Prelude.{◌≤ℤ◌, pos};

/// The ends between which numbers lie; none where one isn't known. Nothing but the counts of rounds rests on them.
#[derive(Clone, Copy, PartialEq, Eq)]
pub struct Bounds {
    /// The least end.
    pub least: Option<i64>,
    /// The greatest end.
    pub greatest: Option<i64>,
}

impl Bounds {
    /// No end is known.
    pub const UNKNOWN: Bounds = Bounds {
        least: None,
        greatest: None,
    };

    /// From one number to another.
    pub fn between(least: i64, greatest: i64) -> Bounds {
        Bounds {
            least: Some(least),
            greatest: Some(greatest),
        }
    }

    /// One number.
    pub fn of(number: i32) -> Bounds {
        Bounds::between(i64::from(number), i64::from(number))
    }

    /// Of a sum.
    pub fn plus(self, other: Bounds) -> Bounds {
        Bounds {
            least: sum(self.least, other.least),
            greatest: sum(self.greatest, other.greatest),
        }
    }

    /// Of a difference.
    pub fn minus(self, other: Bounds) -> Bounds {
        Bounds {
            least: difference(self.least, other.greatest),
            greatest: difference(self.greatest, other.least),
        }
    }

    /// Of a product.
    pub fn times(self, other: Bounds) -> Bounds {
        match (self.least, self.greatest, other.least, other.greatest) {
            (Some(a), Some(b), Some(c), Some(d)) => products(a, b, c, d),
            _ => Bounds::UNKNOWN,
        }
    }

    /// Of a quotient, whose divisor is from 1 on.
    pub fn over(self, other: Bounds) -> Bounds {
        let least = Some(divisor(other.least.unwrap_or(1)));
        let greatest = match other.greatest {
            Some(end) => Some(divisor(end)),
            None => None,
        };
        Bounds {
            least: quotient(self.least, greatest, least),
            greatest: quotient(self.greatest, least, greatest),
        }
    }

    /// Of what a division leaves.
    pub fn rest(self, other: Bounds) -> Bounds {
        let greatest = match other.greatest {
            Some(end) => Some(divisor(end).saturating_sub(1)),
            None => None,
        };
        Bounds {
            least: Some(0),
            greatest,
        }
    }

    /// Of the lesser of two: the smaller of those ends that are known.
    pub fn lesser(self, other: Bounds) -> Bounds {
        Bounds {
            least: known_least(self.least, other.least),
            greatest: known_least(self.greatest, other.greatest),
        }
    }

    /// Of the greater of two.
    pub fn greater(self, other: Bounds) -> Bounds {
        Bounds {
            least: both_greatest(self.least, other.least),
            greatest: both_greatest(self.greatest, other.greatest),
        }
    }

    /// Of one or the other.
    pub fn either(self, other: Bounds) -> Bounds {
        Bounds {
            least: both_least(self.least, other.least),
            greatest: both_greatest(self.greatest, other.greatest),
        }
    }

    /// Of a sum of so many, or none.
    pub fn summed(self, rounds: u32) -> Bounds {
        Bounds {
            least: both_least(times(self.least, rounds), Some(0)),
            greatest: both_greatest(times(self.greatest, rounds), Some(0)),
        }
    }

    /// Of a number of a span between one end and the number before another.
    pub fn spanned(self, past: Bounds) -> Bounds {
        Bounds {
            least: self.least,
            greatest: difference(past.greatest, Some(1)),
        }
    }
}

/// How many rounds a span has at most, between an end and before another; none where an end that is wanted isn't known.
pub fn rounds_of(from: Bounds, past: Bounds) -> Option<u32> {
    match (from.least, past.greatest) {
        (Some(least), Some(greatest)) => Some(count(greatest.saturating_sub(least))),
        _ => None,
    }
}

/// A count, as far as it has 32 bits.
fn count(number: i64) -> u32 {
    if number <= 0 {
        return 0;
    }
    u32::try_from(number).unwrap_or(u32::MAX)
}

fn sum(a: Option<i64>, b: Option<i64>) -> Option<i64> {
    match (a, b) {
        (Some(a), Some(b)) => Some(a.saturating_add(b)),
        _ => None,
    }
}

fn difference(a: Option<i64>, b: Option<i64>) -> Option<i64> {
    match (a, b) {
        (Some(a), Some(b)) => Some(a.saturating_sub(b)),
        _ => None,
    }
}

fn times(a: Option<i64>, rounds: u32) -> Option<i64> {
    match a {
        Some(a) => Some(a.saturating_mul(i64::from(rounds))),
        None => None,
    }
}

/// The bounds of the products of numbers between `a` and `b` with numbers between `c` and `d`.
fn products(a: i64, b: i64, c: i64, d: i64) -> Bounds {
    let w = a.saturating_mul(c);
    let x = a.saturating_mul(d);
    let y = b.saturating_mul(c);
    let z = b.saturating_mul(d);
    Bounds::between(w.min(x).min(y.min(z)), w.max(x).max(y.max(z)))
}

/// A divisor, from 1 on.
fn divisor(end: i64) -> i64 {
    if end < 1 { 1 } else { end }
}

/// The end of a quotient: of a number from 0 on by one divisor, of another by the other one.
fn quotient(
    number: Option<i64>,
    of_positive: Option<i64>,
    of_negative: Option<i64>,
) -> Option<i64> {
    match number {
        Some(number) if number < 0 => floor(number, of_negative),
        Some(number) => floor(number, of_positive),
        None => None,
    }
}

fn floor(number: i64, divisor: Option<i64>) -> Option<i64> {
    match divisor {
        Some(divisor) if divisor >= 1 => Some(divided(number, divisor)),
        _ => None,
    }
}

fn divided(number: i64, divisor: i64) -> i64
    requires { pos 1 ≤ℤ divisor }
{
    number.div_euclid(divisor)
}

fn both_least(a: Option<i64>, b: Option<i64>) -> Option<i64> {
    match (a, b) {
        (Some(a), Some(b)) => Some(a.min(b)),
        _ => None,
    }
}

fn both_greatest(a: Option<i64>, b: Option<i64>) -> Option<i64> {
    match (a, b) {
        (Some(a), Some(b)) => Some(a.max(b)),
        _ => None,
    }
}

/// The smaller of those ends that are known.
fn known_least(a: Option<i64>, b: Option<i64>) -> Option<i64> {
    match (a, b) {
        (Some(a), Some(b)) => Some(a.min(b)),
        (Some(a), None) => Some(a),
        (None, b) => b,
    }
}
