// Arithmetic on signed values: a result outside the signed range becomes the nearest end, and is not the true one.
ghost use Rattle.std.specs.Prelude.{◌≡◌, neg_ℤ, ◌+ℤ◌, ◌-ℤ◌, ◌*ℤ◌};
ghost use Rattle.rules_numbers.specs.Clip.{clip, quotient, least, greatest};
ghost use Rattle.rules_numbers.specs.Truth.{undefined, divided, telling, itself, clipped};

use rules_numbers::Outcome;

// A result that is the true one.
pub fn exact(x: i32) -> Outcome
    ensures { result ≡ itself x }
{
    Outcome {
        result: x,
        is_true: true,
    }
}

// A result that is not.
pub fn untrue(x: i32) -> Outcome
    ensures { result ≡ telling x undefined }
{
    Outcome {
        result: x,
        is_true: false,
    }
}

// The one place that clips: what two signed values give is exact at twice their width.
fn narrow(x: i64) -> Outcome
    ensures { result ≡ clipped x }
{
    match i32::try_from(x) {
        Ok(kept) => exact(kept),
        Err(_) if x < 0 => untrue(i32::MIN),
        Err(_) => untrue(i32::MAX),
    }
}

pub fn add(b: i32, c: i32) -> Outcome
    ensures { result ≡ clipped (b +ℤ c) }
{
    narrow(i64::from(b) + i64::from(c))
}

// Subtracts c from b.
pub fn subtract(b: i32, c: i32) -> Outcome
    ensures { result ≡ clipped (b -ℤ c) }
{
    narrow(i64::from(b) - i64::from(c))
}

pub fn negate(b: i32) -> Outcome
    ensures { result ≡ clipped (neg_ℤ b) }
{
    narrow(-i64::from(b))
}

pub fn multiply(b: i32, c: i32) -> Outcome
    ensures { result ≡ clipped (b *ℤ c) }
{
    narrow(i64::from(b) * i64::from(c))
}

// Divides b by c toward zero; a zero divisor gives 0, which is not true. Only a quotient by -1 can leave the range, so the machine's own division does the rest.
pub fn divide(b: i32, c: i32) -> Outcome
    ensures { result ≡ telling (clip (quotient b c)) (divided b c) }
{
    if c == 0 {
        untrue(0)
    } else if c == -1 {
        negate(b)
    } else {
        exact(b / c)
    }
}

pub fn minimum(b: i32, c: i32) -> i32
    ensures { result ≡ least b c }
{
    b.min(c)
}

pub fn maximum(b: i32, c: i32) -> i32
    ensures { result ≡ greatest b c }
{
    b.max(c)
}
