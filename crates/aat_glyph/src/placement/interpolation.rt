//! A value between those of two sizes.
ghost use Rattle.std.specs.Prelude.{◌≡◌, ◌≢◌, ◌^◌, ◌<ℤ◌, ◌+ℤ◌, ◌-ℤ◌, ◌*ℤ◌, pos};
ghost use Rattle.aat_glyph.specs.placement.Interpolation.{interpolated, nearest, rounded};
ghost use Rattle.aat_glyph.specs.placement.inside.Within.{IsWithin};

/// Twice a number.
fn twice(number: i64) -> i64
    requires { IsWithin (2 ^ 50) number }
    ensures value { result ≡ number +ℤ number }
    ensures within { IsWithin (2 ^ 51) result }
{
    number + number
}

/// A quotient by a number above 0, rounded to the nearest number, halves up.
fn nearest(number: i64, by: i64) -> i64
    requires above { pos 0 <ℤ by }
    requires bounded { IsWithin (2 ^ 50) number }
    requires small { IsWithin (2 ^ 50) by }
    ensures { result ≡ nearest number by }
{
    (twice(number) + by).div_euclid(twice(by))
}

/// A quotient, rounded to the nearest number, halves up.
fn rounded(number: i64, by: i64) -> i64
    requires some { by ≢ pos 0 }
    requires bounded { IsWithin (2 ^ 50) number }
    requires small { IsWithin (2 ^ 50) by }
    ensures { result ≡ rounded number by }
{
    if by < 0 {
        nearest(-number, -by)
    } else {
        nearest(number, by)
    }
}

/// How far one number is above another.
fn distance(from: i64, to: i64) -> i64
    requires from { IsWithin (2 ^ 32) from }
    requires to { IsWithin (2 ^ 32) to }
    ensures value { result ≡ to -ℤ from }
    ensures within { IsWithin (2 ^ 33) result }
    ensures small { IsWithin (2 ^ 50) result }
{
    to - from
}

/// The product of two numbers.
fn product(a: i64, b: i64) -> i64
    requires small { IsWithin (2 ^ 16) a }
    requires large { IsWithin (2 ^ 33) b }
    ensures value { result ≡ a *ℤ b }
    ensures within { IsWithin (2 ^ 49) result }
{
    a * b
}

/// How far one value is above another.
fn rise(low: i16, high: i16) -> i64
    ensures value { result ≡ high -ℤ low }
    ensures within { IsWithin (2 ^ 16) result }
{
    high as i64 - low as i64
}

/// The sum of two numbers.
fn sum(a: i64, b: i64) -> i64
    requires first { IsWithin (2 ^ 49) a }
    requires second { IsWithin (2 ^ 49) b }
    ensures value { result ≡ a +ℤ b }
    ensures within { IsWithin (2 ^ 50) result }
{
    a + b
}

/// The value at a size on the straight line through the values at two sizes.
pub(crate) fn interpolated(from: i32, to: i32, low: i16, high: i16, size: u32) -> i64
    ensures { result ≡ interpolated from to low high (pos size) }
{
    if from == to {
        return low as i64;
    }
    let span = distance(from as i64, to as i64);
    let way = distance(from as i64, size as i64);
    let level = product(low as i64, span);
    let climb = product(rise(low, high), way);
    rounded(sum(level, climb), span)
}
