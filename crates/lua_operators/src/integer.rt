//! Arithmetic and bits of integers of 64 bits; what does not fit wraps round (manual, sections 3.4.1 and 3.4.2).

ghost use Rattle.std.specs.Prelude.{◌≡◌, ◌≢◌, pos};
ghost use Rattle.lua_model.specs.Integer as lua;

pub fn add(a: i64, b: i64) -> i64
    ensures { result ≡ lua.add a b }
{
    a.wrapping_add(b)
}

pub fn sub(a: i64, b: i64) -> i64
    ensures { result ≡ lua.sub a b }
{
    a.wrapping_sub(b)
}

pub fn mul(a: i64, b: i64) -> i64
    ensures { result ≡ lua.mul a b }
{
    a.wrapping_mul(b)
}

pub fn minus(a: i64) -> i64
    ensures { result ≡ lua.minus a }
{
    a.wrapping_neg()
}

/// The quotient rounded to minus infinity.
pub fn floor_div(a: i64, b: i64) -> i64
    requires { b ≢ pos 0 }
    ensures { result ≡ lua.floor_div a b }
{
    if b > 0 {
        return a.wrapping_div_euclid(b);
    }
    let by = b.unsigned_abs();
    if a > 0 {
        -1 - ((a.unsigned_abs() - 1) / by).cast_signed()
    } else {
        (a.unsigned_abs() / by).cast_signed()
    }
}

/// What the rounded quotient leaves; it has the sign of the divisor.
pub fn modulo(a: i64, b: i64) -> i64
    requires { b ≢ pos 0 }
    ensures { result ≡ lua.modulo a b }
{
    a.wrapping_sub(b.wrapping_mul(floor_div(a, b)))
}

pub fn bit_and(a: i64, b: i64) -> i64
    ensures { result ≡ lua.bit_and a b }
{
    a & b
}

pub fn bit_or(a: i64, b: i64) -> i64
    ensures { result ≡ lua.bit_or a b }
{
    a | b
}

pub fn bit_xor(a: i64, b: i64) -> i64
    ensures { result ≡ lua.bit_xor a b }
{
    a ^ b
}

pub fn bit_not(a: i64) -> i64
    ensures { result ≡ lua.bit_not a }
{
    !a
}

fn left_by(a: i64, places: u64) -> i64
    ensures { result ≡ lua.left_by a places }
{
    if places < 64 { a << places as u32 } else { 0 }
}

fn right_by(a: i64, places: u64) -> i64
    ensures { result ≡ lua.right_by a places }
{
    if places < 64 {
        (a.cast_unsigned() >> places as u32).cast_signed()
    } else {
        0
    }
}

/// By 64 places or more nothing is left; by a negative number it is a shift to the right.
pub fn shift_left(a: i64, places: i64) -> i64
    ensures { result ≡ lua.shift_left a places }
{
    if places < 0 {
        right_by(a, places.unsigned_abs())
    } else {
        left_by(a, places.unsigned_abs())
    }
}

/// It is logical: zeros come in from the left.
pub fn shift_right(a: i64, places: i64) -> i64
    ensures { result ≡ lua.shift_right a places }
{
    if places < 0 {
        left_by(a, places.unsigned_abs())
    } else {
        right_by(a, places.unsigned_abs())
    }
}
