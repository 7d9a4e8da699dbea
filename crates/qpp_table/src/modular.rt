//! Products, units and powers modulo a number, of any size.
ghost use Rattle.std.specs.Prelude.{◌≡◌, ◌*◌, ◌%◌, ◌^◌, ◌<◌, ◌↔◌, IsTrue};
ghost use Rattle.model_sender.specs.Interleaver.{IsUnit};

/// Returns the product modulo `k`.
pub fn product_modulo(k: usize, a: usize, b: usize) -> usize
    requires { 0 < k }
    ensures value { result ≡ a * b % k }
    ensures below { result < k }
{
    (a as u128 * b as u128 % k as u128) as usize
}

/// Returns whether `f` has an inverse modulo `k`, which it has where 1 is their greatest common divisor.
pub fn is_unit(k: usize, f: usize) -> bool
    requires { 0 < k }
    ensures { IsTrue result ↔ IsUnit k f }
{
    let mut a = k;
    let mut b = f;
    while b != 0 {
        let rest = a % b;
        a = b;
        b = rest;
    }
    a == 1
}

/// Returns whether the seventh power of `f` is 0 modulo `k`.
pub fn is_nilpotent(k: usize, f: usize) -> bool
    requires { 0 < k }
    ensures { IsTrue result ↔ (f ^ 7 % k ≡ 0) }
{
    let square = product_modulo(k, f, f);
    let fourth = product_modulo(k, square, square);
    let sixth = product_modulo(k, fourth, square);
    product_modulo(k, sixth, f) == 0
}
