//! The field of GCM (SP 800-38D 6.3).
ghost use Rattle.std.specs.Prelude.{◌≡◌, ◌≤◌};
ghost use Rattle.cookie_crypt.specs.BlockField.{times_x, product_below, times_power};

const REDUCTION: u128 = 0xe1 << 120;

/// `x` times a block.
pub(crate) fn times_x(block: u128) -> u128
    ensures { result ≡ times_x block }
{
    (block >> 1) ^ ((block & 1) * REDUCTION)
}

/// The sum over the coefficients of `a` below `count` of `x` to their number times `b`. What is done depends on `a`.
pub(crate) fn product_below(a: u128, b: u128, count: u32) -> u128
    requires { count ≤ 128 }
    ensures { result ≡ product_below count a b }
{
    let mut sum = 0;
    let mut moved = b;
    for i in 0..count {
        if (a >> (127 - i)) & 1 == 1 {
            sum ^= moved;
        }
        moved = times_x(moved);
    }
    sum
}

/// `x` to the fourth times a block.
pub(crate) fn times_x_to_the_fourth(block: u128) -> u128
    ensures { result ≡ times_power 4 block }
{
    times_x(times_x(times_x(times_x(block))))
}
