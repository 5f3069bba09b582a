// Quotients of whole numbers of 64 bits, which take a fraction of the time of those of 128.

ghost use Rattle.std.specs.Prelude.{◌≡◌, ◌^◌, ◌<◌};
ghost use Rattle.slice_base.specs.Whole.{round_nat};

/// The quotient of whole numbers, rounded to nearest, half up; `d` is above 0.
pub fn round_nat(n: u64, d: u64) -> u64
    requires positive { 0 < d }
    requires small { n < 2 ^ 63 }
    ensures { result ≡ round_nat n d }
{
    let q = n / d;
    let r = n % d;
    if r >= d - r { q + 1 } else { q }
}
