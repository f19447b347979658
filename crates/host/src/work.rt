// A kind of values, and the work on them.
ghost use Rattle.std.specs.Prelude.{◌≡◌, ◌<◌, ℕ, List};

// A kind of values that lie at evenly spaced addresses from 0 on, and the work on them.
pub trait Work {
    // What lies at an address.
    type Value: Copy;

    // How far the addresses of two neighbouring values are apart.
    const STEP: u64;

    ghost STEP: { ℕ };

    // What stands for a value where there is none.
    ghost blank: { Self.Value };

    // The value for a kind of work, an access number and a list of values.
    ghost rule: { ℕ → ℕ → List Self.Value → Self.Value };

    // What stands for a value where there is none.
    fn blank() -> Self::Value
        ensures { result ≡ blank };

    // The value for a kind of work, an access number and the values.
    fn work(kind: u32, access: u8, values: &[Self::Value]) -> Self::Value
        ensures { result ≡ rule kind access values.now };

    // Two neighbouring values are not at the same address.
    ghost apart: { 0 < STEP };
}
