// The work rule of stamps.
ghost use Rattle.std.specs.Prelude.{◌≡◌};
ghost use Rattle.stamp_host.specs.Rule.{stamp_rule};

// Starts as kind plus access number; for each value in order it is rotated left by 7, combined with the value by
// exclusive or, and raised by 1, wrapping at 64 bits.
pub fn stamp_rule(kind: u32, access: u8, values: &[u64]) -> u64
    ensures { result ≡ stamp_rule kind access values.now }
{
    let start = u64::from(kind) + u64::from(access);
    values.iter().fold(start, |code, value| {
        (code.rotate_left(7) ^ *value).wrapping_add(1)
    })
}
