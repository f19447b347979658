// The work rule of tiles.
ghost use Rattle.std.specs.Prelude.{◌≡◌, ℕ, ◌/◌, ◌<◌, length};
ghost use Rattle.tile_host.specs.Rule.{total, highest, kind_of, tile_rule};

use crate::{Tile, Tiles};
use host::Work;
use std::array;

// The kinds of work.
#[derive(Clone, Copy, Debug, PartialEq, Eq)]
enum Kind {
    // Zeros.
    Zeros,
    // Each channel's average, rounded down.
    Average,
    // Each channel's maximum.
    Maximum,
    // The first value.
    First,
}

// The kind of work that a number stands for.
impl From<u32> for Kind {
    ghost from_gives = { λ number kind. kind ≡ kind_of number };

    fn from(number: u32) -> Kind {
        match number {
            0 => Kind::Zeros,
            1 => Kind::Average,
            2 => Kind::Maximum,
            _ => Kind::First,
        }
    }
}

// The average of a channel over the values, rounded down.
fn average(values: &[Tile], channel: usize) -> u16
    requires within { channel < 4 }
    requires some { 0 < length values.now }
    ensures { result ≡ total channel values.now / length values.now }
{
    let sum: u128 = values
        .iter()
        .map(|tile| u128::from(tile.channels[channel]))
        .sum();
    (sum / values.len() as u128) as u16
}

// The greatest number of a channel over the values, or 0.
fn maximum(values: &[Tile], channel: usize) -> u16
    requires { channel < 4 }
    ensures { result ≡ highest channel values.now }
{
    values
        .iter()
        .fold(0, |highest, tile| highest.max(tile.channels[channel]))
}

// Kind 0 gives zeros, kind 1 each channel's average rounded down, kind 2 each channel's maximum, any other kind the first
// value. With no value the result is zeros.
pub fn tile_rule(kind: u32, values: &[Tile]) -> Tile
    ensures { result ≡ tile_rule kind values.now }
{
    let [first, ..] = values else {
        return Tiles::blank();
    };
    match Kind::from(kind) {
        Kind::Zeros => Tiles::blank(),
        Kind::Average => Tile {
            channels: array::from_fn(|channel| average(values, channel)),
        },
        Kind::Maximum => Tile {
            channels: array::from_fn(|channel| maximum(values, channel)),
        },
        Kind::First => *first,
    }
}
