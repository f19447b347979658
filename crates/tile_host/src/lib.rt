// A host whose values are tiles of four channels, at the addresses that are multiples of 16.
#![tactic(auto)]

mod rule;

ghost use Rattle.std.proofs.Common.{lit<};
ghost use Rattle.tile_host.specs.Rule.{blank, tile_rule};

use host::{ArrayHost, MAX_VALUES, Work};
pub use rule::tile_rule;

// How many channels a tile has.
pub const CHANNELS: usize = 4;

// How many tiles a host has at most.
pub const MAX_TILES: usize = MAX_VALUES;

// How far the addresses of two neighbouring tiles are apart.
pub const TILE_STEP: u64 = 16;

// A number of 16 bits for each channel.
#[derive(Clone, Copy, Debug, PartialEq, Eq)]
pub struct Tile {
    pub channels: [u16; CHANNELS],
}

// Tiles, tile n at address 16 times n, and the tiles held aside.
pub type TileHost = ArrayHost<Tiles>;

// The work on tiles. The access number plays no part.
pub struct Tiles;

impl Work for Tiles {
    type Value = Tile;

    const STEP: u64 = TILE_STEP;

    ghost STEP = { 16 };

    ghost blank = { blank };

    ghost rule = { λ kind access values. tile_rule kind values };

    ghost apart = { lit< tt };

    // The tile with 0 in every channel.
    fn blank() -> Tile {
        Tile {
            channels: [0; CHANNELS],
        }
    }

    // The tile for the kind and the tiles.
    fn work(kind: u32, _access: u8, values: &[Tile]) -> Tile {
        tile_rule(kind, values)
    }
}
