ghost use Rattle.std.specs.Prelude.{◌≡◌, min, length, IfOk};
ghost use Rattle.tile_host.specs.Tiles.{max_tiles, count_of, fixed_of, values_of, fixed_for, values_from};

use host::{Host, ReadBack};
use std::alloc::{AllocError, Global};
use std::test::Fail;
use tile_host::{Tile, TileHost, tile_rule};

const DARK: Tile = Tile {
    channels: [1, 2, 3, 65_535],
};

const LIGHT: Tile = Tile {
    channels: [4, 2, 0, 65_534],
};

// A host of the handed tiles, said in the words for tiles.
fn of_tiles(heap: Global, tiles: &[Tile]) -> Result<TileHost, AllocError>
    ensures count { IfOk result (λ h. count_of h ≡ min (length tiles.now) max_tiles) }
    ensures fixed { IfOk result (λ h. fixed_of h ≡ fixed_for (length tiles.now)) }
    ensures values { IfOk result (λ h. values_of h ≡ values_from tiles.now) }
{
    TileHost::new(heap, tiles)
}

#[test]
fn the_rule_goes_by_the_kind(rt: HostRuntime) {
    assert_eq!(rt; tile_rule(0, &[DARK, LIGHT]).channels, [0, 0, 0, 0]);
    assert_eq!(rt; tile_rule(1, &[DARK, LIGHT]).channels, [2, 2, 1, 65_534]);
    assert_eq!(rt; tile_rule(2, &[DARK, LIGHT]).channels, [4, 2, 3, 65_535]);
    assert_eq!(rt; tile_rule(3, &[DARK, LIGHT]).channels, [1, 2, 3, 65_535]);
    assert_eq!(rt;
        tile_rule(u32::MAX, &[LIGHT, DARK]).channels,
        [4, 2, 0, 65_534]
    );
    assert_eq!(rt; tile_rule(2, &[]).channels, [0, 0, 0, 0]);
}

#[test]
fn a_host_holds_the_multiples_of_16(rt: HostRuntime) -> Result<(), Fail> {
    let mut host = of_tiles(rt.alloc(), &[DARK, LIGHT])?;
    assert!(rt; host.holds(0) && host.holds(16));
    assert!(rt; !host.holds(1) && !host.holds(15) && !host.holds(32) && !host.holds(u64::MAX));
    host.bring(0, 3, 0);
    host.bring(16, 3, 1);
    host.put(1, 0, 2, 3, 16);
    assert_eq!(rt;
        host.value_at(16),
        Some(Tile {
            channels: [2, 2, 1, 65_534]
        })
    );
    assert_eq!(rt;
        host.value_at(0),
        Some(Tile {
            channels: [1, 2, 3, 65_535]
        })
    );
    host.put(0, 0, 2, 3, 17);
    assert_eq!(rt;
        host.value_at(16),
        Some(Tile {
            channels: [2, 2, 1, 65_534]
        })
    );
    Ok(())
}
