// The order of acceptance: the seats of the unfinished tasks, the first accepted first.
#![tactic(auto)]

mod methods;

ghost use Rattle.std.specs.Prelude.{◌≡◌, ◌≤◌, vec_len, vec_capacity};
ghost use Rattle.acceptance.specs.Placed.{Placed};

// How many seats there are.
const SEATS: usize = 256;

// How many places there is room for: twice as many, so that the holes are closed up at most once in 256 calls of push.
const PLACES: usize = 512;

// Each place in use has a seat or is a hole, and each seat's own place is noted.
#[derive(Drop)]
pub struct Acceptance {
    slots: Vec<Option<u8>>,
    places: Vec<u16>,
    ghost room: { vec_capacity slots ≡ 512 },
    ghost within: { vec_len slots ≤ 512 },
    ghost noted: { vec_len places ≡ 256 },
    ghost placed: { Placed slots.items places.items },
}
