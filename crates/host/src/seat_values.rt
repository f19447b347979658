// The values held aside: one for each seat and position.
mod methods;

ghost use Rattle.std.specs.Prelude.{◌≡◌, ◌*◌, vec_len};
ghost use Rattle.host.specs.Meaning.{seats, positions};

// A table of one value for each seat and position, a seat's positions one after another.
#[derive(Drop)]
pub struct SeatValues<V: Copy> {
    values: Vec<V>,
    ghost full: { vec_len values ≡ seats * positions },
}
