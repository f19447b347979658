// A host whose values lie at evenly spaced addresses.
mod methods;

ghost use Rattle.std.specs.Prelude.{◌≤◌, vec_len};
ghost use Rattle.host.specs.Limit.{max_values};

use crate::{SeatValues, Work};

// Values, value n at address n times the step, and the values held aside.
#[derive(Drop)]
pub struct ArrayHost<W: Work> {
    values: Vec<W::Value>,
    aside: SeatValues<W::Value>,
    ghost few: { vec_len values ≤ max_values },
}
