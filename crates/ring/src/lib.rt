// A ring: first in, first out, in 256 slots of its own, for every element that can be copied.
#![tactic(auto)]

mod copies;
mod methods;

ghost use Rattle.std.specs.Prelude.{◌≡◌, length};
ghost use Rattle.queue.specs.Window.{Within};
ghost use Rattle.ring.specs.Capacity.{capacity};

use queue::Window;

// How many slots a ring has.
const CAPACITY: usize = 256;

// The elements stand in those of the slots that are in use.
// Kept: a ring has fixed memory of its own and is copied without asking for any; the rings of the libraries are on the heap.
// Kept: a ring and a `queue::Line` share their `Window`, and differ in whose memory the slots are.
#[derive(Copy)]
pub struct Ring<T: Copy> {
    slots: [T; CAPACITY],
    window: Window,
    ghost whole: { length slots ≡ capacity },
    ghost within: { Within window capacity },
}
