// A line: first in, first out, over slots that are handed over, for every element that can be copied. The work line carries seats out to
// the workers, the notice line carries their notices back.
#![tactic(auto)]

mod methods;
mod window;

ghost use Rattle.std.specs.Prelude.{length};
ghost use Rattle.queue.specs.Window.{Within};

pub use window::Window;

// The elements stand in those of the slots that are in use.
// Kept: a line is a ring over memory that is handed over and asks for none, so the slots in use are noted beside a slice.
#[derive(Drop)]
pub struct Line<'a, T: Copy> {
    slots: &'a mut [T],
    window: Window,
    ghost within: { Within window (length slots.now) },
}

// What a worker sends back: the seat whose task it has done, and its own number.
#[derive(Clone, Copy, PartialEq, Eq, Debug)]
pub struct Notice {
    pub seat: u16,
    pub worker: u16,
}
