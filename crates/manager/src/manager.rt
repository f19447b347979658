// The task manager: which task may start, in what order, and which must wait.
mod makes;
mod methods;
mod steps;

ghost use Rattle.manager.specs.Sound.{Sound};

use crate::inner::Inner;

// The fields of a manager, which agree with one another.
#[derive(Drop)]
pub struct Manager {
    inner: Inner,
    ghost sound: { Sound inner },
}
