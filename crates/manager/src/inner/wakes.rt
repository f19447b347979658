// The tasks that nothing blocks any more become ready.
ghost use Rattle.std.specs.Prelude.{◌≡◌, ◌&&◌, [], ◌∷◌, length, if◌then◌else◌, ◌==◌};
ghost use Rattle.roll.specs.Roll.{woken};
ghost use Rattle.roll.specs.Calls.{awake};
ghost use Rattle.manager.specs.Model.{tables_of, state_of, roll_of};
ghost use Rattle.manager.specs.Answers.{no_values};
ghost use Rattle.manager.specs.Finished.{BecameReady, Waking, wakes};
ghost use Rattle.manager.specs.Sound.{Seated, Sound};

use crate::inner::Inner;
use seat::Event;
use tracker::Span;

impl Inner {
    // The second part of a finish: every waiting task that conflicts with no earlier one any more becomes ready and joins the ready
    // line, in roll order. Answers how many.
    // Kept: tried as filter and count over the places; the closure changes the manager, and then nothing is known of what it did.
    pub(crate) fn wake(&mut self, span: Span) -> u16
        requires { Waking self.old span }
        ensures answer { result ≡ length (woken [] (roll_of self.old)) }
        ensures after { state_of self.new no_values ≡ awake (state_of self.old no_values) }
        ensures tables { tables_of self.new ≡ tables_of self.old }
        ensures sound { Sound self.new }
    {
        let mut count = 0u16;
        for place in span.first..span.end {
            let Some(seat) = self.order.at(place) else {
                continue;
            };
            count += u16::from(self.rouse(seat));
        }
        count
    }

    // A waiting task that nothing blocks becomes ready and joins the ready line. Did it?
    fn rouse(&mut self, seat: u8) -> bool
        requires { Seated self.old }
        ensures answer { result ≡ wakes self.old seat }
        ensures after { BecameReady self.old self.new (λ t. (t == seat) && result) (if result then seat ∷ [] else []) }
    {
        if self.tracker.is_blocked(seat) {
            return false;
        }
        let occupant = self.table.lend(seat);
        occupant.on(Event::Unblocked) && self.ready.push(seat)
    }
}
