// One seat's occupant, lent out of the table.
ghost use Rattle.std.specs.Prelude.{◌≡◌, is_some, IfSome, vec_len, nat_lt, slice_index_or};
ghost use Rattle.std.specs.Borrow.{sem, follows, follows_if};
ghost use Rattle.std.specs.Vec.{with_item};
ghost use Rattle.std.specs.Option.{ghost_name_of as name_of};
ghost use Rattle.manager.specs.contracts.inner.SeatTable.{the_row};
ghost use Rattle.seat.specs.contracts.seats.Seat.{the_row as seat-row};

use crate::inner::SeatTable;
use seat::Seat;

impl SeatTable {
    // The record of a seat, to be changed in place; all others stay. None beyond the table.
    pub(crate) fn find(&mut self, seat: usize) -> Option<&mut Seat>
        ensures* follows { sem 𝓛 (follows_if the_row seat-row self.entry.ghost_name (name_of result) (λ w. record { records = with_item self.old.records seat w }) self.old) }
        ensures follows_facts { (is_some result ≡ nat_lt seat (vec_len self.old.records)) × IfSome result (λ x. x.now ≡ slice_index_or self.old.records.items seat x.now) }
    {
        self.records.get_mut(seat)
    }

    // The same of a table that has a record for every seat, so that there is always one.
    pub(crate) fn lend(&mut self, seat: u8) -> &mut Seat
        requires { vec_len self.old.records ≡ 256 }
        ensures* follows { sem 𝓛 (follows the_row seat-row self.entry.ghost_name result.ghost_name (λ w. record { records = with_item self.old.records seat w })) }
        ensures value { result.now ≡ slice_index_or self.old.records.items seat result.now }
    {
        &mut self.records[usize::from(seat)]
    }
}
