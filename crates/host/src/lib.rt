// The host interface: where values live and work is done, stated by its meaning.
#![tactic(auto)]

pub mod array_host;
pub mod seat_values;
mod work;

ghost use Rattle.std.specs.Prelude.{◌≡◌, ◌&&◌, if◌then◌else◌, Some, None, nat_lt};
ghost use Rattle.host.specs.Meaning.{Fixed, Values, brought, stored, seats, positions};

pub use array_host::ArrayHost;
pub use seat_values::SeatValues;
pub use work::Work;

// How many seats have values held aside.
pub const SEATS: usize = 256;

// How many positions each seat has: one for each access that a task may have.
pub const POSITIONS: usize = 15;

// How many values a host has at most.
pub const MAX_VALUES: usize = 4096;

// A host holds some addresses with a value at each, and for each seat and position a value held aside.
// Which addresses it holds never changes, nor does its work rule.
pub trait Host {
    // The host's own kind of value.
    type Value: Copy;

    // The held addresses and the work rule.
    ghost fixed: { Self → Fixed Self.Value };

    // The value at each address, and the values held aside.
    ghost values: { Self → Values Self.Value };

    // Whether the host holds the address.
    fn holds(&self, address: u64) -> bool
        ensures { result ≡ (fixed self.now).held address };

    // Copies the value at the address to a position of the seat. Beyond the meaning it changes nothing.
    // Kept: these parameters are the interface that hosts are written against, so seat and position stay two plain numbers.
    fn bring(&mut self, address: u64, seat: u16, position: u8)
        ensures fixed { fixed self.new ≡ fixed self.old }
        ensures values { values self.new ≡ brought (fixed self.old) address seat position (values self.old) };

    // Sets the address to the work rule's value for the kind, the access number and the first n positions of the seat.
    // Beyond the meaning it changes nothing.
    fn put(&mut self, kind: u32, access: u8, n: u8, seat: u16, address: u64)
        ensures fixed { fixed self.new ≡ fixed self.old }
        ensures values { values self.new ≡ stored (fixed self.old) kind access n seat address (values self.old) };
}

// A host whose values can be looked at.
pub trait ReadBack: Host {
    // The value at an address that is held.
    fn value_at(&self, address: u64) -> Option<Self::Value>
        ensures { result ≡ (if (Self.Host.fixed self.now).held address then Some ((Self.Host.values self.now).at address) else None) };

    // The value held aside for a seat and a position of the table.
    fn aside_at(&self, seat: u16, position: u8) -> Option<Self::Value>
        ensures { result ≡ (if nat_lt seat seats && nat_lt position positions then Some ((Self.Host.values self.now).aside seat position) else None) };
}
