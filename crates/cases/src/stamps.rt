// The stamps of two hosts.
ghost use Rattle.std.specs.Prelude.{◌↔◌, IsTrue};
ghost use Rattle.cases.specs.Stamps.{SameStamps};

use host::ReadBack;
use stamp_host::StampHost;

// Do two hosts hold the same stamps?
// Kept: an equality of hosts would compare what is held aside too, and a host answers its values by address alone.
pub fn same_stamps(one: &StampHost, other: &StampHost) -> bool
    ensures { IsTrue result ↔ SameStamps one.now other.now }
{
    one.len() == other.len()
        && (0..one.len() as u64).all(|address| one.value_at(address) == other.value_at(address))
}
