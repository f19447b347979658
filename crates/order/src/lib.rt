// Steps of several tasks in any order in which a task's steps come after those of each earlier task that it conflicts with.
#![tactic(auto)]

ghost use Rattle.std.specs.Prelude.{◌≡◌, true};
ghost use Rattle.order.specs.Order.{AnyOrderIsSerial};

use host::Host;

// On every host, whatever such an order reaches agrees with the one-at-a-time run.
pub fn any_order_is_serial<H: Host>() -> bool
    ensures law { AnyOrderIsSerial H.Value }
    ensures value { result ≡ true }
{
    true
}
