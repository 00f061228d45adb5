ghost use Rattle.std.specs.Prelude.{◌≡◌, ◌==◌, ◌↔◌, IsTrue};
ghost use Rattle.signs.specs.Faults.{number_of};

use signs::Reason;

/// Whether two reasons are the same: what a caller knows of `==`, from the derived comparison alone.
pub fn is_same(first: Reason, second: Reason) -> bool
    ensures value { result ≡ (number_of first == number_of second) }
    ensures same { IsTrue result ↔ (first ≡ second) }
{
    first == second
}
