ghost use Rattle.std.specs.Prelude.{◌≡◌, ◌≤◌};
ghost use Rattle.signs.specs.Faults.{answer};
ghost use Rattle.model.specs.Calls.{gross_limit, mass, booking_check};

use model::Booking;
use signs::{Fault, Layer, Reason, SignFamily, check_interval};
use tables::check_limit;

// The mass of a booking.
pub(crate) fn mass_of(booking: Booking) -> u64
    requires { booking.from ≤ booking.to }
    ensures { result ≡ mass booking }
{
    u64::from(booking.weight.unsigned_abs()) * u64::from(booking.to - booking.from)
}

// Refuses a booking for its weight (12), its interval (8), or a gross that has no room for `times` its mass (13): a factor, and no choice of
// the call.
pub(crate) fn check_booking<F: SignFamily>(
    family: &F,
    times: u64,
    gross: u64,
    booking: Booking,
) -> Result<(), Fault>
    requires { (gross ≤ gross_limit) × (times ≤ 2) }
    ensures { result ≡ answer (booking_check (F.meaning family.now) times gross booking) tt }
{
    if !(1..=1000).contains(&booking.weight.unsigned_abs()) {
        return Err(Layer::Sketch.fault(Reason::Weight, 0));
    }
    check_interval(family.width(), &booking.interval())?;
    check_limit(gross + times * mass_of(booking))
}
