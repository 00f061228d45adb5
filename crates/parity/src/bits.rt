ghost use Rattle.std.specs.Prelude.{◌≡◌, ◌≤◌, pos, ◌*ℤ◌};
ghost use Rattle.signs.specs.Family.{value};
ghost use Rattle.parity.specs.Parity.{sign_by, bch3_ones};

use signs::Sign;

// The ones of the seed's lowest bit and of the bits that its others share with the slot.
pub(crate) fn bch3_ones(seed: u64, slot: u32) -> u32
    ensures is { result ≡ bch3_ones seed slot }
    ensures few { result ≤ 33 }
{
    (seed % 2) as u32 + ((seed / 2) & u64::from(slot)).count_ones()
}

// Plus for an even number of ones.
pub(crate) fn sign_by(ones: u32) -> Sign
    ensures { result ≡ sign_by ones }
{
    if ones % 2 == 0 {
        Sign::Plus
    } else {
        Sign::Minus
    }
}

// A number under a sign.
pub(crate) fn signed(size: u32, sign: Sign) -> i64
    ensures { result ≡ pos size *ℤ value sign }
{
    i64::from(size) * i64::from(sign)
}
