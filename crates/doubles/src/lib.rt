// A double from its bits, for programs that are given bits.
#![tactic(auto)]

ghost use Rattle.std.specs.Prelude.{◌≡◌};
ghost use Rattle.std.specs.Float.{nan, binary64};
ghost use Rattle.std.specs.Float.Ieee.{of_bits};

// The bits of infinity: above it stand the not-a-numbers.
const INFINITE: u64 = 9218868437227405312;

// What a sign adds to the bits.
const SIGN: u64 = 9223372036854775808;

// The language has one not-a-number, without sign or bits: it is made by arithmetic. The two that are made have opposite signs in the
// machine; which has which is open.
fn not_a_number(opposite: bool) -> f64
    ensures { result ≡ nan }
{
    let none: f64 = 0.0 / 0.0;
    if opposite { -none } else { none }
}

// Of a not-a-number's bits none are kept: no answer hangs on them.
pub fn double_of(bits: u64) -> f64
    ensures { result ≡ of_bits binary64 bits }
{
    if INFINITE < bits % SIGN {
        return not_a_number(SIGN <= bits);
    }
    f64::from_bits(bits)
}
