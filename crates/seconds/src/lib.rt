// The whole ticks of the time that is asked for; those of seconds are worked out exactly, from the double's bits. Only whole ticks matter
// to a lookup, since a leaf starts and ends at a tick.
#![tactic(auto)]

ghost use Rattle.std.specs.Prelude.{◌≡◌, ◌*◌, ◌/◌, ◌^◌, ◌<◌};
ghost use Rattle.moment.specs.Moments.{seconds_at, moment_of};
ghost use Rattle.seconds.specs.Ticks.{Splits, ticks_at, ticks_of};

use moment::Request;

// A value is digits * 2^power / 2^1074 seconds.
#[derive(Clone, Copy)]
struct Parts {
    digits: u64,
    power: u64,
}

// Whole ticks: so many; 2^64 and so many; 2^65 or more, which no record reaches.
#[derive(Clone, Copy)]
pub enum Ticks {
    At(u64),
    Beyond(u64),
    Past,
}

// What one more in the exponent adds to the bits.
const EXPONENT: u64 = 4503599627370496;

// The leading digit, which stands before a fraction of 52 digits and not among the bits.
const LEADING: u64 = 4503599627370496;

// The bits of infinity: above it stand the not-a-numbers and all that has a sign.
const INFINITE: u64 = 9218868437227405312;

// The bits of negative zero.
const NEGATIVE_ZERO: u64 = 9223372036854775808;

// From the next power on, the lowest digit of a value is 2^13 seconds and its leading one 2^65, which is past all records.
const MOST_POWER: u64 = 1086;

// Numbers of 64 bits are below this.
const FULL: u128 = 18446744073709551616;

// Exponent and fraction; none of what is no time. A not-a-number is told before its bits are asked for, since it may have any of several.
fn parts_of(x: f64) -> Option<Parts>
    ensures { Splits x result }
{
    if x != x {
        return None;
    }
    let bits: u64 = f64::to_bits(x);
    if bits == NEGATIVE_ZERO {
        return Some(Parts {
            digits: 0,
            power: 0,
        });
    }
    if INFINITE <= bits {
        return None;
    }
    let exponent = bits / EXPONENT;
    let fraction = bits % EXPONENT;
    if exponent == 0 {
        return Some(Parts {
            digits: fraction,
            power: 0,
        });
    }
    Some(Parts {
        digits: LEADING + fraction,
        power: exponent - 1,
    })
}

// digits * scale * 2^12, of up to 97 bits. The highest power that is not past all records makes the lowest digit 2^12 seconds: with so much
// put in at once, any other power is a shift to the right.
fn product(digits: u64, scale: u64) -> u128
    requires digits_fit { digits < 2 ^ 53 }
    requires scale_fits { scale < 2 ^ 32 }
    ensures { result ≡ digits * scale * 4096 }
{
    digits as u128 * scale as u128 * 4096
}

// Halved k times, without the fraction.
fn lowered(n: u128, k: u64) -> u128
    ensures { result ≡ n / 2 ^ k }
{
    if 128 <= k { 0 } else { n >> k }
}

// As many ticks as a lookup tells apart.
fn ticks_at(n: u128) -> Ticks
    ensures { result ≡ ticks_at n }
{
    if n < FULL {
        Ticks::At(n as u64)
    } else if n < 2 * FULL {
        Ticks::Beyond((n - FULL) as u64)
    } else {
        Ticks::Past
    }
}

// The whole ticks of x seconds; none where they are no time.
fn whole_ticks(x: f64, scale: u64) -> Option<Ticks>
    requires scaled { 0 < scale }
    requires scale_fits { scale < 2 ^ 32 }
    ensures { result ≡ ticks_of (seconds_at x scale) }
{
    let Parts { digits, power } = parts_of(x)?;
    if MOST_POWER < power {
        return Some(Ticks::Past);
    }
    Some(ticks_at(lowered(product(digits, scale), MOST_POWER - power)))
}

// The whole ticks of a request; none where its seconds are no time.
pub fn ticks_asked(request: Request, scale: u64) -> Option<Ticks>
    requires scaled { 0 < scale }
    requires scale_fits { scale < 2 ^ 32 }
    ensures { result ≡ ticks_of (moment_of request scale) }
{
    match request {
        Request::Ticks(t) => Some(Ticks::At(t)),
        Request::Seconds(x) => whole_ticks(x, scale),
    }
}
