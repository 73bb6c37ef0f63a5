// A reading before its first byte.
#![tactic(auto)]

ghost use Rattle.std.specs.Prelude.{◌≡◌};
ghost use Rattle.basics.specs.Bytes.{number};
ghost use Rattle.state.specs.Calls.{start_of};

use fields::word_at;
use machine::{BoxesSo, Head};
use state::{Stage, State};

// Start never refuses.
pub fn start(brand: [u8; 4]) -> State
    ensures { result ≡ start_of (number brand) }
{
    let spelled = word_at(&brand, 0);
    State::Reading {
        count: 0,
        leaves: 0,
        now: 0,
        last: 0,
        stage: Stage::Opening {
            brand: spelled,
            boxes: BoxesSo::Head(false, Head::First),
        },
    }
}
