// Marks in the margin of a course book, resolved to the leaf that covers the time they name.
#![tactic(auto)]

ghost use Rattle.std.specs.Prelude.{◌≡◌};
ghost use Rattle.marks.specs.Marks.{resolve_of};

use covering::Leaf;
use lookup::lookup;
use machine::Refusal;
use moment::Request;
use state::State;

// A mark: the page that it stands on, and the time in the film that it names, in seconds.
#[derive(Clone, Copy)]
pub struct Mark {
    pub page: u32,
    pub seconds: f64,
}

// A mark's page, and what a lookup of its seconds answers.
#[derive(Clone, Copy)]
pub struct Resolved {
    pub page: u32,
    pub answer: Result<Leaf, Refusal>,
}

// The page comes back with a refusal too, so that the player knows which mark has none.
pub fn resolve(s: State, table: &[u64], mark: Mark) -> Resolved
    ensures { result ≡ resolve_of s table.now mark }
{
    let answer = lookup(s, table, Request::Seconds(mark.seconds));
    Resolved {
        page: mark.page,
        answer,
    }
}
