// An index box byte by byte, the top one or an inner one: its numbers, then its entries, each byte of which is stored as read.
#![tactic(auto, unfolding(
// the first fault of a list
basics::specs::Choose::pick, machine::specs::Faults::shows, machine::specs::Faults::lowest, machine::specs::Faults::unless,
// where an entry's bytes are stored
state::specs::Sidx::part_of, state::specs::Sidx::word_place,
// the numbers of an index
state::specs::Ranges::index_most, state::specs::Sidx::wide_more, state::specs::Sidx::field_ends, state::specs::Sidx::entry_ends, state::specs::Sidx::close_sidx,
// the faults at the end of each
state::specs::Sidx::sidx_version_faults, state::specs::Sidx::id_faults, state::specs::Sidx::scale_faults, state::specs::Sidx::time_faults,
// and those of the last ones
state::specs::Sidx::offset_faults, state::specs::Sidx::count_faults, state::specs::Sidx::sum_faults))]

ghost use Rattle.std.specs.Prelude.{◌≡◌, List, ◌&&◌, ◌||◌, not, ℕ, suc, ◌+◌, ◌<◌, ◌≤◌, ◌*◌, ◌^◌, eqb, ltb, leb, length};
ghost use Rattle.segment.specs.Constants.{limit, time_limit, type_bit, most_entries};
ghost use Rattle.machine.specs.Faults.{refusal};
ghost use Rattle.state.specs.Flow.{Flow, work_bytes};
ghost use Rattle.state.specs.Views.{view};
ghost use Rattle.state.specs.Sidx.{Place, part_of, wide_more, sum_faults, close_sidx, field_ends, entry_ends, word_place, byte_place, sidx_start, step_sidx};
ghost use Rattle.state.specs.Ranges.{Within, sidx_bounds, index_most, word_limit};
ghost use Rattle.state.specs.Calls.{flow_of};
ghost use Rattle.index.specs.Views.{place_of, refusal_index, shown_by, Shallow, Timely, Summed};

use machine::{Refusal, Step};
use state::{
    Draft, ENTRY_BYTES, EntryPart, IndexPart, IndexRead, LAST_TIME, LEVEL_BYTES, LIMIT,
    MOST_ENTRIES, Sidx, Slot, Span, Sums, TYPE_BIT, Top,
};

// Where an index stands: on top, or under an entry, with so many indexes open around it. An Option would call the top index `None`.
#[derive(Clone, Copy)]
pub enum Where {
    Topmost,
    Under(Top, Slot, u64),
}

// What a byte of an index makes of it: it goes on, or it is read.
type Answer = Result<Step<Sidx, IndexRead>, Refusal>;

// The refusal that goes out where a byte of an index was not taken; of a byte that was taken there is none.
pub fn refused_index(r: Answer) -> Refusal
    ensures { result ≡ refusal_index r }
{
    match r {
        Ok(_) => Refusal {
            number: 0,
            place: 0,
        },
        Err(x) => x,
    }
}

// Where a number of an index ends: the index's place, its box, the time at which the next entry starts, and the count of bytes up to there, which
// is within the limit.
#[derive(Clone, Copy)]
struct Here {
    p: Where,
    span: Span,
    at: u64,
    n: u64,
    ghost within: { n ≤ limit },
}

// None of an index read.
const UNREAD: Draft = Draft {
    wide: false,
    id: 0,
    scale: 0,
    time: 0,
    offset: 0,
};

// A number before the entries goes on, or the next one begins.
fn field(part: IndexPart, draft: Draft, more: u64, acc: u64) -> Answer
    ensures { result ≡ Ok (Step.Going (Sidx.Field part draft more acc)) }
{
    Ok(Step::Going(Sidx::Field {
        part,
        draft,
        more,
        acc,
    }))
}

// A number of an entry goes on, or the next one begins.
fn entry(part: EntryPart, draft: Draft, sums: Sums, more: u64, acc: u64) -> Answer
    ensures { result ≡ Ok (Step.Going (Sidx.Entry part draft sums more acc)) }
{
    Ok(Step::Going(Sidx::Entry {
        part,
        draft,
        sums,
        more,
        acc,
    }))
}

// A version of 64-bit numbers in a box too short for them; the version byte is the n-th.
pub fn too_short(end: u64, v: u64, n: u64) -> bool
    requires { n ≤ limit + 1 }
    ensures { result ≡ (eqb v 1 && ltb end (n + 31)) }
{
    v == 1 && end < n + 31
}

pub fn no_count(v: u64) -> bool
    ensures { result ≡ (eqb v 0 || ltb most_entries v) }
{
    v == 0 || MOST_ENTRIES < v
}

// A number of 32 bits in version 0, of 64 in version 1: so many bytes follow its first.
fn wide_more(wide: bool) -> u64
    ensures { result ≡ wide_more wide }
{
    if wide { 7 } else { 3 }
}

// The material ends past the last byte that a segment has, or start plus durations is no time; the index ends with the n-th byte.
#[tactic(auto, using(crate::proofs::Numbers::past_time))]
fn too_much(x: IndexRead, n: u64) -> bool
    requires { n ≤ limit }
    ensures { result ≡ (ltb limit (n + x.offset + x.sizes) || leb time_limit (x.time + x.durations)) }
{
    let room = LIMIT - n;
    room < x.offset || room - x.offset < x.sizes || LAST_TIME - x.time < x.durations
}

// The sums of an inner index are not what its entry says.
#[tactic(auto, using(crate::proofs::Numbers::until_same))]
fn other_sums(slot: Slot, x: IndexRead, at: u64, n: u64) -> bool
    requires { (at ≤ slot.until) × (x.sizes ≤ type_bit * most_entries) × (n ≤ limit) }
    ensures { result ≡ not (eqb (n + x.sizes) slot.end && eqb (at + x.durations) slot.until) }
{
    n + x.sizes != slot.end || slot.until - at != x.durations
}

// The number that the sums of an index's entries show: 14 on top, 12 under an entry; the index ends with the n-th byte.
pub fn sums_flaw(p: Where, x: IndexRead, at: u64, n: u64) -> Option<u64>
    requires { Timely p at × (x.sizes ≤ type_bit * most_entries) × (n ≤ limit) }
    ensures { (span : Span) → sum_faults (place_of p) span x at n ≡ shown_by result span.pos }
{
    match p {
        Where::Topmost => too_much(x, n).then_some(14),
        Where::Under(_, slot, _) => other_sums(slot, x, at, n).then_some(12),
    }
}

// What follows a number of an index. Where a byte may show several faults, the lowest number is tested first.
impl Here {
    // A fault with this number, at the box's first byte.
    fn fault(self, number: u64) -> Refusal
        ensures { result ≡ refusal number self.span.pos }
    {
        Refusal {
            number,
            place: self.span.pos,
        }
    }

    fn version_end(self, v: u64) -> Answer
        ensures { (d : Draft) (f : Flow) → view f result ≡ field_ends (place_of self.p) self.span IndexPart.Version d v f self.n }
    {
        if too_short(self.span.end, v, self.n) {
            return Err(self.fault(6));
        }
        if 1 < v {
            return Err(self.fault(10));
        }
        field(
            IndexPart::Flags,
            Draft {
                wide: v == 1,
                ..UNREAD
            },
            2,
            0,
        )
    }

    // An inner index has its parent's reference ID.
    fn id_end(self, draft: Draft, v: u64) -> Answer
        ensures { (f : Flow) → view f result ≡ field_ends (place_of self.p) self.span IndexPart.Id draft v f self.n }
    {
        match self.p {
            Where::Under(top, _, _) if v != top.id => Err(self.fault(12)),
            _ => field(
                IndexPart::Scale,
                Draft {
                    wide: draft.wide,
                    id: v,
                    ..UNREAD
                },
                3,
                0,
            ),
        }
    }

    // A timescale is not 0, and an inner index has its parent's.
    fn scale_end(self, draft: Draft, v: u64) -> Answer
        ensures { (f : Flow) → view f result ≡ field_ends (place_of self.p) self.span IndexPart.Scale draft v f self.n }
    {
        match self.p {
            _ if v == 0 => Err(self.fault(11)),
            Where::Under(top, _, _) if v != top.scale => Err(self.fault(12)),
            _ => field(
                IndexPart::Time,
                Draft {
                    scale: v,
                    time: 0,
                    offset: 0,
                    ..draft
                },
                wide_more(draft.wide),
                0,
            ),
        }
    }

    // An inner index starts when its entry does.
    fn time_end(self, draft: Draft, v: u64) -> Answer
        ensures { (leaves last : ℕ) (work table : List ℕ) →
            view (flow_of leaves self.at last work table) result
            ≡ field_ends (place_of self.p) self.span IndexPart.Time draft v (flow_of leaves self.at last work table) self.n }
    {
        match self.p {
            Where::Under(_, _, _) if v != self.at => Err(self.fault(12)),
            _ => field(
                IndexPart::Offset,
                Draft {
                    time: v,
                    offset: 0,
                    ..draft
                },
                wide_more(draft.wide),
                0,
            ),
        }
    }

    // The first offset of an inner index is 0.
    fn offset_end(self, draft: Draft, v: u64) -> Answer
        ensures { (f : Flow) → view f result ≡ field_ends (place_of self.p) self.span IndexPart.Offset draft v f self.n }
    {
        match self.p {
            Where::Under(_, _, _) if v != 0 => Err(self.fault(12)),
            _ => field(IndexPart::Reserved, Draft { offset: v, ..draft }, 1, 0),
        }
    }

    // The entries end the box.
    fn count_end(self, draft: Draft, v: u64) -> Answer
        requires { v < 65536 }
        ensures { (f : Flow) → view f result ≡ field_ends (place_of self.p) self.span IndexPart.Count draft v f self.n }
    {
        if self.span.end != self.n + ENTRY_BYTES * v {
            return Err(self.fault(6));
        }
        if no_count(v) {
            return Err(self.fault(11));
        }
        let sums = Sums {
            next: 0,
            count: v,
            sizes: 0,
            durations: 0,
        };
        entry(EntryPart::Size, draft, sums, 3, 0)
    }

    // A number before the entries is read.
    fn field_end(self, part: IndexPart, draft: Draft, v: u64) -> Answer
        requires { v < 256 ^ suc (index_most part draft.wide) }
        ensures { (leaves last : ℕ) (work table : List ℕ) →
            view (flow_of leaves self.at last work table) result
            ≡ field_ends (place_of self.p) self.span part draft v (flow_of leaves self.at last work table) self.n }
    {
        match part {
            IndexPart::Version => self.version_end(v),
            IndexPart::Flags => field(IndexPart::Id, draft, 3, 0),
            IndexPart::Id => self.id_end(draft, v),
            IndexPart::Scale => self.scale_end(draft, v),
            IndexPart::Time => self.time_end(draft, v),
            IndexPart::Offset => self.offset_end(draft, v),
            IndexPart::Reserved => field(IndexPart::Count, draft, 1, 0),
            IndexPart::Count => self.count_end(draft, v),
        }
    }

    // The entries are read.
    fn close(self, x: IndexRead) -> Answer
        requires { Timely self.p self.at × (x.sizes ≤ type_bit * most_entries) }
        ensures { (leaves last : ℕ) (work table : List ℕ) →
            view (flow_of leaves self.at last work table) result
            ≡ close_sidx (place_of self.p) self.span x (flow_of leaves self.at last work table) self.n }
    {
        match sums_flaw(self.p, x, self.at, self.n) {
            Some(number) => Err(self.fault(number)),
            None => Ok(Step::Done(x)),
        }
    }

    // The size of an entry is not 0, and is under its type's bit.
    fn size_end(self, draft: Draft, sums: Sums, v: u64) -> Answer
        requires { Summed sums }
        ensures { (f : Flow) → view f result ≡ entry_ends (place_of self.p) self.span EntryPart.Size draft sums v f self.n }
    {
        let size = v % TYPE_BIT;
        if size == 0 {
            return Err(self.fault(11)); // an entry of size 0
        }
        let sums = Sums {
            sizes: sums.sizes + size,
            ..sums
        };
        entry(EntryPart::Duration, draft, sums, 3, 0)
    }

    // An entry is read: the next one begins, or the index is over.
    fn sap_end(self, draft: Draft, sums: Sums) -> Answer
        requires { Timely self.p self.at × Summed sums }
        ensures { (leaves last : ℕ) (work table : List ℕ) (v : ℕ) →
            view (flow_of leaves self.at last work table) result
            ≡ entry_ends (place_of self.p) self.span EntryPart.Sap draft sums v (flow_of leaves self.at last work table) self.n }
    {
        let sums = Sums {
            next: sums.next + 1,
            ..sums
        };
        if sums.next != sums.count {
            return entry(EntryPart::Size, draft, sums, 3, 0);
        }
        self.close(IndexRead {
            id: draft.id,
            scale: draft.scale,
            time: draft.time,
            offset: draft.offset,
            count: sums.count,
            sizes: sums.sizes,
            durations: sums.durations,
        })
    }

    // A number of an entry is read.
    fn entry_end(self, part: EntryPart, draft: Draft, sums: Sums, v: u64) -> Answer
        requires { Timely self.p self.at × Summed sums × (v < word_limit) }
        ensures { (leaves last : ℕ) (work table : List ℕ) →
            view (flow_of leaves self.at last work table) result
            ≡ entry_ends (place_of self.p) self.span part draft sums v (flow_of leaves self.at last work table) self.n }
    {
        match part {
            EntryPart::Size => self.size_end(draft, sums, v),
            EntryPart::Duration => {
                let sums = Sums {
                    durations: sums.durations + v,
                    ..sums
                };
                entry(EntryPart::Sap, draft, sums, 3, 0)
            }
            EntryPart::Sap => self.sap_end(draft, sums),
        }
    }
}

// Where an index's level has its part of the work area.
fn part_of(p: Where) -> u64
    requires { Shallow p }
    ensures { result ≡ part_of (place_of p) }
{
    match p {
        Where::Topmost => 0,
        Where::Under(_, _, depth) => LEVEL_BYTES * depth,
    }
}

// Where a number has its place in an entry.
fn word_place(part: EntryPart) -> u64
    ensures { result ≡ word_place part }
{
    match part {
        EntryPart::Size => 0,
        EntryPart::Duration => 4,
        EntryPart::Sap => 8,
    }
}

// Where a byte of an entry is stored: in its level's part, its entry, its number.
pub fn byte_place(p: Where, part: EntryPart, sums: Sums, more: u64) -> u64
    requires { Shallow p × Summed sums × (more ≤ 3) }
    ensures { result ≡ byte_place (place_of p) part sums more }
{
    part_of(p) + ENTRY_BYTES * sums.next + word_place(part) + (3 - more)
}

// An index none of whose body is read: its version comes first.
pub fn index_begin() -> Sidx
    ensures { result ≡ sidx_start }
{
    Sidx::Field {
        part: IndexPart::Version,
        draft: UNREAD,
        more: 0,
        acc: 0,
    }
}

// One byte of an index's body: `n` bytes were read before it, and the next entry starts at the time `at`.
pub fn index_byte(
    p: Where,
    span: Span,
    s: Sidx,
    at: u64,
    n: u64,
    b: u8,
    work: &mut [u8],
) -> Result<Step<Sidx, IndexRead>, Refusal>
    requires { Shallow p × Timely p at × Within (sidx_bounds s) × (n < limit) × (work_bytes ≤ length work.old) }
    ensures { (leaves last : ℕ) (table : List ℕ) →
        view (flow_of leaves at last work.new table) result ≡ step_sidx (place_of p) span s (flow_of leaves at last work.old table) n b }
{
    let here = Here {
        p,
        span,
        at,
        n: n + 1,
    };
    match s {
        Sidx::Field {
            part,
            draft,
            more,
            acc,
        } => {
            let v = header::spelled(acc, b);
            if more == 0 {
                return here.field_end(part, draft, v);
            }
            field(part, draft, more - 1, v)
        }
        Sidx::Entry {
            part,
            draft,
            sums,
            more,
            acc,
        } => {
            let i = byte_place(p, part, sums, more) as usize;
            work[i] = b;
            let v = header::spelled(acc, b);
            if more == 0 {
                return here.entry_end(part, draft, sums, v);
            }
            entry(part, draft, sums, more - 1, v)
        }
    }
}
