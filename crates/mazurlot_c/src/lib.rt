// The static library that C links: the functions of `mazurlot` under the names that include/mazurlot.h declares, with the same clauses.
#![tactic(auto)]

ghost use Rattle.std.specs.Prelude.{[], ◌≡◌};
ghost use Rattle.moment.specs.declared.Request.TheVariants as request;
ghost use Rattle.mazurlot.specs.Calls.{call, start_call, feed_call, finish_call, whole_call, lookup_call, resolve_call};

#[unsafe(no_mangle)]
pub extern "C" fn mazurlot_start(brand: u32, state: &mut [u64]) -> u64
    ensures { call result [] state.new [] [] ≡ start_call brand state.old }
{
    mazurlot::mazurlot_start(brand, state)
}

#[unsafe(no_mangle)]
pub extern "C" fn mazurlot_feed(
    piece: &[u8],
    state: &mut [u64],
    work: &mut [u8],
    table: &mut [u64],
    answer: &mut [u64],
) -> u64
    ensures { call result answer.new state.new work.new table.new
        ≡ feed_call piece.now state.old work.old table.old answer.old }
{
    mazurlot::mazurlot_feed(piece, state, work, table, answer)
}

#[unsafe(no_mangle)]
pub extern "C" fn mazurlot_finish(state: &mut [u64], answer: &mut [u64]) -> u64
    ensures { call result answer.new state.new [] [] ≡ finish_call state.old answer.old }
{
    mazurlot::mazurlot_finish(state, answer)
}

#[unsafe(no_mangle)]
pub extern "C" fn mazurlot_whole(
    brand: u32,
    segment: &[u8],
    state: &mut [u64],
    work: &mut [u8],
    table: &mut [u64],
    answer: &mut [u64],
) -> u64
    ensures { call result answer.new state.new work.new table.new
        ≡ whole_call brand segment.now state.old work.old table.old answer.old }
{
    mazurlot::mazurlot_whole(brand, segment, state, work, table, answer)
}

#[unsafe(no_mangle)]
pub extern "C" fn mazurlot_lookup_ticks(
    ticks: u64,
    state: &[u64],
    table: &[u64],
    answer: &mut [u64],
) -> u64
    ensures { call result answer.new [] [] [] ≡ lookup_call (request.Ticks ticks) state.now table.now answer.old }
{
    mazurlot::mazurlot_lookup_ticks(ticks, state, table, answer)
}

#[unsafe(no_mangle)]
pub extern "C" fn mazurlot_lookup_seconds(
    seconds: f64,
    state: &[u64],
    table: &[u64],
    answer: &mut [u64],
) -> u64
    ensures { call result answer.new [] [] [] ≡ lookup_call (request.Seconds seconds) state.now table.now answer.old }
{
    mazurlot::mazurlot_lookup_seconds(seconds, state, table, answer)
}

#[unsafe(no_mangle)]
pub extern "C" fn mazurlot_resolve(
    page: u32,
    seconds: f64,
    state: &[u64],
    table: &[u64],
    answer: &mut [u64],
) -> u64
    ensures { call result answer.new [] [] []
        ≡ resolve_call (record { page = page; seconds = seconds }) state.now table.now answer.old }
{
    mazurlot::mazurlot_resolve(page, seconds, state, table, answer)
}
