// A time that is asked for: in ticks of the index's timescale, or in seconds.
#![tactic(auto)]

#[derive(Clone, Copy)]
pub enum Request {
    Ticks(u64),
    Seconds(f64),
}
