// Makes the calls that standard input asks for, and writes of each what it answered and what it changed: docs/BATCH.md says the form.
#![tactic(auto)]

use crate::input::{Command, Input};
use crate::lending::{Buffers, Lent, Piece};
use crate::output::Output;
use pack::STATE_NUMBERS;
use std::io::Read;

mod calls;
mod changes;
mod input;
mod lending;
mod output;

// A proved loop has to end, and nothing says that the input does: so the turns are counted down.
const TURNS: u64 = 1000000000000;

// The bytes of the work area that is lent at first.
const WORK_BYTES: usize = 49152;

// What is written of a call: the answer, the state, and what is not as it was.
fn put_answer<P: Print>(said: [u64; 9], lent: &mut Buffers, out: &mut Output<'_, P>) {
    u64::put_all(&said, out);
    let numbers = lent.state.lent();
    out.put_number(numbers.len() as u64);
    u64::put_all(numbers, out);
    lent.work.put_changes(out);
    lent.table.put_changes(out);
    out.write_out();
}

// One command. What is not of the form ends the program, as the input's end does.
fn serve<R: Read + Drop, P: Print>(
    input: &mut Input<R>,
    lent: &mut Buffers,
    out: &mut Output<'_, P>,
) -> Option<()> {
    let command = input.read_command()?;
    let part = input.part();
    match command {
        Command::Make(call, _) => {
            let said = call.make(part, lent);
            put_answer(said, lent, out);
            Some(())
        }
        Command::LendState(count) => {
            lent.state.lend(count, 0)?;
            lent.state.write(0, count, part)
        }
        Command::LendWork(count, each) => lent.work.lend(count, each),
        Command::LendTable(count, each) => lent.table.lend(count, each),
        Command::WriteWork(at, count) => lent.work.write(at, count, part),
        Command::WriteTable(at, count) => lent.table.write(at, count, part),
    }
}

// At first a state of zeros, which is none, a work area of zeros and an empty table are lent.
fn main(rt: HostRuntime) {
    let mut input = Input::new(rt.stdin());
    let mut out = Output::new(&rt);
    let mut lent = Buffers {
        state: Lent::new(STATE_NUMBERS, 0),
        work: Lent::new(WORK_BYTES, 0),
        table: Lent::new(0, 0),
    };
    for _ in 0..TURNS {
        if serve(&mut input, &mut lent, &mut out).is_none() {
            return;
        }
    }
}
