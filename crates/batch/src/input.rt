// Commands from standard input.
ghost use Rattle.std.specs.Prelude.{◌≡◌, ◌≤◌, IfSome, take};
ghost use Rattle.batch.specs.Behind.{bytes_behind, bytes_of_numbers};

use crate::calls::Call;
use crate::lending::{MOST_STATE, MOST_TABLE};
use doubles::double_of;
use std::io::Read;

// A command's three numbers.
const HEAD_BYTES: usize = 24;

// The most bytes that follow a command.
const MOST_PART: usize = 524288;

// What a command asks for.
#[derive(Clone, Copy)]
pub enum Command {
    // A call, and how many bytes follow it.
    Make(Call, usize),
    // So many numbers or bytes lent from now on; what each of them is.
    LendState(usize),
    LendWork(usize, u8),
    LendTable(usize, u64),
    // From a place on, so many bytes or numbers written.
    WriteWork(usize, usize),
    WriteTable(usize, usize),
}

impl Command {
    // The command of a kind; none where there is no such kind.
    fn of_kind(kind: u64, a: u64, b: u64) -> Option<Command> {
        let (n, count) = (a as usize, b as usize);
        Some(match kind {
            1 => Command::Make(Call::Start(low(a)), 0),
            2 => Command::Make(Call::Feed, n),
            3 => Command::Make(Call::Finish, 0),
            4 => Command::Make(Call::Whole(low(a)), count),
            5 => Command::Make(Call::Ticks(a), 0),
            6 => Command::Make(Call::Seconds(double_of(a)), 0),
            7 => Command::Make(Call::Mark(double_of(a), low(b)), 0),
            11 => Command::LendState(n),
            12 => Command::LendWork(n, (b % 256) as u8),
            13 => Command::LendTable(n, b),
            14 => Command::WriteWork(n, count),
            15 => Command::WriteTable(n, count),
            _ => return None,
        })
    }

    // How many bytes follow; none where more are asked for than there can be.
    fn bytes_behind(self) -> Option<usize>
        ensures { result ≡ bytes_behind self }
    {
        match self {
            Command::Make(_, bytes) => Some(bytes),
            Command::LendState(count) => bytes_of_numbers(count, MOST_STATE),
            Command::LendWork(..) | Command::LendTable(..) => Some(0),
            Command::WriteWork(_, count) => Some(count),
            Command::WriteTable(_, count) => bytes_of_numbers(count, MOST_TABLE),
        }
    }
}

// Of a brand and of a page the lower 32 bits count.
fn low(n: u64) -> u32 {
    (n % 4294967296) as u32
}

fn bytes_of_numbers(n: usize, most: usize) -> Option<usize>
    requires { most ≤ 32768 }
    ensures { result ≡ bytes_of_numbers n most }
{
    if n <= most { Some(8 * n) } else { None }
}

// Where the commands come from, and the bytes that followed the last one: a buffer with a count, as no crate here takes memory from a
// heap.
#[derive(Drop)]
pub struct Input<R> {
    from: R,
    pub part: [u8; MOST_PART],
    pub count: usize,
    ghost inside: { count ≤ 524288 },
}

impl<R: Read + Drop> Input<R> {
    pub fn new(from: R) -> Self
        ensures { result.count ≡ 0 }
    {
        Input {
            from,
            part: [0; MOST_PART],
            count: 0,
        }
    }

    // The next command; none where the input ends, can't be read or is not of the form.
    pub fn read_command(&mut self) -> Option<Command>
        ensures { IfSome result (λ c. bytes_behind c ≡ Some self.new.count) }
    {
        let mut head = [0; HEAD_BYTES];
        self.from.read_exact(&mut head).ok()?;
        let command = command_of(&head)?;
        let count = command.bytes_behind()?;
        let part = self.part.get_mut(..count)?;
        self.from.read_exact(part).ok()?;
        self.count = count;
        Some(command)
    }

    // The bytes that followed it.
    pub fn part(&self) -> &[u8]
        ensures { result.now ≡ take self.now.count self.now.part }
    {
        &self.part[..self.count]
    }
}

fn command_of(head: &[u8; HEAD_BYTES]) -> Option<Command> {
    let [kind, a, b] = head.as_chunks::<8>().0 else {
        return None;
    };
    Command::of_kind(
        u64::from_be_bytes(*kind),
        u64::from_be_bytes(*a),
        u64::from_be_bytes(*b),
    )
}
