// Where the script is read, and the commands of the memory on the way.
ghost use Rattle.std.specs.Prelude.{◌≡◌, ◌≤◌, length};
ghost use Rattle.drill.specs.Fit.{Stands};
ghost use Rattle.drill.specs.Player.{lent_of, changed_of};

use dlx::words::wide;
use drill_script::commands::{Command, Op};
use drill_script::{commands, words};
use files::Source;

// The bytes of the longest command.
const MOST_COMMAND: usize = 16464;

// The unread bytes stand in the input from `at` to `end`; there are no more behind them where `end` is not the input's. What is at `at`, a command if it is
// right, has this offset in the script, and so many words are lent.
#[derive(Clone, Copy)]
pub struct Reading {
    pub at: usize,
    pub end: usize,
    pub offset: u64,
    pub lent: usize,
    pub command: Option<Command>,
}

// The unread bytes to the front, and more behind them. Gives how many there are.
fn refill(source: &mut Source, input: &mut [u8], at: usize, end: usize) -> usize
    requires { (at ≤ end) × (end ≤ length input.old) }
    ensures { result ≤ length input.old }
{
    let left = end - at;
    input.copy_within(at..end, 0);
    left + source.read_full(&mut input[left..])
}

// What is at `at`.
fn found(input: &[u8], at: usize, end: usize, offset: u64, lent: usize) -> Reading
    requires at_bound { at ≤ end }
    requires input_room { end ≤ length input.now }
    ensures { Stands result (length input.now) lent }
{
    let command = commands::read(&input[at..end]).ok();
    Reading {
        at,
        end,
        offset,
        lent,
        command,
    }
}

// What is behind this command.
fn next(source: &mut Source, input: &mut [u8], r: Reading, lent: usize) -> Reading
    requires { Stands r (length input.old) r.lent }
    ensures { Stands result (length input.old) lent }
{
    let size = r.command.map_or(0, |c| c.size);
    let at = r.at + size;
    let end = r.end;
    let offset = r.offset.wrapping_add(size as u64);
    if end < input.len() || end - at >= MOST_COMMAND {
        return found(input, at, end, offset, lent);
    }
    let n = refill(source, input, at, end);
    found(input, 0, n, offset, lent)
}

// A command of the memory: gives how many words are lent then.
#[tactic(auto, unfolding(crate::specs::Player::lent_of, crate::specs::Player::changed_of))]
fn changed(memory: &mut [u32], lent: usize, c: Command) -> usize
    requires { lent ≤ length memory.old }
    ensures { (result ≡ lent_of c lent (length memory.old)) × (memory.new ≡ changed_of c lent memory.old) }
{
    match c.op {
        Op::SetLength => return words::lent(c.a, memory.len()),
        Op::PokeMemory => words::fill(&mut memory[..lent], c.a, 1, c.b),
        _ => words::fill(&mut memory[..lent], c.a, c.b, c.c),
    }
    lent
}

fn changes_memory(op: Op) -> bool {
    matches!(op, Op::PokeMemory | Op::SetLength | Op::FillMemory)
}

// From the command behind this one over commands of the memory, up to another or the end.
pub fn settle(
    source: &mut Source,
    input: &mut [u8],
    memory: &mut [u32],
    before: Reading,
    lent: usize,
) -> Reading
    requires stands { Stands before (length input.old) before.lent }
    requires memory_room { lent ≤ length memory.old }
    ensures { Stands result (length input.old) result.lent × (result.lent ≤ length memory.old) }
{
    let mut r = next(source, input, before, lent);
    for _ in 0..u64::MAX {
        match r.command {
            Some(c) if changes_memory(c.op) => {
                let after = changed(memory, r.lent, c);
                r = next(source, input, r, after);
            }
            _ => return r,
        }
    }
    r
}

pub fn first(source: &mut Source, input: &mut [u8], memory: &mut [u32]) -> Reading
    ensures { Stands result (length input.old) result.lent × (result.lent ≤ length memory.old) }
{
    let before = Reading {
        at: input.len(),
        end: input.len(),
        offset: 0,
        lent: 0,
        command: None,
    };
    settle(source, input, memory, before, 0)
}
