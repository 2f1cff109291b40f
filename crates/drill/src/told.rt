// What is told, and when it is written.
ghost use Rattle.std.specs.Prelude.{◌≡◌, List, ℕ, ◌+◌, ◌<◌, ◌≤◌, ◌++◌, length};
ghost use Rattle.decimal.specs.Decimals.{decimal};
ghost use Rattle.decimal.specs.Texts.{ascii, Puts};
ghost use Rattle.drill_script.specs.Commands.{number_of};
ghost use Rattle.house.specs.Turns.{world};
ghost use Rattle.house.specs.Refusals.{answer_of};
ghost use Rattle.house.specs.declared.House.{House};
ghost use Rattle.drill.specs.Told.{most_told, told_of, answer_told, shown_by};

use command::put_out;
use decimal::{put_byte, put_decimal, put_text};
use drill_script::commands::Op;
use drill_text::partitions::partitions;
use drill_text::queues::queues;
use drill_text::{ROOM, lines};
use house::{Answer, House};

// The text of a call that comes to this number and detail, and leaves this house.
pub fn call(
    text: &mut [u8; ROOM],
    used: usize,
    op: Op,
    number: u32,
    detail: u64,
    house: House,
    memory: &[u32],
) -> usize
    ensures { Puts text.old used text.new result (told_of (number_of op) number detail house memory.now) most_told }
{
    let called = lines::call(text, used, op.number(), number, detail);
    let housed = lines::house(text, called, house);
    let parted = partitions(text, housed, house);
    let queued = queues(text, parted, house);
    lines::memory(text, queued, memory)
}

// The text of an answer of a call that was given this house.
pub fn answer(
    text: &mut [u8; ROOM],
    used: usize,
    op: Op,
    given: House,
    answer: Answer,
    memory: &[u32],
) -> usize
    ensures { Puts text.old used text.new result (answer_told (number_of op) (answer_of given answer memory.now) memory.now) most_told }
{
    match answer {
        Ok(done) => call(text, used, op, 0, done.detail, done.house, memory),
        Err(refusal) => {
            let number = refusal.number();
            call(text, used, op, number, refusal.detail(), given, memory)
        }
    }
}

// The house that it leaves.
pub fn left(given: House, answer: Answer) -> House
    ensures { (m : List ℕ) → world result m ≡ (answer_of given answer m).world }
{
    match answer {
        Ok(done) => done.house,
        Err(_) => given,
    }
}

// How many words are shown of the output of a read-out.
#[tactic(auto, unfolding(crate::specs::Told::shown_of))]
pub fn shown(answer: Answer) -> usize
    ensures { (given : House) (m : List ℕ) → result ≡ shown_by (answer_of given answer m).verdict }
{
    match answer {
        Ok(done) if done.detail <= 8 => done.detail as usize,
        _ => 0,
    }
}

// Writes the text.
fn written(rt: &HostRuntime, text: &[u8], used: usize)
    requires { used ≤ length text.now }
{
    put_out(rt, &text[..used]);
}

// Writes the text where there is much of it. Gives how much is left.
pub fn flushed(rt: &HostRuntime, text: &[u8], used: usize) -> usize
    requires { used ≤ length text.now }
    ensures { result < 65536 }
{
    if used < 65536 {
        return used;
    }
    written(rt, text, used);
    0
}

// The text of a wrong command.
fn wrong(text: &mut [u8; ROOM], used: usize, offset: u64) -> usize
    ensures { Puts text.old used text.new result (ascii "wrong command at " ++ (decimal offset ++ ascii "\n")) 38 }
{
    let named = put_text(text, used, b"wrong command at ");
    let told = put_decimal(text, named, offset);
    put_byte(text, told, b'\n')
}

// The end of the script, or a wrong command.
pub fn finish(
    rt: &HostRuntime,
    text: &mut [u8; ROOM],
    used: usize,
    at: usize,
    end: usize,
    offset: u64,
)
    requires { used + 38 ≤ 524288 }
{
    if at == end {
        written(rt, text, used);
        return;
    }
    let told = wrong(text, used, offset);
    written(rt, text, told);
}
