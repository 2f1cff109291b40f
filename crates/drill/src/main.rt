// The drill: plays a script of calls from standard input, and tells of the house after each call on standard output. It takes no words.
// The script's format is FORMAT.md of the second emulator, which plays the same scripts.
#![tactic(auto)]

mod calls;
mod reading;
mod saving;
mod told;

ghost use Rattle.std.specs.Prelude.{◌≡◌, ◌≤◌, length};
ghost use Rattle.drill.specs.Goes.{Goes};

use command::{asks_help, fail, wrong};
use drill_script::commands::{Command, Op};
use drill_text::ROOM;
use files::{Source, print};
use house::House;
use reading::Reading;
use restore::Restoring;

// The most words of memory: 257 frames, so that a partition of 256 pages fits beside frame 0.
const MOST_WORDS: usize = 263168;

// The most bytes of a save's output.
const MOST_OUTPUT: usize = 70000;

// What goes from turn to turn: a command of the house, or the end, is reached.
#[derive(Clone, Copy)]
struct State {
    house: House,
    restoring: Restoring,
    reading: Reading,
    used: usize,
}

// One of the commands that save and read back, and on to the next.
fn save_turn(
    rt: &HostRuntime,
    source: &mut Source,
    s: State,
    c: Command,
    input: &mut [u8],
    memory: &mut [u32],
    held: &mut [u8; 4106],
    output: &mut [u8],
    text: &mut [u8; ROOM],
) -> State
    requires goes { Goes s (length input.old) (length memory.old) }
    requires at_hand { s.reading.command ≡ Some c }
    requires output_room { 70000 ≤ length output.old }
    ensures { Goes result (length input.old) (length memory.old) }
{
    let used = told::flushed(rt, text, s.used);
    let here = s.reading;
    let p = saving::play(
        s.house,
        s.restoring,
        c,
        here,
        input,
        memory,
        held,
        output,
        text,
        used,
    );
    let reached = reading::settle(source, input, memory, here, here.lent);
    State {
        house: p.house,
        restoring: p.restoring,
        reading: reached,
        used: p.used,
    }
}

// One of the others.
fn call_turn(
    rt: &HostRuntime,
    source: &mut Source,
    s: State,
    c: Command,
    input: &mut [u8],
    memory: &mut [u32],
    few: &mut [u32; 16],
    many: &mut [u32; 4096],
    text: &mut [u8; ROOM],
) -> State
    requires goes { Goes s (length input.old) (length memory.old) }
    requires at_hand { s.reading.command ≡ Some c }
    ensures { Goes result (length input.old) (length memory.old) }
{
    let used = told::flushed(rt, text, s.used);
    let here = s.reading;
    let p = calls::play(s.house, c, here, input, memory, few, many, text, used);
    let reached = reading::settle(source, input, memory, here, p.lent);
    State {
        house: p.house,
        restoring: saving::cleared(c.op, s.restoring),
        reading: reached,
        used: p.used,
    }
}

// One command of the house, and on to the next.
fn turn(
    rt: &HostRuntime,
    source: &mut Source,
    s: State,
    c: Command,
    input: &mut [u8],
    memory: &mut [u32],
    few: &mut [u32; 16],
    many: &mut [u32; 4096],
    held: &mut [u8; 4106],
    output: &mut [u8; MOST_OUTPUT],
    text: &mut [u8; ROOM],
) -> State
    requires goes { Goes s (length input.old) (length memory.old) }
    requires at_hand { s.reading.command ≡ Some c }
    ensures { Goes result (length input.old) (length memory.old) }
{
    match c.op {
        Op::Save | Op::Piece | Op::Finish => {
            save_turn(rt, source, s, c, input, memory, held, output, text)
        }
        _ => call_turn(rt, source, s, c, input, memory, few, many, text),
    }
}

// Plays to the end of the script or to a wrong command. No script has so many turns that the count would end them.
fn play(
    rt: &HostRuntime,
    source: &mut Source,
    input: &mut [u8],
    memory: &mut [u32],
    few: &mut [u32; 16],
    many: &mut [u32; 4096],
    held: &mut [u8; 4106],
    output: &mut [u8; MOST_OUTPUT],
    text: &mut [u8; ROOM],
) {
    let reached = reading::first(source, input, memory);
    let mut s = State {
        house: House::none(),
        restoring: restore::reading::begin(),
        reading: reached,
        used: 0,
    };
    for _ in 0..u64::MAX {
        let here = s.reading;
        let Some(c) = here.command else {
            told::finish(rt, text, s.used, here.at, here.end, here.offset);
            return;
        };
        s = turn(
            rt, source, s, c, input, memory, few, many, held, output, text,
        );
    }
}

fn memory_space() -> [u32; MOST_WORDS]
    ensures { 263168 ≡ length result }
{
    [0; MOST_WORDS]
}

fn few_space() -> [u32; 16]
    ensures { 16 ≡ length result }
{
    [0; 16]
}

fn many_space() -> [u32; 4096]
    ensures { 4096 ≡ length result }
{
    [0; 4096]
}

fn held_space() -> [u8; 4106]
    ensures { 4106 ≡ length result }
{
    [0; 4106]
}

fn output_space() -> [u8; MOST_OUTPUT]
    ensures { 70000 ≡ length result }
{
    [0; MOST_OUTPUT]
}

fn text_space() -> [u8; ROOM]
    ensures { 524288 ≡ length result }
{
    [0; ROOM]
}

// Standard input can be read: a read of no byte answers so. A folder, or a closed one, cannot.
fn readable(source: &mut Source) -> bool {
    let mut none = [0u8; 0];
    source.read(&mut none) >= 0
}

fn help(rt: &HostRuntime) {
    let _ = print(
        rt,
        b"drill: plays a script of calls from standard input, and writes what it sees after each call; emulator/FORMAT.md has both\n",
    );
}

// What is said where words are given.
fn answer_words(rt: &HostRuntime) {
    let mut space = files::buffer();
    let length = files::word(rt, 1, &mut space);
    if asks_help(&space[..length]) {
        help(rt);
        return;
    }
    wrong(
        rt,
        b"no words, and a script on standard input",
        &space[..length],
    );
}

fn main(rt: HostRuntime) {
    if files::words(&rt) > 1 {
        answer_words(&rt);
        return;
    }
    let mut source = Source::standard_input(&rt);
    if !readable(&mut source) {
        fail(&rt, b"standard input", source.why());
        return;
    }
    let mut input = files::large_buffer();
    let mut memory = memory_space();
    let mut few = few_space();
    let mut many = many_space();
    let mut held = held_space();
    let mut output = output_space();
    let mut text = text_space();
    play(
        &rt,
        &mut source,
        &mut input,
        &mut memory,
        &mut few,
        &mut many,
        &mut held,
        &mut output,
        &mut text,
    );
}
