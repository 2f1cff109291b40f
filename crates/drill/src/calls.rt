// The commands of the house: the calls, a poke, and clear.
ghost use Rattle.std.specs.Prelude.{◌≡◌, ◌≤◌, length};
ghost use Rattle.house.specs.House.{no_house};
ghost use Rattle.house.specs.Turns.{world};
ghost use Rattle.house.specs.Refusals.{answer_of};
ghost use Rattle.decimal.specs.Texts.{Puts};
ghost use Rattle.drill.specs.Fit.{Plays, Boots};
ghost use Rattle.drill.specs.Told.{most_told, most_read};
ghost use Rattle.drill.specs.Player.{boot_of, called_of, given_of, read_out_of, read_left, call_text_of, read_text_of, audit_text_of, made_of, made_text_of, more_of, played_of, text_of};

use crate::reading::Reading;
use crate::told;
use boot::boot;
use dlx::words::wide;
use drill_script::commands::{Command, Op};
use drill_script::poke::poke;
use drill_script::words;
use drill_text::{ROOM, lines};
use house::{Answer, Done, House};
use hypervisor::calls;

// The house and the text used after a call.
#[derive(Clone, Copy)]
pub struct AfterCall {
    pub house: House,
    pub used: usize,
}

// The house, the words lent, and the text used, after a command.
#[derive(Clone, Copy)]
pub struct Played {
    pub house: House,
    pub lent: usize,
    pub used: usize,
}

// A boot: page counts and frame numbers stand behind the command's four words, and are taken into two spaces.
fn booted(c: Command, more: &[u8], memory: &[u32], pages: &mut [u32], frames: &mut [u32]) -> Answer
    requires boots { Boots c (length more.now) }
    requires pages_room { 16 ≤ length pages.old }
    requires frames_room { 4096 ≤ length frames.old }
    ensures { answer_of no_house result memory.now ≡ boot_of c more.now memory.now }
{
    let n = wide(c.a);
    let l = wide(c.c);
    words::take(more, 0, &mut pages[..n]);
    words::take(more, 4 * n, &mut frames[..l]);
    boot(&pages[..n], c.b, &frames[..l], memory)
}

// A call but a read-out and an audit.
fn called(
    h: House,
    c: Command,
    more: &[u8],
    memory: &mut [u32],
    pages: &mut [u32; 16],
    frames: &mut [u32],
) -> Answer
    requires boots { (c.op ≡ Op.Boot → Boots c (length more.now)) }
    requires frames_room { 4096 ≤ length frames.old }
    ensures { answer_of (given_of c.op h) result memory.new ≡ called_of c more.now h memory.old }
{
    match c.op {
        Op::Boot => booted(c, more, memory, pages, frames),
        Op::Run => calls::run(h, memory, c.a),
        Op::Start => calls::start(h, c.a),
        Op::Stop => calls::stop(h, c.a),
        Op::Mend => staleness::mend(h, memory),
        Op::Unshadowed => unshadowed_run::run(h, memory, c.a),
        _ => calls::empty(h, c.a),
    }
}

// The house that it is given, which a refused one leaves: a boot is given none.
fn given(h: House, op: Op) -> House
    ensures { result ≡ given_of op h }
{
    if op == Op::Boot { House::none() } else { h }
}

// A read-out: the two halves of the count stand behind the command's four words.
fn read_out(h: House, c: Command, more: &[u8], memory: &[u32], output: &mut [u32]) -> Answer
    requires more_room { 8 ≤ length more.now }
    requires output_length { length output.old ≤ 4096 }
    ensures { read_left (answer_of h result memory.now) output.new ≡ read_out_of c more.now h memory.now (length output.old) }
{
    let count = words::word(more, 0) as u64 + words::word(more, 4) as u64 * 0x1_0000_0000;
    words::mark(output);
    calls::read_out(h, memory, c.a, c.b, count, output)?;
    Ok(Done {
        detail: count,
        house: h,
    })
}

// A call but a read-out and an audit, and its text.
fn call(
    h: House,
    c: Command,
    more: &[u8],
    memory: &mut [u32],
    pages: &mut [u32; 16],
    frames: &mut [u32],
    text: &mut [u8; ROOM],
    used: usize,
) -> AfterCall
    requires boots { (c.op ≡ Op.Boot → Boots c (length more.now)) }
    requires frames_room { 4096 ≤ length frames.old }
    ensures { (world result.house memory.new ≡ (called_of c more.now h memory.old).world) × Puts text.old used text.new result.used (call_text_of c more.now h memory.old) most_told }
{
    let given = given(h, c.op);
    let answer = called(h, c, more, memory, pages, frames);
    let end = told::answer(text, used, c.op, given, answer, memory);
    let house = told::left(given, answer);
    AfterCall { house, used: end }
}

// A read-out, and its text with the output's.
fn read(
    h: House,
    c: Command,
    more: &[u8],
    memory: &[u32],
    output: &mut [u32],
    text: &mut [u8; ROOM],
    used: usize,
) -> usize
    requires more_room { 8 ≤ length more.now }
    requires output_length { length output.old ≤ 4096 }
    ensures { Puts text.old used text.new result (read_text_of c more.now h memory.now (length output.old)) most_read }
{
    let answer = read_out(h, c, more, memory, output);
    let called = told::answer(text, used, c.op, h, answer, memory);
    lines::output(text, called, output, told::shown(answer))
}

// An audit, and its text with the first stale entry's.
fn audit(h: House, c: Command, memory: &[u32], text: &mut [u8; ROOM], used: usize) -> usize
    ensures { Puts text.old used text.new result (audit_text_of c h memory.now) most_read }
{
    match staleness::audit(h, memory) {
        Ok(first) => {
            let called = told::call(text, used, c.op, 0, 0, h, memory);
            lines::stale(text, called, first.map(|s| (s.partition, s.page)))
        }
        Err(refusal) => told::answer(text, used, c.op, h, Err(refusal), memory),
    }
}

// A call, and its text.
fn made(
    h: House,
    c: Command,
    more: &[u8],
    memory: &mut [u32],
    few: &mut [u32; 16],
    many: &mut [u32],
    text: &mut [u8; ROOM],
    used: usize,
) -> AfterCall
    requires read_fits { (c.op ≡ Op.ReadOut → (c.c ≤ 4096) × (8 ≤ length more.now)) }
    requires boots { (c.op ≡ Op.Boot → Boots c (length more.now)) }
    requires many_room { 4096 ≤ length many.old }
    ensures { (world result.house memory.new ≡ made_of c more.now h memory.old) × Puts text.old used text.new result.used (made_text_of c more.now h memory.old) most_read }
{
    match c.op {
        Op::ReadOut => {
            let n = wide(c.c);
            let end = read(h, c, more, memory, &mut many[..n], text, used);
            AfterCall {
                house: h,
                used: end,
            }
        }
        Op::Audit => {
            let end = audit(h, c, memory, text, used);
            AfterCall {
                house: h,
                used: end,
            }
        }
        _ => call(h, c, more, memory, few, many, text, used),
    }
}

// A command of the house. The two spaces are for a boot's page counts, and for its frame numbers or a read-out's output.
pub fn play(
    h: House,
    c: Command,
    r: Reading,
    input: &[u8],
    memory: &mut [u32],
    few: &mut [u32; 16],
    many: &mut [u32; 4096],
    text: &mut [u8; ROOM],
    used: usize,
) -> Played
    requires { Plays r c (length input.now) (length memory.old) }
    ensures { (record { house = result.house; memory = memory.new; lent = result.lent } ≡ played_of c (more_of r c input.now) (record { house = h; memory = memory.old; lent = r.lent })) × Puts text.old used text.new result.used (text_of c (more_of r c input.now) (record { house = h; memory = memory.old; lent = r.lent })) most_read }
{
    let lent = r.lent;
    match c.op {
        Op::PokeHouse => {
            let house = poke(h, c.a, c.b);
            Played { house, lent, used }
        }
        Op::Clear => {
            words::fill(memory, 0, u32::MAX, 0);
            Played {
                house: House::none(),
                lent: 0,
                used,
            }
        }
        _ => {
            let from = r.at + 16;
            let end = r.at + c.size;
            let d = made(
                h,
                c,
                &input[from..end],
                &mut memory[..lent],
                few,
                many,
                text,
                used,
            );
            Played {
                house: d.house,
                lent,
                used: d.used,
            }
        }
    }
}
