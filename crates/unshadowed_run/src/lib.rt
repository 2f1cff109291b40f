// The run call by the engine without shadows.
#![tactic(auto)]

ghost use Rattle.std.specs.Prelude.{◌≡◌};
ghost use Rattle.house.specs.House.{fresh_shadows, with_shadows};
ghost use Rattle.house.specs.Turns.{world};
ghost use Rattle.house.specs.Refusals.{answer_of};
ghost use Rattle.unshadowed.specs.Turns.{unshadowed_steps, all_empty};
ghost use Rattle.unshadowed_run.specs.Calls.{unshadowed_call, run_by};
ghost use Rattle.unshadowed_run.specs.Steady.{Steady};

use addresses::ENTRIES;
use dlx::words::wide;
use house::{Answer, Done, House};
use hypervisor::calls;
use hypervisor::run::{limit, turn};

// The house with every shadow empty.
fn empty_all(mut h: House) -> House
    ensures { result ≡ with_shadows h fresh_shadows }
{
    h.shadows = [0; 8 * ENTRIES];
    h
}

// k host steps, k not 0. The arrays are in locals; a turn lends the partition's parts of them. The shadows are not looked at, and stay as they were.
fn steps(mut h: House, memory: &mut [u32], k: u32) -> House
    requires { Steady (world h memory.old) }
    ensures { all_empty (world result memory.new) ≡ all_empty (unshadowed_steps k (world h memory.old)) }
{
    let count = h.count;
    let q = h.q;
    let running = h.running;
    let frames = h.frames;
    let mut parts = h.parts;
    let mut regs = h.regs;
    let mut tickets = h.tickets;
    let mut waiting = h.waiting;
    let mut current = h.current;
    let mut left = h.left;
    let mut made: u32 = 0;
    // Not a `for`: a stretch makes several steps at once.
    while made < k {
        let i = wide(current);
        let mut p = parts[i];
        let a = i * 32;
        let b = a + 32;
        let c = i * 256;
        let d = c + 256;
        let n = limit(left, k - made);
        let mut latest = p.fault;
        let s = unshadowed::stretch(
            p.processor,
            p.table,
            p.timer,
            p.pages,
            &mut regs[a..b],
            &frames[c..d],
            memory,
            count,
            current,
            &mut tickets,
            &mut waiting,
            &mut latest,
            n,
        );
        let processor = s.processor;
        let table = s.table;
        let timer = s.timer;
        p.processor = processor;
        p.table = table;
        p.timer = timer;
        p.fault = latest;
        p.counter = std::num::wrapping_add_u64(p.counter, s.made as u64);
        parts[i] = p;
        let t = turn(&running, count, q, current, left, s.made, s.called);
        current = t.current;
        left = t.left;
        made += s.made;
    }
    h.current = current;
    h.left = left;
    h.parts = parts;
    h.regs = regs;
    h.tickets = tickets;
    h.waiting = waiting;
    h
}

// A run by the engine without shadows: refused as the first one's is; a done one, of 0 steps too, gives every shadow back empty.
#[tactic(auto, using(crate::proofs::Calls::of_run), unfolding(crate::specs::Calls::unshadowed_call))]
pub fn run(h: House, memory: &mut [u32], k: u32) -> Answer
    ensures { answer_of h result memory.new ≡ unshadowed_call (world h memory.old) k }
{
    calls::check_run(h, memory.len(), k)?;
    let stepped = if k == 0 { h } else { steps(h, memory, k) };
    Ok(Done {
        detail: k as u64,
        house: empty_all(stepped),
    })
}

// A run by the engine that is asked for.
#[tactic(auto, unfolding(crate::specs::Calls::run_by))]
pub fn run_by(unshadowed: bool, h: House, memory: &mut [u32], k: u32) -> Answer
    ensures { answer_of h result memory.new ≡ run_by unshadowed (world h memory.old) k }
{
    if unshadowed {
        run(h, memory, k)
    } else {
        calls::run(h, memory, k)
    }
}
