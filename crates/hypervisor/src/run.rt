// Runs: turns of the current partition, each a stretch of the engine's.
ghost use Rattle.std.specs.Prelude.{◌≡◌, ◌<◌, ◌≤◌, false, nat_le};
ghost use Rattle.dlx.specs.Choice.{when◌then◌else◌};
ghost use Rattle.house.specs.Turns.{world, following as following_of, next_of, turn_of, span_of, left_alone, later_of, host_steps};
ghost use Rattle.house.specs.Sound.{Sound};

use addresses::ENTRIES;
use dlx::words::wide;
use house::{House, Turn};

// The partition after i, in cyclic order.
fn following(n: u32, i: u32) -> u32
    requires { i < n }
    ensures { result ≡ following_of n i }
{
    if i + 1 == n {
        return 0;
    }
    i + 1
}

// The next running partition after i, itself if alone.
pub fn next(running: &[bool; 8], n: u32, i: u32) -> u32
    requires n_bound { n ≤ 8 }
    requires i_bound { i < n }
    ensures { result ≡ next_of running.now n i }
{
    let mut at = i;
    for _ in 0..n {
        at = following(n, at);
        if running[wide(at)] {
            return at;
        }
    }
    at
}

// The turn of the current partition after so many steps of it.
pub fn turn(
    running: &[bool; 8],
    n: u32,
    q: u32,
    current: u32,
    left: u32,
    made: u32,
    called: bool,
) -> Turn
    requires n_bound { n ≤ 8 }
    requires current_bound { current < n }
    requires made_bound { made ≤ left }
    ensures { result ≡ turn_of running.now n q current left made called }
{
    if left == made {
        return Turn {
            current: next(running, n, current),
            left: q,
        };
    }
    if called {
        return Turn {
            current: next(running, n, current),
            left: q,
        };
    }
    Turn {
        current,
        left: left - made,
    }
}

// The smaller of the steps left and the steps still to make.
pub fn limit(left: u32, rest: u32) -> u32
    ensures { result ≡ (when nat_le left rest then left else rest) }
{
    left.min(rest)
}

// What is left of the turn of a partition that is alone, after so many steps of it.
fn remains(q: u32, left: u32, made: u32, called: bool) -> u32
    requires { 0 < q }
    ensures { result ≡ left_alone q left made called }
{
    if called {
        return q;
    }
    if made < left {
        return left - made;
    }
    q - (made - left) % q
}

// The turn after so many steps of the current partition. One that is alone may have made more than were left.
fn later(
    alone: bool,
    running: &[bool; 8],
    n: u32,
    q: u32,
    current: u32,
    left: u32,
    made: u32,
    called: bool,
) -> Turn
    requires n_bound { n ≤ 8 }
    requires current_bound { current < n }
    requires q_positive { 0 < q }
    requires made_bound { (alone ≡ false → made ≤ left) }
    ensures { result ≡ later_of alone running.now n q current left made called }
{
    if alone {
        return Turn {
            current,
            left: remains(q, left, made, called),
        };
    }
    turn(running, n, q, current, left, made, called)
}

// How many steps the current partition may make on end: up to the end of its turn, or, where it is alone, all.
fn span(alone: bool, left: u32, rest: u32) -> u32
    ensures { result ≡ span_of alone left rest }
{
    if alone {
        return rest;
    }
    limit(left, rest)
}

// k host steps. The arrays are in locals; a turn lends the partition's parts of them.
pub fn steps(mut h: House, memory: &mut [u32], k: u32) -> House
    requires { Sound (world h memory.old) }
    ensures { world result memory.new ≡ host_steps k (world h memory.old) }
{
    let count = h.count;
    let q = h.q;
    let running = h.running;
    let frames = h.frames;
    let mut parts = h.parts;
    let mut regs = h.regs;
    let mut shadows = h.shadows;
    let mut tickets = h.tickets;
    let mut waiting = h.waiting;
    let mut current = h.current;
    let mut left = h.left;
    let alone = next(&running, count, current) == current;
    let mut made: u32 = 0;
    // Not a `for`: a stretch makes several steps at once.
    while made < k {
        let i = wide(current);
        let mut p = parts[i];
        let a = i * 32;
        let b = a + 32;
        let c = i * 256;
        let d = c + 256;
        let e = i * ENTRIES;
        let f = e + ENTRIES;
        let n = span(alone, left, k - made);
        let mut latest = p.fault;
        let s = engine::stretch(
            p.processor,
            p.table,
            p.timer,
            p.pages,
            &mut regs[a..b],
            &frames[c..d],
            &mut shadows[e..f],
            memory,
            count,
            current,
            &mut tickets,
            &mut waiting,
            &mut latest,
            n,
        );
        let processor = s.processor;
        let table = s.table;
        let timer = s.timer;
        p.processor = processor;
        p.table = table;
        p.timer = timer;
        p.fault = latest;
        p.counter = std::num::wrapping_add_u64(p.counter, s.made as u64);
        parts[i] = p;
        let t = later(alone, &running, count, q, current, left, s.made, s.called);
        current = t.current;
        left = t.left;
        made += s.made;
    }
    h.current = current;
    h.left = left;
    h.parts = parts;
    h.regs = regs;
    h.shadows = shadows;
    h.tickets = tickets;
    h.waiting = waiting;
    h
}
