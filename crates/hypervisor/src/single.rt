// What start, stop, empty and read-out do to one partition, where nothing refuses them.
ghost use Rattle.std.specs.Prelude.{◌≡◌, ◌+◌, ◌*◌, ◌<◌, ◌≤◌, false, ◌++◌, length, drop};
ghost use Rattle.house.specs.Lists.{list_from};
ghost use Rattle.house.specs.House.{pages_of, turn, with_turn};
ghost use Rattle.house.specs.Turns.{world};
ghost use Rattle.house.specs.Calls.{started, stopped, emptied_house, read_verdict, read_out};
ghost use Rattle.addresses.specs.Memory.{host_word};
ghost use Rattle.addresses.specs.Premises.{Placed};

use crate::run::next;
use addresses::ENTRIES;
use damage::any_runs;
use dlx::words::wide;
use house::House;

// The house with other flags and another turn.
fn with_turn(h: House, running: [bool; 8], current: u32, left: u32) -> House
    ensures { result ≡ with_turn h running (turn current left) }
{
    let mut r = h;
    r.running = running;
    r.current = current;
    r.left = left;
    r
}

pub fn start(h: House, i: u32) -> House
    requires { i < 8 }
    ensures { result ≡ started h i }
{
    let mut running = h.running;
    running[wide(i)] = true;
    if h.left == 0 {
        return with_turn(h, running, i, h.q);
    }
    with_turn(h, running, h.current, h.left)
}

pub fn stop(h: House, i: u32) -> House
    requires count_bound { h.count ≤ 8 }
    requires i_bound { i < h.count }
    ensures { result ≡ stopped h i }
{
    let mut running = h.running;
    running[wide(i)] = false;
    if h.left == 0 {
        return with_turn(h, running, h.current, h.left);
    }
    if h.current != i {
        return with_turn(h, running, h.current, h.left);
    }
    let n = h.count;
    if any_runs(&running, wide(n)) {
        let c = next(&running, n, i);
        return with_turn(h, running, c, h.q);
    }
    with_turn(h, running, 0, 0)
}

pub fn empty(h: House, i: u32) -> House
    requires { i < 8 }
    ensures { result ≡ emptied_house h i }
{
    let mut shadows = h.shadows;
    let a = wide(i) * ENTRIES;
    let b = a + ENTRIES;
    translate::clear(&mut shadows[a..b]);
    let mut r = h;
    r.shadows = shadows;
    r
}

// The guest's words from one on, into the first of an output.
pub fn read(frames: &[u32], pages: u32, words: &[u32], from: usize, count: usize, out: &mut [u32])
    requires placed { Placed frames.now pages (length words.now) }
    requires count_bound { from + count ≤ pages * 1024 }
    requires out_room { count ≤ length out.old }
    ensures { out.new ≡ list_from (λ j. host_word frames.now words.now (from + j)) 0 count ++ drop count out.old }
{
    for (j, word) in out[..count].iter_mut().enumerate() {
        let g = from + j;
        *word = words[wide(frames[g / 1024]) * 1024 + g % 1024];
    }
}

// Partition i's page count.
pub fn pages_of(h: House, i: u32) -> u32
    requires { i < 8 }
    ensures { result ≡ pages_of h i }
{
    let parts = h.parts;
    let p = parts[wide(i)];
    return p.pages;
}

// So many words of partition i's pages, into the first of an output.
pub fn read_pages(h: House, memory: &[u32], i: u32, address: u32, count: u64, out: &mut [u32])
    requires { (read_verdict (world h memory.now) i address count out.old).number ≡ 0 }
    ensures { out.new ≡ read_out (world h memory.now) i address count out.old }
{
    let frames = h.frames;
    let a = wide(i) * 256;
    let b = a + 256;
    read(
        &frames[a..b],
        pages_of(h, i),
        memory,
        wide(address / 4),
        count as usize,
        out,
    );
}
