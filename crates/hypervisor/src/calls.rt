// The calls: refusals in their order, then what a done call does.
ghost use Rattle.std.specs.Prelude.{◌≡◌, ℕ, List, length};
ghost use Rattle.house.specs.Turns.{world};
ghost use Rattle.house.specs.Calls.{read as read_of, beyond_of, run_verdict, one_verdict, read_verdict, run_call, start_call, stop_call, empty_call, read_call};
ghost use Rattle.house.specs.Refusals.{verdict_of, answer_of};

use crate::run::steps;
use crate::single;
use damage::damaged;
use dlx::words::wide;
use house::{Answer, Done, House, Refusal};

// Does anything refuse a run with a memory of this length?
#[tactic(auto, unfolding(house::specs::Calls::run_verdict, house::specs::Boot::first_of))]
pub fn check_run(h: House, size: usize, k: u32) -> Result<(), Refusal>
    ensures { (m : List ℕ) → length m ≡ size → verdict_of k result ≡ run_verdict (world h m) k }
{
    if damaged(h) {
        return Err(Refusal::Damaged);
    }
    if size != wide(h.words) {
        return Err(Refusal::OtherMemory);
    }
    if k > 1000000 {
        return Err(Refusal::TooManySteps);
    }
    if k != 0 && h.left == 0 {
        return Err(Refusal::NothingRuns);
    }
    Ok(())
}

#[tactic(auto, using(crate::proofs::Refusals::of_run), unfolding(house::specs::Calls::run_call))]
pub fn run(h: House, memory: &mut [u32], k: u32) -> Answer
    ensures { answer_of h result memory.new ≡ run_call (world h memory.old) k }
{
    check_run(h, memory.len(), k)?;
    let house = if k == 0 { h } else { steps(h, memory, k) };
    Ok(Done {
        detail: k as u64,
        house,
    })
}

// Does anything refuse start, stop and empty?
#[tactic(auto, unfolding(house::specs::Calls::one_verdict, house::specs::Boot::first_of))]
fn check_one(h: House, i: u32) -> Result<(), Refusal>
    ensures { verdict_of 0 result ≡ one_verdict h i }
{
    if damaged(h) {
        return Err(Refusal::Damaged);
    }
    if i >= h.count {
        return Err(Refusal::NoSuchPartition);
    }
    Ok(())
}

#[tactic(auto, using(crate::proofs::Refusals::of_one), unfolding(house::specs::Calls::start_call))]
pub fn start(h: House, i: u32) -> Answer
    ensures { (m : List ℕ) → answer_of h result m ≡ start_call (world h m) i }
{
    check_one(h, i)?;
    let house = single::start(h, i);
    Ok(Done { detail: 0, house })
}

#[tactic(auto, using(crate::proofs::Refusals::of_one), unfolding(house::specs::Calls::stop_call))]
pub fn stop(h: House, i: u32) -> Answer
    ensures { (m : List ℕ) → answer_of h result m ≡ stop_call (world h m) i }
{
    check_one(h, i)?;
    let house = single::stop(h, i);
    Ok(Done { detail: 0, house })
}

#[tactic(auto, using(crate::proofs::Refusals::of_one), unfolding(house::specs::Calls::empty_call))]
pub fn empty(h: House, i: u32) -> Answer
    ensures { (m : List ℕ) → answer_of h result m ≡ empty_call (world h m) i }
{
    check_one(h, i)?;
    let house = single::empty(h, i);
    Ok(Done { detail: 0, house })
}

// Does anything refuse a read-out with a memory and an output of these lengths?
#[tactic(auto, unfolding(house::specs::Calls::read_verdict, house::specs::Boot::first_of))]
fn check_read(
    h: House,
    size: usize,
    i: u32,
    address: u32,
    count: u64,
    room: usize,
) -> Result<(), Refusal>
    ensures { (m out : List ℕ) → length m ≡ size → length out ≡ room → verdict_of count result ≡ read_verdict (world h m) i address count out }
{
    if damaged(h) {
        return Err(Refusal::Damaged);
    }
    if size != wide(h.words) {
        return Err(Refusal::OtherMemory);
    }
    if i >= h.count {
        return Err(Refusal::NoSuchPartition);
    }
    if beyond(single::pages_of(h, i), address, count) {
        return Err(Refusal::BeyondPages);
    }
    if (room as u64) < count {
        return Err(Refusal::ShortOutput);
    }
    Ok(())
}

// So many words of partition i's pages, from the untranslated guest byte address on, into the first words of an output. House and memory stay as they were.
#[tactic(auto, using(crate::proofs::Refusals::of_read))]
pub fn read_out(
    h: House,
    memory: &[u32],
    i: u32,
    address: u32,
    count: u64,
    out: &mut [u32],
) -> Result<(), Refusal>
    ensures { read_of (verdict_of count result) h out.new ≡ read_call (world h memory.now) i address count out.old }
{
    check_read(h, memory.len(), i, address, count, out.len())?;
    single::read_pages(h, memory, i, address, count, out);
    Ok(())
}

// The address is not a multiple of 4, or the words end above the pages. The sum is never made where it could wrap.
fn beyond(pages: u32, address: u32, count: u64) -> bool
    ensures { result ≡ beyond_of pages address count }
{
    let room = 4096 * pages as u64;
    address % 4 != 0 || count > room / 4 || room < address as u64 + 4 * count
}
