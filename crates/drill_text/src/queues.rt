// The lines that tell of the queues. A queue of which every number is 0 has none.
ghost use Rattle.std.specs.Prelude.{◌≡◌, ◌*◌, length, slice_index};
ghost use Rattle.decimal.specs.Texts.{Puts, joined};
ghost use Rattle.dlx.specs.Parts.{inner};
ghost use Rattle.drill_text.specs.Queues.{idle_of, queue_line_of, queue_lines_of};

use crate::ROOM;
use crate::lines::rest;
use crate::numbers::number;
use crate::partitions::{listed, zeros};
use decimal::put_text;
use house::House;

#[tactic(auto, unfolding(crate::specs::Queues::idle_of))]
fn idle(waiting: u32, places: &[u32]) -> bool
    ensures { result ≡ idle_of waiting places.now }
{
    waiting == 0 && zeros(places)
}

// How many tickets wait for partition i, and its places up to the last that is not 0.
fn queue(text: &mut [u8; ROOM], used: usize, i: usize, waiting: u32, places: &[u32]) -> usize
    requires { length places.now ≡ 32 }
    ensures { Puts text.old used text.new result (queue_line_of i waiting places.now) 720 }
{
    if idle(waiting, places) {
        return used;
    }
    let n = listed(places);
    let named = put_text(text, used, b"queue");
    let numbered = number(text, named, i as u64);
    let counted = number(text, numbered, waiting as u64);
    rest(text, counted, &places[..n])
}

fn each(text: &mut [u8; ROOM], used: usize, waiting: &[u32; 8], tickets: &[u32]) -> usize
    requires { length tickets.now ≡ 256 }
    ensures { Puts text.old used text.new result (joined (λ k. queue_line_of k (slice_index waiting.now k) (inner (k * 32) 32 tickets.now)) 8) 5760 }
{
    let mut end = used;
    for (i, w) in waiting.iter().enumerate() {
        let a = i * 32;
        let b = a + 32;
        end = queue(text, end, i, *w, &tickets[a..b]);
    }
    end
}

#[tactic(auto, unfolding(crate::specs::Queues::queue_lines_of))]
pub fn queues(text: &mut [u8; ROOM], used: usize, h: House) -> usize
    ensures { Puts text.old used text.new result (queue_lines_of h) 5760 }
{
    each(text, used, &h.waiting, &h.tickets)
}
