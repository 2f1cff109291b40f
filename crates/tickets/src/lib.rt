// Tickets between partitions: queues of 32 places, first in, first out. Partition j's places stand at 32 * j.
#![tactic(auto)]

ghost use Rattle.std.specs.Prelude.{◌≡◌, [], ◌∷◌, ◌++◌, ◌<◌, ◌≤◌, length, drop};
ghost use Rattle.tickets.specs.Queues.{queues, sending, taking, Queued};
ghost use Rattle.tickets.specs.Answers.{code_of, sent_reply, taken_reply};

use dlx::words::wide;

// Why a ticket is not sent.
#[derive(Clone, Copy, PartialEq, Eq, Debug)]
pub enum Unsent {
    Full,
    NoSuchPartition,
}

impl Unsent {
    // The code that the guest sees.
    pub fn code(self) -> u32
        ensures { result ≡ code_of self }
    {
        match self {
            Unsent::Full => 1,
            Unsent::NoSuchPartition => 2,
        }
    }
}

// The places of a queue, each one on; the last becomes 0.
fn shift(places: &mut [u32])
    requires { length places.old ≡ 32 }
    ensures { places.new ≡ drop 1 places.old ++ (0 ∷ []) }
{
    places[0] = 0;
    places.rotate_left(1);
}

// v sent to one of so many partitions.
pub fn send(
    count: u32,
    tickets: &mut [u32],
    waiting: &mut [u32],
    v: u32,
    to: u32,
) -> Result<(), Unsent>
    requires queued { Queued (queues tickets.old waiting.old) }
    requires count_bound { count ≤ 8 }
    ensures { (sent_reply result, queues tickets.new waiting.new) ≡ sending count (queues tickets.old waiting.old) v to }
{
    if to >= count {
        return Err(Unsent::NoSuchPartition);
    }
    let j = wide(to);
    let n = waiting[j];
    if n >= 32 {
        return Err(Unsent::Full);
    }
    tickets[j * 32 + wide(n)] = v;
    waiting[j] = n + 1;
    Ok(())
}

// The oldest ticket taken by partition i, if one waits.
pub fn take(tickets: &mut [u32], waiting: &mut [u32], i: u32) -> Option<u32>
    requires queued { Queued (queues tickets.old waiting.old) }
    requires i_bound { i < 8 }
    ensures { (taken_reply result, queues tickets.new waiting.new) ≡ taking (queues tickets.old waiting.old) i }
{
    let j = wide(i);
    let n = waiting[j];
    if n == 0 {
        return None;
    }
    let a = j * 32;
    let b = a + 32;
    let ticket = tickets[a];
    shift(&mut tickets[a..b]);
    waiting[j] = n - 1;
    Some(ticket)
}
