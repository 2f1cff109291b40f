// Tickets between the queues and the registers: what every engine does with one that is sent or taken.
#![tactic(auto)]

ghost use Rattle.std.specs.Prelude.{◌≡◌, ◌<◌, ◌≤◌, length};
ghost use Rattle.tickets.specs.Queues.{queues, sending, taking, Queued};
ghost use Rattle.receipt.specs.Answers.{sent_of, received_of};

// The codes of what is done, and of a ticket taken where none waits.
const DONE: u32 = 0;

const NONE_WAITING: u32 = 3;

// v sent to one of so many partitions; the answer's code.
pub fn send(count: u32, tickets: &mut [u32], waiting: &mut [u32], v: u32, to: u32) -> u32
    requires queued { Queued (queues tickets.old waiting.old) }
    requires count_bound { count ≤ 8 }
    ensures { (result, queues tickets.new waiting.new) ≡ sent_of (sending count (queues tickets.old waiting.old) v to) }
{
    match tickets::send(count, tickets, waiting, v, to) {
        Ok(()) => DONE,
        Err(unsent) => unsent.code(),
    }
}

// A ticket of partition i taken into register 1, if one waits; the answer's code.
pub fn receive(regs: &mut [u32], i: u32, tickets: &mut [u32], waiting: &mut [u32]) -> u32
    requires regs_length { length regs.old ≡ 32 }
    requires queued { Queued (queues tickets.old waiting.old) }
    requires i_bound { i < 8 }
    ensures { ((regs.new, result), queues tickets.new waiting.new) ≡ received_of regs.old (taking (queues tickets.old waiting.old) i) }
{
    match tickets::take(tickets, waiting, i) {
        Some(ticket) => {
            processor::execute::write(regs, 1, ticket);
            DONE
        }
        None => NONE_WAITING,
    }
}
