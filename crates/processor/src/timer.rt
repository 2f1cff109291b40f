// The timer: what a step makes of it, and what it raises.
ghost use Rattle.std.specs.Prelude.{◌≡◌, ◌≤◌};
ghost use Rattle.dlx.specs.Timer.{ticked, raised};
ghost use Rattle.dlx.specs.Spells.{sunk};

use dlx::partition::{Partition, Timer};

// The timer after a step: TCOUNT, if not 0, falls by one, and reaching 0 it becomes TLOAD.
pub fn tick(k: Timer) -> Timer
    ensures { result ≡ ticked k }
{
    let mut r = k;
    if k.tcount == 0 {
        return r;
    }
    if k.tcount == 1 {
        r.tcount = k.tload;
        return r;
    }
    r.tcount = k.tcount - 1;
    r
}

// The causes that the timer raises in a step: its own where TCOUNT reaches 0 and SR, as before the step, lets it interrupt.
pub fn raise(k: Timer, sr: u32) -> u32
    ensures { result ≡ raised k sr }
{
    if k.tcount != 1 {
        return 0;
    }
    if sr / Partition::TIMER % 2 == 1 {
        return Partition::TIMER;
    }
    0
}

// The timer after so many steps in which it reaches no 0: where TCOUNT is that much, and where it may be 0.
pub fn fall(k: Timer, n: u32) -> Timer
    requires { n ≤ k.tcount }
    ensures { result ≡ sunk k n }
{
    let mut r = k;
    r.tcount = k.tcount - n;
    r
}

pub fn sink(k: Timer, n: u32) -> Timer
    ensures { result ≡ sunk k n }
{
    let mut r = k;
    if k.tcount < n {
        r.tcount = 0;
        return r;
    }
    fall(k, n)
}
