// noon OUT Q STEPS partition FRAMES IMAGE[@ADDRESS].. [partition ..]: lays images into the pages of partitions and writes the house file OUT, which the night runs; and
// prints a line for each image. What the night would refuse it refuses, and then nothing is written.
#![tactic(auto)]

mod images;
mod making;
mod words;

ghost use Rattle.std.specs.Prelude.{◌≤◌};

use command::{asks_help, number_in, wrong};
use files::print;
use making::make;

fn help(rt: &HostRuntime) {
    let _ = print(
        rt,
        b"noon OUT Q STEPS partition FRAMES IMAGE[@ADDRESS].. [partition FRAMES IMAGE[@ADDRESS]..]..: makes the house file OUT: turns of Q steps, a run of STEPS;\n",
    );
    let _ = print(
        rt,
        b"for each partition its frames (1 to 15, commas between) and images: raw words, laid into its pages from the guest byte address ADDRESS on (0 where none\n",
    );
    let _ = print(
        rt,
        b"is given); prints where each image went, its words and their sum; or `refused N D`, as the night would, and nothing is written: docs/FILES.md\n",
    );
}

// With Q and STEPS.
fn with_numbers(rt: &HostRuntime, given: u32, path: &[u8], q_word: &[u8], steps_word: &[u8])
    requires { 4 ≤ given }
{
    let Some(q) = number_in(q_word, 4294967295) else {
        wrong(rt, b"Q, a decimal below 2^32", q_word);
        return;
    };
    let Some(steps) = number_in(steps_word, 4294967295) else {
        wrong(rt, b"STEPS, a decimal below 2^32", steps_word);
        return;
    };
    make(rt, given, path, q as u32, steps as u32);
}

fn main(rt: HostRuntime) {
    let given = files::words(&rt);
    let mut path = files::buffer();
    let length = files::word(&rt, 1, &mut path);
    if asks_help(&path[..length]) {
        help(&rt);
        return;
    }
    if given < 7 {
        wrong(
            &rt,
            b"OUT Q STEPS partition FRAMES IMAGE[@ADDRESS]..",
            b"fewer words",
        );
        return;
    }
    if given > 1000000 {
        wrong(&rt, b"at most 1000000 words", b"more");
        return;
    }
    let mut q = files::buffer();
    let q_length = files::word(&rt, 2, &mut q);
    let mut steps = files::buffer();
    let steps_length = files::word(&rt, 3, &mut steps);
    if length == 0 {
        wrong(
            &rt,
            b"OUT, a name of 1 to 4091 bytes",
            b"none, or a longer one",
        );
        return;
    }
    with_numbers(
        &rt,
        given as u32,
        &path[..length],
        &q[..q_length],
        &steps[..steps_length],
    );
}
