// assemble FILE: reads lines, and writes the words that they are, raw, four bytes each, the lowest first; or nothing, and `refused: N D` on standard error.
#![tactic(auto)]

use files::print;
use texts::run;

fn help(rt: &HostRuntime) {
    let _ = print(
        rt,
        b"assemble FILE: reads lines as list prints them (- for standard input), and writes their words raw, four bytes each, the lowest first;\n",
    );
    let _ = print(
        rt,
        b"or nothing, and says `refused: N D`: docs/LISTINGS.md has the lines, and docs/CALLS.md tells what it means\n",
    );
}

fn main(rt: HostRuntime) {
    run(&rt, false, help);
}
