// words FILE: reads words in decimals, one to a line, a minus allowed, and writes them raw, four bytes each, the lowest first; or nothing, and `refused: N D` on standard error.
#![tactic(auto)]

use files::print;
use texts::run;

fn help(rt: &HostRuntime) {
    let _ = print(
        rt,
        b"words FILE: reads words in decimals as readout prints them, one to a line (- for standard input), and writes them raw, four bytes each, the lowest first;\n",
    );
    let _ = print(
        rt,
        b"or nothing, and says `refused: N D`: docs/FILES.md has the lines, and docs/CALLS.md tells what it means\n",
    );
}

fn main(rt: HostRuntime) {
    run(&rt, true, help);
}
