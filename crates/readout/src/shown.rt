// Words that are printed one piece behind the other.
ghost use Rattle.std.specs.Prelude.{◌≡◌, ◌+◌, MatchResult};
ghost use Rattle.readout.specs.Printed.{none_shown, ToldBehind};

use crate::Want;
use command::put_out;
use night_run::Taken;

// How many words are printed. Other modules get one from `none` and `show` alone.
#[derive(Clone, Copy)]
pub struct Shown {
    words: usize,
}

impl Shown {
    pub fn none() -> Shown
        ensures { result ≡ none_shown }
    {
        Shown { words: 0 }
    }

    pub fn words(self) -> usize
        ensures { result ≡ self.words }
    {
        self.words
    }
}

// A piece could not be written: where it ends. Other modules get one from `show` alone, so none says so without having tried.
#[derive(Clone, Copy)]
pub struct Unwritten {
    words: usize,
}

// Prints n words, those behind the ones that are printed. Where that cannot be written, it is told.
pub fn show(
    rt: &HostRuntime,
    s: Shown,
    t: Taken,
    w: Want,
    n: usize,
    piece: &[u8],
) -> Result<Shown, Unwritten>
    requires { ToldBehind w t s.words n piece.now }
    ensures { MatchResult result (λ x. x.words ≡ s.words + n) (λ x. x.words ≡ s.words + n) }
{
    let words = s.words + n;
    if !put_out(rt, piece) {
        return Err(Unwritten { words });
    }
    Ok(Shown { words })
}
