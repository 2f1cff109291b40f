// What the operating system hands over. No contract can say what that is, so an answer comes from `read` alone.
ghost use Rattle.std.specs.Prelude.{◌≡◌, length, IfSome, is_none};
ghost use Rattle.std.specs.Option.{unwrap_or};
ghost use Rattle.files.specs.Counts.{IsPrefixLen};
ghost use Rattle.night_run.specs.Pieces.{answered};

use files::{Source, count};

// What a read answered: how many bytes it put at the buffer's start, 0 at the end of the input; or none, where it failed.
#[derive(Clone, Copy)]
pub struct Answer {
    brought: Option<usize>,
}

// What the system's number says of a read into this buffer.
fn answered(got: isize, buffer: &[u8]) -> Answer
    ensures value { result.brought ≡ answered got (length buffer.now) }
    ensures prefix_len { IfSome result.brought (λ n. IsPrefixLen n buffer.now) }
{
    if got < 0 {
        return Answer { brought: None };
    }
    Answer {
        brought: Some(count(got, buffer)),
    }
}

// One read.
pub fn read(source: &mut Source, buffer: &mut [u8]) -> Answer
    ensures { IfSome result.brought (λ n. IsPrefixLen n buffer.new) }
{
    let got = source.read(buffer);
    answered(got, buffer)
}

impl Answer {
    // How many bytes it brought.
    pub fn count(self) -> usize
        ensures { result ≡ unwrap_or self.brought 0 }
    {
        self.brought.unwrap_or(0)
    }

    pub fn failed(self) -> bool
        ensures { result ≡ is_none self.brought }
    {
        self.brought.is_none()
    }
}
