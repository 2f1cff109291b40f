// What the first bytes of a file tell: whether it is a saved file, and how large a memory it wants.
ghost use Rattle.std.specs.Prelude.{◌≡◌, ◌+◌, ◌<◌, ◌≤◌, length, take, drop};
ghost use Rattle.housefile.specs.Records.{number};
ghost use Rattle.night_run.specs.Ran.{is_saved, room_for};

use crate::WORDS;

// The number of two bytes.
fn pair(head: &[u8], at: usize) -> usize
    requires { at + 2 ≤ length head.now }
    ensures value { result ≡ number (take 2 (drop at head.now)) }
    ensures upper_bound { result < 65536 }
{
    usize::from(head[at]) + 256 * usize::from(head[at + 1])
}

// The first record is of kind 5.
pub fn is_saved(head: &[u8]) -> bool
    ensures { result ≡ is_saved head.now }
{
    if head.len() < 6 {
        return false;
    }
    pair(head, 4) == 5
}

// How many words the file's memory has, at most those that are lent.
pub fn room(head: &[u8]) -> usize
    ensures { result ≡ room_for head.now }
{
    if head.len() < 22 {
        return 0;
    }
    let low = pair(head, 10);
    let high = pair(head, 12);
    (low + 65536 * high).min(WORDS)
}
