// Noon's words from the first `partition` on.
ghost use Rattle.std.specs.Prelude.{◌≡◌, ◌≤◌, Ok, IfSome, replicate};
ghost use Rattle.asked.specs.Asked.{going};
ghost use Rattle.noon.specs.Noon.{Asks, AsksNext};

use asked::asked::{Asked, Awaits, took_word};
use command::{fail, wrong};
use dlx::words::wide;

// A word was wrong, which should have been what was awaited.
fn tell_word(rt: &HostRuntime, a: Asked, word: &[u8]) {
    match a.awaits {
        Awaits::Partition => wrong(rt, b"partition", word),
        Awaits::Frames => wrong(rt, b"FRAMES, decimals below 2^32 with commas between", word),
        Awaits::Image | Awaits::ImageOrPartition => {
            if a.images >= 64 {
                wrong(rt, b"at most 64 images", word);
            } else {
                wrong(
                    rt,
                    b"IMAGE or IMAGE@ADDRESS, ADDRESS a multiple of 4 below 2^32",
                    word,
                );
            }
        }
    }
}

// Word i. What is wrong is told.
fn ask_next(
    rt: &HostRuntime,
    a: Asked,
    i: u32,
    pages: &mut [u32],
    frames: &mut [u32],
    table: &mut [u32],
) -> Option<Asked>
    ensures { IfSome result (λ next. AsksNext (going (Ok a) pages.old frames.old table.old) (going (Ok next) pages.new frames.new table.new) i) }
{
    let mut word = files::buffer();
    let n = match files::try_word(rt, wide(i), &mut word) {
        Ok(n) => n,
        Err(why) => {
            fail(rt, b"a word", why);
            return None;
        }
    };
    match took_word(Ok(a), i, &word[..n], pages, frames, table) {
        Ok(next) => Some(next),
        Err(stood) => {
            tell_word(rt, stood, &word[..n]);
            None
        }
    }
}

// The words from the fourth on.
pub fn ask(
    rt: &HostRuntime,
    given: u32,
    pages: &mut [u32],
    frames: &mut [u32],
    table: &mut [u32],
) -> Option<Asked>
    requires pages_zeros { pages.old ≡ replicate 65 0 }
    requires frames_zeros { frames.old ≡ replicate 2048 0 }
    requires table_zeros { table.old ≡ replicate 192 0 }
    requires given_least { 4 ≤ given }
    ensures { IfSome result (λ a. Asks a pages.new frames.new table.new given) }
{
    let mut a = Asked {
        awaits: Awaits::Partition,
        owner: 0,
        total: 0,
        images: 0,
    };
    for i in 4..given {
        a = ask_next(rt, a, i, pages, frames, table)?;
    }
    Some(a)
}
