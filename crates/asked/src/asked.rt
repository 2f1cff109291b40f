// What noon's words from the first `partition` on ask for.
ghost use Rattle.std.specs.Prelude.{◌≡◌, ℕ, List, Ok};
ghost use Rattle.asked.specs.Asked.{going, awaiting_frames, framed, imaged, took_word};

use crate::words::{address_of, put_at, row_of};
use decimal::is;

// What the next word has to be.
#[derive(Clone, Copy, PartialEq, Eq)]
pub enum Awaits {
    Partition,
    Frames,
    Image,
    ImageOrPartition,
}

impl From<u32> for Awaits {
    ghost use Rattle.asked.specs.Asked.{awaits_of};

    ghost from_gives = { λ number awaits. awaits ≡ awaits_of number };

    // By the numbers that the rules of the words once had: any but 0, 1 and 3 is an image's.
    fn from(number: u32) -> Awaits {
        match number {
            0 => Awaits::Partition,
            1 => Awaits::Frames,
            3 => Awaits::ImageOrPartition,
            _ => Awaits::Image,
        }
    }
}

// Where the words stand: what the next one has to be, the partition at hand, and the frames and the images so far.
#[derive(Clone, Copy)]
pub struct Asked {
    pub awaits: Awaits,
    pub owner: u32,
    pub total: u32,
    pub images: u32,
}

// The next word has to be the frames of this partition.
fn awaiting_frames(a: Asked, owner: u32) -> Asked
    ensures { result ≡ awaiting_frames a owner }
{
    Asked {
        awaits: Awaits::Frames,
        owner,
        ..a
    }
}

// A partition's frames.
fn framed(a: Asked, word: &[u8], pages: &mut [u32], frames: &mut [u32]) -> Result<Asked, Asked>
    ensures { (table : List ℕ) → going result pages.new frames.new table ≡ framed a (going (Ok a) pages.old frames.old table) word.now }
{
    let count = match row_of(word, frames, a.total) {
        Ok(count) => count,
        Err(_) => return Err(a),
    };
    put_at(pages, a.owner, 0, count);
    Ok(Asked {
        awaits: Awaits::Image,
        total: a.total.wrapping_add(count),
        ..a
    })
}

// An image, which word n names.
fn imaged(a: Asked, n: u32, word: &[u8], table: &mut [u32]) -> Result<Asked, Asked>
    ensures { (pages frames : List ℕ) → going result pages frames table.new ≡ imaged a (going (Ok a) pages frames table.old) n word.now }
{
    let Some(address) = address_of(word) else {
        return Err(a);
    };
    let address = address as u32;
    if address % 4 != 0 || a.images >= 64 {
        return Err(a);
    }
    let at = 3 * a.images;
    put_at(table, at, 0, a.owner);
    put_at(table, at, 1, address);
    put_at(table, at, 2, n);
    Ok(Asked {
        awaits: Awaits::ImageOrPartition,
        images: a.images + 1,
        ..a
    })
}

// One word more, word n, where none was wrong yet.
fn took_next(
    a: Asked,
    n: u32,
    word: &[u8],
    pages: &mut [u32],
    frames: &mut [u32],
    table: &mut [u32],
) -> Result<Asked, Asked>
    ensures { going result pages.new frames.new table.new ≡ took_word (going (Ok a) pages.old frames.old table.old) n word.now }
{
    let named = is(word, b"partition");
    match a.awaits {
        Awaits::Partition => {
            if named {
                Ok(awaiting_frames(a, 0))
            } else {
                Err(a)
            }
        }
        Awaits::Frames => framed(a, word, pages, frames),
        Awaits::Image => {
            if named {
                Err(a)
            } else {
                imaged(a, n, word, table)
            }
        }
        Awaits::ImageOrPartition => {
            if named {
                Ok(awaiting_frames(a, a.owner.wrapping_add(1)))
            } else {
                imaged(a, n, word, table)
            }
        }
    }
}

// One word more, word n; an error says where the words stood when one was wrong, this one or one before it.
pub fn took_word(
    a: Result<Asked, Asked>,
    n: u32,
    word: &[u8],
    pages: &mut [u32],
    frames: &mut [u32],
    table: &mut [u32],
) -> Result<Asked, Asked>
    ensures { going result pages.new frames.new table.new ≡ took_word (going a pages.old frames.old table.old) n word.now }
{
    took_next(a?, n, word, pages, frames, table)
}
