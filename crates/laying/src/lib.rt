// Images laid into a memory, and their slip.
#![tactic(auto)]

ghost use Rattle.std.specs.Prelude.{◌≡◌, ℕ, ◌+◌, ◌*◌, ◌/◌, ◌%◌, ◌<◌, ◌≤◌, min, max, length, nat_lt, slice_index, slice_set};
ghost use Rattle.addresses.specs.Memory.{place};
ghost use Rattle.house.specs.Boot.{offset};
ghost use Rattle.house.specs.Lists.{any};
ghost use Rattle.decimal.specs.Texts.{Puts};
ghost use Rattle.contents.specs.Contents.{list_words, Listed};
ghost use Rattle.laying.specs.Laid.{laid_words, sum_words, count_of, meeting, fault_of};
ghost use Rattle.laying.specs.Slip.{place_text, slip_text};

use decimal::put_text;
use dlx::words::wide;
use report::put_word;

// ---- one image

// Word i of a page that lies in this frame.
fn in_frame(frame: u32, i: usize) -> usize
    ensures { result ≡ frame * 1024 + i % 1024 }
{
    wide(frame) * 1024 + i % 1024
}

// Where word i of the partition that has these frames stands in the memory.
fn place_of(frames: &[u32], i: usize) -> usize
    ensures { result ≡ place frames.now i }
{
    let page = i / 1024;
    let frame = frames.get(page).copied().unwrap_or(0);
    in_frame(frame, i)
}

// A word at its place; none where the memory ends before it.
fn set_word(memory: &mut [u32], at: usize, w: u32)
    ensures { memory.new ≡ slice_set memory.old at w }
{
    if at < memory.len() {
        memory[at] = w;
    }
}

// The words of an image, from word `first` of the partition on. Answers their sum.
fn lay(frames: &[u32], first: usize, bytes: &[u8], memory: &mut [u32]) -> u32
    requires { first < 1073741824 }
    ensures memory_after { memory.new ≡ laid_words frames.now first bytes.now memory.old (count_of bytes.now) }
    ensures value { result ≡ sum_words bytes.now (count_of bytes.now) }
{
    let (words, _) = bytes.as_chunks::<4>();
    let mut sum: u32 = 0;
    for (k, word) in words.iter().enumerate() {
        let w = u32::from_le_bytes(*word);
        let at = place_of(frames, first + k);
        set_word(memory, at, w);
        sum = sum.wrapping_add(w);
    }
    sum
}

// ---- in its partition's pages

// A partition's pages.
fn pages_of(pages: &[u32], owner: u32) -> u32
    ensures { result ≡ slice_index pages.now owner }
{
    pages.get(wide(owner)).copied().unwrap_or(0)
}

// Where its frames begin in the list.
fn offset_of(pages: &[u32], owner: u32) -> usize
    requires { (i : ℕ) → slice_index pages.now i ≤ 256 }
    ensures { result ≡ offset pages.now owner }
{
    let mut from: usize = 0;
    for i in 0..owner {
        from += wide(pages_of(pages, i));
    }
    from
}

// An image laid at an address of a partition. Answers the sum of its words.
pub fn lay_image(
    pages: &[u32],
    frames: &[u32],
    owner: u32,
    address: u32,
    bytes: &[u8],
    memory: &mut [u32],
) -> u32
    requires { Listed pages.now frames.now }
    ensures memory_after { memory.new ≡ laid_words (list_words pages.now frames.now owner) (address / 4) bytes.now memory.old (count_of bytes.now) }
    ensures value { result ≡ sum_words bytes.now (count_of bytes.now) }
{
    let from = offset_of(pages, owner);
    let to = from + wide(pages_of(pages, owner));
    let first = wide(address) / 4;
    lay(&frames[from..to], first, bytes, memory)
}

// ---- whether it may be laid

// A word of m, from one address on, stands where one of n does, from another one on.
fn crossing(a: u32, m: u32, b: u32, n: usize) -> bool
    requires { n < 1073741824 }
    ensures { result ≡ nat_lt (max (a / 4) (b / 4)) (min (a / 4 + m) (b / 4 + n)) }
{
    let first = wide(a) / 4;
    let other = wide(b) / 4;
    let end = first + wide(m);
    first.max(other) < end.min(other + n)
}

// Image j of the table stands where one of n words of image k would.
fn meets(table: &[u32], counts: &[u32], k: u32, n: usize, j: u32) -> bool
    requires k_bound { k < 64 }
    requires j_bound { j < 64 }
    requires n_bound { n < 1073741824 }
    requires table_length { length table.now ≡ 192 }
    requires counts_length { length counts.now ≡ 64 }
    ensures { result ≡ meeting table.now counts.now k n j }
{
    let i = wide(j);
    let a = 3 * i;
    let b = 3 * wide(k);
    table[a] == table[b] && crossing(table[a + 1], counts[i], table[b + 1], n)
}

// One of those before it does.
fn meets_any(table: &[u32], counts: &[u32], k: u32, n: usize) -> bool
    requires k_bound { k < 64 }
    requires n_bound { n < 1073741824 }
    requires table_length { length table.now ≡ 192 }
    requires counts_length { length counts.now ≡ 64 }
    ensures { result ≡ any (meeting table.now counts.now k n) k }
{
    (0..k).any(|j| meets(table, counts, k, n, j))
}

// So many bytes from an address on go beyond so many pages.
fn beyond(pages: u32, address: u32, size: usize) -> bool
    requires { size < 1073741824 }
    ensures { result ≡ nat_lt (4096 * pages) (address + size) }
{
    4096 * wide(pages) < wide(address) + size
}

// Why an image is not laid: it has no whole number of words, a word of it is beyond the pages, or stands where another image of the same partition has one.
#[derive(Clone, Copy)]
pub enum Fault {
    PartOfAWord,
    BeyondThePages,
    OnAnother,
}

// Why image k, of so many bytes, is not laid behind those before it; none where it may be.
pub fn fault_of(pages: &[u32], table: &[u32], counts: &[u32], k: u32, size: usize) -> Option<Fault>
    requires k_bound { k < 64 }
    requires size_bound { size < 1073741824 }
    requires table_length { length table.now ≡ 192 }
    requires counts_length { length counts.now ≡ 64 }
    ensures { result ≡ fault_of pages.now table.now counts.now k size }
{
    if size % 4 != 0 {
        return Some(Fault::PartOfAWord);
    }
    let at = 3 * wide(k);
    let room = pages_of(pages, table[at]);
    if beyond(room, table[at + 1], size) {
        return Some(Fault::BeyondThePages);
    }
    if meets_any(table, counts, k, size / 4) {
        return Some(Fault::OnAnother);
    }
    None
}

// ---- its line on the slip

// Where it went.
fn put_place(out: &mut [u8], at: usize, owner: u32, address: u32) -> usize
    ensures { Puts out.old at out.new result (place_text owner address) 41 }
{
    let first = put_text(out, at, b"partition ");
    let second = put_word(out, first, owner, b',');
    let third = put_text(out, second, b" address ");
    put_word(out, third, address, b':')
}

// A line up to the image's name.
pub fn put_slip(out: &mut [u8], at: usize, owner: u32, address: u32, count: u32, sum: u32) -> usize
    ensures { Puts out.old at out.new result (slip_text owner address count sum) 76 }
{
    let first = put_place(out, at, owner, address);
    let second = put_text(out, first, b" ");
    let third = put_word(out, second, count, b' ');
    let fourth = put_text(out, third, b"words, sum ");
    let fifth = put_word(out, fourth, sum, b':');
    put_text(out, fifth, b" ")
}
