// The images, read and laid one after the other.
ghost use Rattle.std.specs.Prelude.{◌≡◌, true, false, ℕ, ◌+◌, ◌*◌, ◌<◌, ◌≤◌, length, get_or, replicate};
ghost use Rattle.contents.specs.Contents.{Listed};
ghost use Rattle.laying.specs.Slip.{slip_text};
ghost use Rattle.noon.specs.Noon.{Laid, LaidNext};

use asked::words::{name_length, put_at};
use command::{fail, open, put_out, wrong};
use decimal::is;
use dlx::words::wide;
use files::{Source, print};
use laying::{Fault, fault_of, lay_image, put_slip};
use std::io;

// ---- one image

fn tell_fault(rt: &HostRuntime, fault: Fault, name: &[u8]) {
    match fault {
        Fault::PartOfAWord => wrong(rt, b"an image of whole words, 4 bytes each", name),
        Fault::BeyondThePages => wrong(
            rt,
            b"an image that ends within its partition's pages",
            name,
        ),
        Fault::OnAnother => wrong(rt, b"an image apart from the others of its partition", name),
    }
}

// Image k, which has these bytes. Answers whether it is laid.
fn lay_bytes(
    rt: &HostRuntime,
    k: u32,
    name: &[u8],
    bytes: &[u8],
    pages: &[u32],
    frames: &[u32],
    table: &[u32],
    counts: &mut [u32],
    sums: &mut [u32],
    memory: &mut [u32],
) -> bool
    requires listed { Listed pages.now frames.now }
    requires k_bound { k < 64 }
    requires bytes_length { length bytes.now ≤ 65536 }
    requires table_length { length table.now ≡ 192 }
    requires counts_length { length counts.old ≡ 64 }
    ensures { result ≡ true → LaidNext pages.now frames.now table.now k counts.old sums.old memory.old counts.new sums.new memory.new }
{
    if let Some(fault) = fault_of(pages, table, counts, k, bytes.len()) {
        tell_fault(rt, fault, name);
        return false;
    }
    let at = 3 * wide(k);
    let sum = lay_image(pages, frames, table[at], table[at + 1], bytes, memory);
    put_at(counts, k, 0, (bytes.len() / 4) as u32);
    put_at(sums, k, 0, sum);
    true
}

// The input is at its end: a read brings no byte, and does not fail.
fn at_end(source: &mut Source) -> bool {
    let mut buffer = files::buffer();
    source.read(&mut buffer) == 0
}

// Image k, from its source. More than 64 KiB are beyond any partition's pages.
fn lay_open(
    rt: &HostRuntime,
    k: u32,
    source: &mut Source,
    name: &[u8],
    pages: &[u32],
    frames: &[u32],
    table: &[u32],
    counts: &mut [u32],
    sums: &mut [u32],
    memory: &mut [u32],
) -> bool
    requires listed { Listed pages.now frames.now }
    requires k_bound { k < 64 }
    requires table_length { length table.now ≡ 192 }
    requires counts_length { length counts.old ≡ 64 }
    ensures { result ≡ true → LaidNext pages.now frames.now table.now k counts.old sums.old memory.old counts.new sums.new memory.new }
{
    let mut buffer = files::large_buffer();
    let n = source.read_full(&mut buffer);
    if n < 65536 && !at_end(source) {
        fail(rt, name, source.why());
        return false;
    }
    lay_bytes(
        rt,
        k,
        name,
        &buffer[..n],
        pages,
        frames,
        table,
        counts,
        sums,
        memory,
    )
}

// The system's number of an error: the input is closed.
const CLOSED: i32 = 9;

// Image k is read from standard input.
fn is_input(rt: &HostRuntime, k: u32, table: &[u32]) -> bool
    requires at_most_64 { k < 64 }
    requires rows { length table.now ≡ 192 }
{
    let mut word = files::buffer();
    let length = files::word(rt, wide(table[3 * wide(k) + 2]), &mut word);
    let n = name_length(&word[..length]);
    is(&word[..n], b"-")
}

// One of the images before image k was.
fn was_read(rt: &HostRuntime, k: u32, table: &[u32]) -> bool
    requires at_most_64 { k < 64 }
    requires rows { length table.now ≡ 192 }
{
    (0..k).any(|j| is_input(rt, j, table))
}

// Opens what image k is read from. Standard input is read once, and closed then.
fn open_image(rt: &HostRuntime, k: u32, table: &[u32], name: &[u8]) -> io::Result<Source>
    requires at_most_64 { k < 64 }
    requires rows { length table.now ≡ 192 }
{
    if is(name, b"-") && was_read(rt, k, table) {
        return Err(io::Error::from_raw_os_error(CLOSED));
    }
    open(rt, name)
}

// Image k, by its name.
fn lay_next(
    rt: &HostRuntime,
    k: u32,
    pages: &[u32],
    frames: &[u32],
    table: &[u32],
    counts: &mut [u32],
    sums: &mut [u32],
    memory: &mut [u32],
) -> bool
    requires listed { Listed pages.now frames.now }
    requires k_bound { k < 64 }
    requires table_length { length table.now ≡ 192 }
    requires counts_length { length counts.old ≡ 64 }
    ensures { result ≡ true → LaidNext pages.now frames.now table.now k counts.old sums.old memory.old counts.new sums.new memory.new }
{
    let mut word = files::buffer();
    let length = files::word(rt, wide(table[3 * wide(k) + 2]), &mut word);
    let n = name_length(&word[..length]);
    match open_image(rt, k, table, &word[..n]) {
        Ok(mut source) => lay_open(
            rt,
            k,
            &mut source,
            &word[..n],
            pages,
            frames,
            table,
            counts,
            sums,
            memory,
        ),
        Err(why) => {
            fail(rt, &word[..n], why);
            false
        }
    }
}

// ---- all of them

pub fn lay_all(
    rt: &HostRuntime,
    images: u32,
    pages: &[u32],
    frames: &[u32],
    table: &[u32],
    counts: &mut [u32],
    sums: &mut [u32],
    memory: &mut [u32],
) -> bool
    requires listed { Listed pages.now frames.now }
    requires images_bound { images ≤ 64 }
    requires table_length { length table.now ≡ 192 }
    requires lengths { (length counts.old ≡ 64) × (length sums.old ≡ 64) }
    requires memory_zeros { memory.old ≡ replicate 16384 0 }
    ensures { result ≡ true → Laid pages.now frames.now table.now counts.new sums.new memory.new images }
{
    for k in 0..images {
        if !lay_next(rt, k, pages, frames, table, counts, sums, memory) {
            return false;
        }
    }
    true
}

// ---- their slip

// A line: that of image k.
fn show(
    rt: &HostRuntime,
    k: u32,
    table: &[u32],
    counts: &[u32],
    sums: &[u32],
    text: &[u8],
    name: &[u8],
)
    requires { text.now ≡ slip_text (get_or table.now (3 * k) 0) (get_or table.now (3 * k + 1) 0) (get_or counts.now k 0) (get_or sums.now k 0) }
{
    if !put_out(rt, text) {
        return;
    }
    let _ = print(rt, name);
    let _ = print(rt, b"\n");
}

fn tell_image(rt: &HostRuntime, k: u32, table: &[u32], counts: &[u32], sums: &[u32])
    requires k_bound { k < 64 }
    requires table_length { length table.now ≡ 192 }
    requires counts_length { length counts.now ≡ 64 }
    requires sums_length { length sums.now ≡ 64 }
{
    let i = wide(k);
    let at = 3 * i;
    let mut out = [0u8; 80];
    let end = put_slip(&mut out, 0, table[at], table[at + 1], counts[i], sums[i]);
    let mut word = files::buffer();
    let length = files::word(rt, wide(table[at + 2]), &mut word);
    let n = name_length(&word[..length]);
    show(rt, k, table, counts, sums, &out[..end], &word[..n]);
}

pub fn tell_all(rt: &HostRuntime, images: u32, table: &[u32], counts: &[u32], sums: &[u32])
    requires images_bound { images ≤ 64 }
    requires table_length { length table.now ≡ 192 }
    requires counts_length { length counts.now ≡ 64 }
    requires sums_length { length sums.now ≡ 64 }
{
    for k in 0..images {
        tell_image(rt, k, table, counts, sums);
    }
}
