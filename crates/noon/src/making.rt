// The house file made: refused as the night would, or written and told.
ghost use Rattle.std.specs.Prelude.{◌≡◌, List, ℕ, ◌≤◌, length, OnOk};
ghost use Rattle.house.specs.Boot.{verdict};
ghost use Rattle.house.specs.Refusals.{refusal as verdict_of_refusal, verdict_of};
ghost use Rattle.housefile.specs.Records.{file, right};
ghost use Rattle.night_run.specs.Ran.{ran_of};
ghost use Rattle.contents.specs.Contents.{contents_file, Listed};
ghost use Rattle.report.specs.Report.{refusal as refusal_text};
ghost use Rattle.noon.specs.Noon.{night_refusal, Given, LaidAll, Made};

use crate::images::{lay_all, tell_all};
use crate::words::ask;
use asked::asked::Awaits;
use boot::boot;
use command::{put_out, wrong};
use contents::{MOST, put_contents};
use dlx::words::wide;
use house::Refusal;
use hypervisor::calls::check_run;
use report::text_of_refusal;
use written::{begin, end, put};

// ---- what the night would refuse

// Does the night refuse a file that says this, whatever its memory holds?
fn check_night(q: u32, run: u32, pages: &[u32], frames: &[u32]) -> Result<(), Refusal>
    requires { 1 ≤ length pages.now }
    ensures by_index { (m : List ℕ) → length m ≡ 16384 → verdict_of 0 result ≡ night_refusal (ran_of (right (file q run pages.now frames.now m))) }
    ensures listed { OnOk result (Listed pages.now frames.now) }
{
    let memory = [0u32; 16384];
    let booted = boot(pages, q, frames, &memory)?;
    check_run(booted.house, 16384, run)
}

// Prints a refusal: the one that the night would.
fn show(rt: &HostRuntime, q: u32, run: u32, pages: &[u32], frames: &[u32], text: &[u8])
    requires { (m : List ℕ) → length m ≡ 16384 → text.now ≡ refusal_text (night_refusal (ran_of (right (file q run pages.now frames.now m)))) }
{
    put_out(rt, text);
}

fn tell_refusal(rt: &HostRuntime, refusal: Refusal, q: u32, run: u32, pages: &[u32], frames: &[u32])
    requires { (m : List ℕ) → length m ≡ 16384 → verdict_of_refusal refusal ≡ night_refusal (ran_of (right (file q run pages.now frames.now m))) }
{
    let mut out = [0u8; 1024];
    let n = text_of_refusal(refusal, &mut out);
    show(rt, q, run, pages, frames, &out[..n]);
}

// ---- what is written

// Writes the file: that of these contents, which the words ask for, and which the night runs.
fn put_file(
    rt: &HostRuntime,
    q: u32,
    run: u32,
    images: u32,
    pages: &[u32],
    frames: &[u32],
    table: &[u32],
    memory: &[u32],
    path: &[u8],
    bytes: &[u8],
) -> bool
    requires { (Made q run pages.now frames.now table.now memory.now images) × (bytes.now ≡ contents_file (file q run pages.now frames.now memory.now)) }
{
    let w = begin(rt, path);
    let x = put(rt, w, path, bytes);
    end(rt, x, path)
}

fn write_file(
    rt: &HostRuntime,
    q: u32,
    run: u32,
    images: u32,
    pages: &[u32],
    frames: &[u32],
    table: &[u32],
    memory: &[u32],
    path: &[u8],
) -> bool
    requires listed { Listed pages.now frames.now }
    requires memory_length { length memory.now ≡ 16384 }
    requires given { Given pages.now frames.now table.now images }
    requires laid_all { LaidAll pages.now frames.now table.now memory.now images }
    requires night_runs { night_refusal (ran_of (right (file q run pages.now frames.now memory.now))) ≡ verdict 0 0 }
{
    let mut out = [0u8; MOST];
    let n = put_contents(q, run, pages, frames, memory, &mut out);
    put_file(
        rt,
        q,
        run,
        images,
        pages,
        frames,
        table,
        memory,
        path,
        &out[..n],
    )
}

// ---- all of it

// Of these lists and this table of images.
fn make_listed(
    rt: &HostRuntime,
    q: u32,
    run: u32,
    images: u32,
    pages: &[u32],
    frames: &[u32],
    table: &[u32],
    path: &[u8],
)
    requires pages_room { 1 ≤ length pages.now }
    requires images_bound { images ≤ 64 }
    requires table_length { length table.now ≡ 192 }
    requires given { Given pages.now frames.now table.now images }
{
    if let Err(refusal) = check_night(q, run, pages, frames) {
        tell_refusal(rt, refusal, q, run, pages, frames);
        return;
    }
    let mut counts = [0u32; 64];
    let mut sums = [0u32; 64];
    let mut memory = [0u32; 16384];
    if !lay_all(
        rt,
        images,
        pages,
        frames,
        table,
        &mut counts,
        &mut sums,
        &mut memory,
    ) {
        return;
    }
    if !write_file(rt, q, run, images, pages, frames, table, &memory, path) {
        return;
    }
    tell_all(rt, images, table, &counts, &sums);
}

// Of the words from the fourth on.
pub fn make(rt: &HostRuntime, given: u32, path: &[u8], q: u32, run: u32)
    requires { 4 ≤ given }
{
    let mut pages = [0u32; 65];
    let mut frames = [0u32; 2048];
    let mut table = [0u32; 192];
    let Some(a) = ask(rt, given, &mut pages, &mut frames, &mut table) else {
        return;
    };
    if a.awaits != Awaits::ImageOrPartition {
        wrong(rt, b"an image", b"no more words");
        return;
    }
    let count = (wide(a.owner) + 1).min(65);
    let total = wide(a.total).min(2048);
    let images = a.images.min(64);
    make_listed(
        rt,
        q,
        run,
        images,
        &pages[..count],
        &frames[..total],
        &table,
        path,
    );
}
