// Plain steps on end in one page of code. Nothing in the loop can change the table, the shadow or the mode: so the page's frame is looked up once.
#![tactic(auto)]

ghost use Rattle.std.specs.Prelude.{◌≡◌, ◌/◌, ◌<◌, length, slice_index};
ghost use Rattle.dlx.specs.Words.{plus};
ghost use Rattle.dlx.specs.Processor.{user};
ghost use Rattle.addresses.specs.Premises.{Placed, Shadowed};
ghost use Rattle.plain.specs.Plain.{pair_of, Numbered};
ghost use Rattle.quick.specs.Quick.{away_of, Cached, Goes, Found};

use dlx::partition::{Processor, Table};
use dlx::words::wide;

// What a run of plain steps leaves beside the registers and the words: how many of the steps are still to make, and the word at DPC, or 0 where it was not read.
#[derive(Clone, Copy)]
pub struct Quick {
    pub dpc: u32,
    pub pc: u32,
    pub rest: u32,
    // Not an Option: with one, a step costs 30.9 instructions and not 29.8 (docs/SPEED.md, registers).
    pub word: u32,
}

// No word of a page begins so far behind its first address.
fn away(x: u32) -> bool
    ensures { result ≡ away_of x }
{
    (x % 4 != 0) | (4096 <= x)
}

// The word of a page that begins x behind its first address.
fn fetch(page: &[u32], x: u32) -> u32
    requires page_length { length page.now ≡ 1024 }
    requires x_bound { x < 4096 }
    ensures { result ≡ slice_index page.now (x / 4) }
{
    page[wide(x / 4)]
}

// The pair x and y behind the page's first address.
fn quit(page: u32, x: u32, y: u32, rest: u32, word: u32) -> Quick
    ensures { (result.dpc ≡ plus x page) × (result.pc ≡ plus y page) × (result.rest ≡ rest) × (result.word ≡ word) }
{
    let dpc = std::num::wrapping_add_u32(x, page);
    let pc = std::num::wrapping_add_u32(y, page);
    Quick {
        dpc,
        pc,
        rest,
        word,
    }
}

// Plain steps in one page, whose frame begins at a word of the memory, up to k.
fn in_page(
    specials: &[u32],
    p: Processor,
    t: Table,
    pages: u32,
    page: u32,
    base: usize,
    regs: &mut [u32],
    frames: &[u32],
    shadow: &[u32],
    words: &mut [u32],
    k: u32,
) -> Quick
    requires regs_length { length regs.old ≡ 32 }
    requires placed { Placed frames.now pages (length words.old) }
    requires shadowed { Shadowed frames.now pages shadow.now }
    requires cached { Cached frames.now pages shadow.now (user p) page base }
    requires numbered { Numbered specials.now p t }
    ensures { (Goes frames.now pages t shadow.now k result.rest p regs.old words.old (pair_of p result.dpc result.pc) regs.new words.new) × (length regs.new ≡ length regs.old) × (length words.new ≡ length words.old) × (Found frames.now pages t shadow.now (pair_of p result.dpc result.pc) regs.new words.new result.word) }
{
    let held = plain::held(frames, pages, t);
    let mut x = std::num::wrapping_sub_u32(p.dpc, page);
    let mut y = std::num::wrapping_sub_u32(p.pc, page);
    for left in (0..k).rev() {
        if away(x) {
            return quit(page, x, y, left + 1, 0);
        }
        let w = fetch(&words[base..base + 1024], x);
        let Some(target) = plain::act(
            specials, p, t, held, pages, w, page, y, regs, frames, shadow, words,
        ) else {
            return quit(page, x, y, left + 1, w);
        };
        x = y;
        y = target;
    }
    quit(page, x, y, 0, 0)
}

// Plain steps up to k.
pub fn plain(
    specials: &[u32],
    p: Processor,
    t: Table,
    pages: u32,
    regs: &mut [u32],
    frames: &[u32],
    shadow: &[u32],
    words: &mut [u32],
    k: u32,
) -> Quick
    requires regs_length { length regs.old ≡ 32 }
    requires placed { Placed frames.now pages (length words.old) }
    requires shadowed { Shadowed frames.now pages shadow.now }
    requires numbered { Numbered specials.now p t }
    ensures { (Goes frames.now pages t shadow.now k result.rest p regs.old words.old (pair_of p result.dpc result.pc) regs.new words.new) × (length regs.new ≡ length regs.old) × (length words.new ≡ length words.old) × (Found frames.now pages t shadow.now (pair_of p result.dpc result.pc) regs.new words.new result.word) }
{
    let mut dpc = p.dpc;
    let mut pc = p.pc;
    let mut rest = k;
    // Not a `for`: the steps in a page are made at once.
    while rest > 0 {
        let e = plain::seen(frames, shadow, pages, p.mode == 1, dpc);
        if e / 2048 % 2 != 1 {
            return Quick {
                dpc,
                pc,
                rest,
                word: 0,
            };
        }
        let page = dpc - dpc % 4096;
        let base = wide(e / 4096) * 1024;
        let mut r = p;
        r.dpc = dpc;
        r.pc = pc;
        let q = in_page(
            specials, r, t, pages, page, base, regs, frames, shadow, words, rest,
        );
        if q.word != 0 {
            return q;
        }
        if q.rest == rest {
            return q;
        }
        dpc = q.dpc;
        pc = q.pc;
        rest = q.rest;
    }
    Quick {
        dpc,
        pc,
        rest,
        word: 0,
    }
}
