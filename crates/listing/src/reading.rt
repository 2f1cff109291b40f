// The word of a line.
ghost use Rattle.std.specs.Prelude.{◌≡◌, ◌≤◌, fold};
ghost use Rattle.lines.specs.Lines.{with_letter, with_digit, scanned, start, last_of, candidate, right};

use crate::table::row_lettered;
use crate::writing::{LONGEST, made, put_line};
use decimal::is;
use lines::Scan;

fn with_letter(s: Scan, b: u8) -> Scan
    ensures { result ≡ with_letter s b }
{
    let more = s.letters as u64 * 32 + (b % 32) as u64;
    Scan {
        letters: (more % 4294967296) as u32,
        ..s
    }
}

fn with_digit(s: Scan, b: u8) -> Scan
    requires { 48 ≤ b }
    ensures { result ≡ with_digit s b }
{
    let more = s.third as u64 * 10 + (b - 48) as u64;
    Scan {
        third: (more % 4294967296) as u32,
        ..s
    }
}

// With one byte more.
#[tactic(auto, unfolding(lines::specs::Lines::scanned))]
fn with_byte(s: Scan, b: u8) -> Scan
    ensures { result ≡ scanned s b }
{
    match b {
        b' ' => Scan {
            first: s.second,
            second: s.third,
            third: 0,
            ..s
        },
        b'-' => Scan { minus: true, ..s },
        b'0'..=b'9' => with_digit(s, b),
        _ => with_letter(s, b),
    }
}

fn scan_of(line: &[u8]) -> Scan
    ensures { result ≡ fold scanned start line.now }
{
    line.iter().fold(Scan::default(), |s, b| with_byte(s, *b))
}

// The last number, with its sign.
fn last(s: Scan) -> u64
    ensures { result ≡ last_of s }
{
    if s.minus {
        return 4294967296 - s.third as u64;
    }
    s.third as u64
}

// The only word that the line can be of.
pub fn candidate(line: &[u8]) -> u32
    ensures { result ≡ candidate line.now }
{
    let s = scan_of(line);
    let row = row_lettered(s.letters);
    made(row, s.first as u64, s.second as u64, last(s))
}

// The line is that of its candidate.
pub fn right(line: &[u8]) -> bool
    ensures { result ≡ right line.now }
{
    if line.len() > 80 {
        return false;
    }
    let w = candidate(line);
    let mut buffer = [0u8; LONGEST];
    let end = put_line(&mut buffer, 0, w);
    is(&buffer[..end], line)
}
