// A house and its memory kept as a file: the pieces of its file, one after the other, written whole or not at all.
#![tactic(auto)]

ghost use Rattle.std.specs.Prelude.{◌≡◌, ◌+◌, IfSome, length};
ghost use Rattle.house.specs.Turns.{world};
ghost use Rattle.keep.specs.Kept.{Part, Whole};

use command::wrong;
use house::House;
use saver::piece::save;
use written::{Writing, begin, discard, end, put};

// Writes a piece: the next bytes of the file of this house and memory.
fn put_part(
    rt: &HostRuntime,
    w: Writing,
    house: House,
    memory: &[u32],
    path: &[u8],
    piece: &[u8],
) -> Option<Writing>
    requires { Part (world house memory.now) w.bytes piece.now }
    ensures { IfSome result (λ x. x.bytes ≡ w.bytes + length piece.now) }
{
    put(rt, Some(w), path, piece)
}

// The file takes its name: all bytes of the file of this house and memory are written.
fn close(rt: &HostRuntime, w: Writing, house: House, memory: &[u32], path: &[u8]) -> bool
    requires { Whole (world house memory.now) w }
{
    end(rt, Some(w), path)
}

// Writes the pieces, one after the other. Where one cannot be saved or written, why is told, and the file goes away.
fn keep_pieces(
    rt: &HostRuntime,
    w: Writing,
    house: House,
    memory: &[u32],
    path: &[u8],
) -> Option<Writing>
    requires { w.bytes ≡ 0 }
    ensures { IfSome result (λ x. Whole (world house memory.now) x) }
{
    let mut w = w;
    'pieces: loop {
        let mut buffer = files::large_buffer();
        let Ok(n) = save(house, memory, w.count(), &mut buffer) else {
            wrong(rt, b"a house that can be saved", b"one that is damaged");
            discard(rt, w, path);
            return None;
        };
        if n == 0 {
            return Some(w);
        }
        w = put_part(rt, w, house, memory, path, &buffer[..n])?;
    }
}

// Keeps the house and its memory as the file of this path. Answers whether it is there; where it is not, why is told, and the file of that name is as it was.
pub fn keep(rt: &HostRuntime, house: House, memory: &[u32], path: &[u8]) -> bool {
    let Some(begun) = begin(rt, path) else {
        return false;
    };
    match keep_pieces(rt, begun, house, memory, path) {
        Some(w) => close(rt, w, house, memory, path),
        None => false,
    }
}
