// A file that is there whole or not at all: it is written under another name beside it, synced and renamed. What goes wrong is told on standard error, and the
// file of that name stays as it was.
#![tactic(auto)]

ghost use Rattle.std.specs.Prelude.{◌≡◌, ◌+◌, ◌≤◌, IfSome, IsSomeAnd, length, take};
ghost use Rattle.files.specs.Counts.{IsPrefixLen};
ghost use Rattle.written.specs.Names.{beside};

use command::{done, fail, wrong};
use decimal::put_text;
use files::{Target, is_missing, remove, rename};
use std::io;

// A file that is being written: so many bytes have gone to it.
#[derive(Drop)]
pub struct Writing {
    file: Target,
    bytes: u64,
}

impl Writing {
    // How many bytes have gone to the file.
    pub fn count(&self) -> u64
        ensures { result ≡ self.now.bytes }
    {
        self.bytes
    }
}

// ---- the file's name, and the one beside it

// The name may be taken: there is no file of it, or one that may be written and can be synced. Nothing else is replaced, such as a device.
fn may_be_taken(rt: &HostRuntime, path: &[u8]) -> bool {
    match Target::update(rt, path) {
        Ok(file) => done(rt, path, file.sync()),
        Err(why) if is_missing(why) => true,
        Err(why) => {
            fail(rt, path, why);
            false
        }
    }
}

// Puts the path and `.new` behind it, and answers where that ends.
fn put_beside(path: &[u8], name: &mut [u8]) -> usize
    requires path_length { length path.now ≤ 4092 }
    requires name_length { length name.old ≡ 4096 }
    ensures name_after { take result name.new ≡ beside path.now }
    ensures prefix_len { IsPrefixLen result name.new }
{
    let n = put_text(name, 0, path);
    put_text(name, n, b".new")
}

// How much of the path is the folder's, with the slash that ends it.
fn folder_length(path: &[u8]) -> usize
    ensures { IsPrefixLen result path.now }
{
    match path.iter().rposition(|b| *b == b'/') {
        Some(n) => n + 1,
        None => 0,
    }
}

// ---- writing

// Makes the file beside; one that a program left there when it was ended is replaced.
fn made(rt: &HostRuntime, path: &[u8], name: &[u8]) -> Option<Writing>
    ensures { IfSome result (λ w. w.bytes ≡ 0) }
{
    let _ = remove(rt, name);
    match Target::create(rt, name) {
        Ok(file) => Some(Writing { file, bytes: 0 }),
        Err(why) => {
            fail(rt, path, why);
            None
        }
    }
}

// Begins to write the file of this path. Where that cannot be, why is told.
pub fn begin(rt: &HostRuntime, path: &[u8]) -> Option<Writing>
    ensures { IfSome result (λ w. w.bytes ≡ 0) }
{
    if path.len() > 4091 {
        wrong(rt, b"a name of at most 4091 bytes", b"a longer one");
        return None;
    }
    if !may_be_taken(rt, path) {
        return None;
    }
    let mut name = files::buffer();
    let n = put_beside(path, &mut name);
    made(rt, path, &name[..n])
}

// The file beside goes away, and nothing takes the name. Of a path that is too long none is there.
pub fn discard(rt: &HostRuntime, w: Writing, path: &[u8]) {
    if path.len() <= 4091 {
        let mut name = files::buffer();
        let n = put_beside(path, &mut name);
        let _ = remove(rt, &name[..n]);
    }
    drop(w);
}

// Writes a piece behind the others. Where that fails, why is told, and the file goes away; so it does where 2^64 bytes would have gone to it.
pub fn put(rt: &HostRuntime, w: Option<Writing>, path: &[u8], piece: &[u8]) -> Option<Writing>
    ensures { IfSome result (λ x. IsSomeAnd w (λ before. x.bytes ≡ before.bytes + length piece.now)) }
{
    let mut w = w?;
    if let Some(bytes) = w.bytes.checked_add(piece.len() as u64) {
        if done(rt, path, w.file.write(piece)) {
            return Some(Writing {
                file: w.file,
                bytes,
            });
        }
    }
    discard(rt, w, path);
    None
}

// ---- the end

// How many bytes the file of this name has.
fn length_of(rt: &HostRuntime, name: &[u8]) -> io::Result<u64> {
    Target::look_at(rt, name)?.length()
}

// The file beside has as many bytes as were written: no other program has put its own there meanwhile.
fn has_all(rt: &HostRuntime, name: &[u8], bytes: u64) -> bool {
    match length_of(rt, name) {
        Ok(n) => n == bytes,
        Err(_) => false,
    }
}

// Syncs the folder, so that the new name lasts.
fn sync_folder(rt: &HostRuntime, folder: &[u8]) -> bool {
    match Target::look_at(rt, folder) {
        Ok(file) => done(rt, folder, file.sync()),
        Err(why) => {
            fail(rt, folder, why);
            false
        }
    }
}

fn sync_beside(rt: &HostRuntime, path: &[u8]) -> bool {
    let n = folder_length(path);
    if n == 0 {
        return sync_folder(rt, b".");
    }
    sync_folder(rt, &path[..n])
}

// Syncs the file, and lets it take its name. What fails is told.
fn named(rt: &HostRuntime, w: &Writing, path: &[u8], name: &[u8]) -> bool {
    if !done(rt, path, w.file.sync()) {
        return false;
    }
    if !has_all(rt, name, w.bytes) {
        wrong(rt, b"no other program that writes it", path);
        return false;
    }
    done(rt, path, rename(rt, name, path))
}

// Ends the writing: the file takes its name, or goes away where anything went wrong. Answers whether the new one is there and will last.
pub fn end(rt: &HostRuntime, w: Option<Writing>, path: &[u8]) -> bool {
    let Some(w) = w else {
        return false;
    };
    if path.len() > 4091 {
        return false;
    }
    let mut name = files::buffer();
    let n = put_beside(path, &mut name);
    if !named(rt, &w, path, &name[..n]) {
        discard(rt, w, path);
        return false;
    }
    drop(w);
    sync_beside(rt, path)
}
