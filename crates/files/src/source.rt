// An input that is read: a file, or standard input.
ghost use Rattle.std.specs.Prelude.{◌≡◌, length};
ghost use Rattle.std.specs.Io.{ReadsAtMost};
ghost use Rattle.files.specs.Counts.{IsPrefixLen, Moved};

use crate::{count, name_of, none};
use std::fs::File;
use std::io;
use std::io::{Read, Stdin};

#[derive(Drop)]
enum Origin {
    Opened(File),
    Standard(Stdin),
}

// It keeps what the system said of the last read that failed.
#[derive(Drop)]
pub struct Source {
    origin: Origin,
    why: io::Error,
}

fn read_once(origin: &mut Origin, buffer: &mut [u8]) -> io::Result<usize>
    ensures { ReadsAtMost result buffer.new }
{
    match origin {
        Origin::Opened(file) => file.read(buffer),
        Origin::Standard(stdin) => stdin.read(buffer),
    }
}

impl Source {
    pub fn standard_input(rt: &HostRuntime) -> Source {
        Source {
            origin: Origin::Standard(rt.stdin()),
            why: none(),
        }
    }

    // The file of this name.
    pub fn open(rt: &HostRuntime, path: &[u8]) -> io::Result<Source> {
        let file = File::open(rt, name_of(path)?)?;
        Ok(Source {
            origin: Origin::Opened(file),
            why: none(),
        })
    }

    // One read. Answers how many bytes it put at the buffer's start, none at the end of the input; or -1, where it failed.
    pub fn read(&mut self, buffer: &mut [u8]) -> isize
        ensures { Moved (length buffer.old) result }
    {
        match read_once(&mut self.origin, buffer) {
            Ok(n) => n as isize,
            Err(e) => {
                self.why = e;
                -1
            }
        }
    }

    // Reads until the buffer is full, the input ends or a read fails. Answers how many bytes it put at the buffer's start.
    pub fn read_full(&mut self, buffer: &mut [u8]) -> usize
        ensures { IsPrefixLen result buffer.new }
    {
        let mut done = 0;
        while done < buffer.len() {
            let got = self.read(&mut buffer[done..]);
            let n = count(got, &buffer[done..]);
            if n == 0 {
                return done;
            }
            done += n;
        }
        done
    }

    // What the system said of the last read that failed.
    pub fn why(&self) -> io::Error {
        self.why
    }
}
