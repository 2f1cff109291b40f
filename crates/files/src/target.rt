// A file that is written.
use crate::name_of;
use std::fs::{File, OpenOptions};
use std::io;
use std::io::{Seek, SeekFrom, Write};

#[derive(Drop)]
pub struct Target {
    file: File,
}

impl Target {
    // Makes the file; one of this name must not be there.
    pub fn create(rt: &HostRuntime, path: &[u8]) -> io::Result<Target> {
        let file = OpenOptions::new()
            .write(true)
            .create_new(true)
            .open(rt, name_of(path)?)?;
        Ok(Target { file })
    }

    // Opens the file as it is, for reading and writing.
    pub fn update(rt: &HostRuntime, path: &[u8]) -> io::Result<Target> {
        let file = OpenOptions::new()
            .read(true)
            .write(true)
            .open(rt, name_of(path)?)?;
        Ok(Target { file })
    }

    // Opens the file or the folder for reading alone.
    pub fn look_at(rt: &HostRuntime, path: &[u8]) -> io::Result<Target> {
        let file = File::open(rt, name_of(path)?)?;
        Ok(Target { file })
    }

    // Writes all of these bytes.
    pub fn write(&mut self, bytes: &[u8]) -> io::Result<()> {
        self.file.write_all(bytes)
    }

    pub fn sync(&self) -> io::Result<()> {
        self.file.sync_all()
    }

    // How many bytes the file has.
    pub fn length(&mut self) -> io::Result<u64> {
        self.file.seek(SeekFrom::End(0))
    }
}
