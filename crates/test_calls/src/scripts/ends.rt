//! A reader that gives few bytes or fails, and a writer that takes few or fails, each once: who tried again would get on.
use std::alloc::Global;
use std::io;
use std::io::{ErrorKind, Read, Write};

/// A reader that gives at most so many bytes at once. One of its reads is interrupted; 0 is none.
#[derive(Drop)]
pub struct Interrupted<'a> {
    pub(crate) bytes: &'a [u8],
    pub(crate) most: usize,
    pub(crate) at: u64,
    pub(crate) reads: u64,
}

impl Read for Interrupted<'_> {
    fn read(&mut self, buffer: &mut [u8]) -> io::Result<usize> {
        self.reads = self.reads.wrapping_add(1);
        if self.reads == self.at {
            return Err(io::Error::from(ErrorKind::Interrupted));
        }
        let count = self.most.min(buffer.len()).min(self.bytes.len());
        buffer[..count].copy_from_slice(&self.bytes[..count]);
        self.bytes = &self.bytes[count..];
        Ok(count)
    }
}

/// A writer that takes at most so many bytes at once, and keeps them. One of its writes takes nothing, or is interrupted; 0 is none.
#[derive(Drop)]
pub struct Balking {
    pub(crate) bytes: Vec<u8>,
    pub(crate) writes: u64,
    most: usize,
    at: u64,
    is_interrupted: bool,
}

impl Balking {
    pub(crate) fn new(alloc: Global, most: usize, at: u64, is_interrupted: bool) -> Balking {
        Balking {
            bytes: Vec::new(alloc),
            writes: 0,
            most,
            at,
            is_interrupted,
        }
    }
}

impl Write for Balking {
    fn write(&mut self, bytes: &[u8]) -> io::Result<usize> {
        self.writes = self.writes.wrapping_add(1);
        if self.writes == self.at && self.is_interrupted {
            return Err(io::Error::from(ErrorKind::Interrupted));
        }
        if self.writes == self.at {
            return Ok(0);
        }
        let count = self.most.min(bytes.len());
        if self.bytes.extend_from_slice(&bytes[..count]).is_err() {
            return Err(io::Error::from(ErrorKind::OutOfMemory));
        }
        Ok(count)
    }

    fn flush(&mut self) -> io::Result<()> {
        Ok(())
    }
}
