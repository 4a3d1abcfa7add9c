ghost use Rattle.std.specs.Prelude.{◌≡◌};
ghost use Rattle.ck_ports.specs.declared.files.Mode.TheVariants.{Closed};
ghost use Rattle.ck_ports.specs.HostFiles.{mode_of, host_outside};

use crate::fault::fault;
use crate::{Files, PortEnd};
use std::fs::File;
use std::io::{Read, Write};
use std::rt;

/// The files of the host. It tells neither names nor contents.
#[derive(Drop)]
pub struct HostFiles<'rt, R: rt::Files> {
    runtime: &'rt R,
    file: OpenFile<R::File>,
    reading: u64,
    writing: u64,
}

#[derive(Drop)]
enum OpenFile<T> {
    Closed,
    Reading(T),
    Writing(T),
}

impl<'rt, R: rt::Files> HostFiles<'rt, R> {
    /// None open, and no fault yet.
    pub fn new(runtime: &'rt R) -> Self
        ensures { ⟦<HostFiles<'rt, R> as Files>⟧.outside result ≡ host_outside Closed 0 0 }
    {
        HostFiles {
            runtime,
            file: OpenFile::Closed,
            reading: 0,
            writing: 0,
        }
    }
}

impl<R: rt::Files> Files for HostFiles<'_, R> {
    ghost outside = { λ files. host_outside (mode_of files.file) files.reading files.writing };

    fn open_read(&mut self, name: &str) -> Result<(), PortEnd> {
        match File::open(self.runtime, name) {
            Ok(file) => {
                self.file = OpenFile::Reading(file);
                Ok(())
            }
            Err(_) => Err(fault(&mut self.reading)),
        }
    }

    fn read(&mut self, to: &mut [u8]) -> Result<usize, PortEnd> {
        let OpenFile::Reading(file) = &mut self.file else {
            unreachable!()
        };
        match file.read(to) {
            Ok(count) => Ok(count),
            Err(_) => Err(fault(&mut self.reading)),
        }
    }

    fn open_write(&mut self, name: &str) -> Result<(), PortEnd> {
        match File::create(self.runtime, name) {
            Ok(file) => {
                self.file = OpenFile::Writing(file);
                Ok(())
            }
            Err(_) => Err(fault(&mut self.writing)),
        }
    }

    fn write(&mut self, piece: &[u8]) -> Result<usize, PortEnd> {
        let OpenFile::Writing(file) = &mut self.file else {
            unreachable!()
        };
        match file.write(piece) {
            Ok(0) | Err(_) => Err(fault(&mut self.writing)),
            Ok(count) => Ok(count),
        }
    }

    fn close(&mut self) -> Result<(), PortEnd> {
        let flushed = match &mut self.file {
            OpenFile::Writing(file) => file.flush().is_ok(),
            _ => true,
        };
        self.file = OpenFile::Closed;
        if flushed {
            Ok(())
        } else {
            Err(fault(&mut self.writing))
        }
    }
}
