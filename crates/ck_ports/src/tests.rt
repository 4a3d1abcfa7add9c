use super::*;
use std::cell::RefCell;
use std::fmt::Display;
use std::test::Fail;
use std::{fs, io, process};

// A file of two chunks and a part of a third: it is read by calls 1 to 6, an `open_read`, three `read`s that give
// 8192, 8192 and 3616 bytes, one at the end and a `close`.
#[test]
fn reads_a_file_whole_unless_a_call_fails(rt: HostRuntime) -> Result<(), Fail> {
    let alloc = rt.alloc();
    let mut content = Vec::new(alloc);
    for i in 0..20_000u32 {
        content.push((i % 251) as u8)?;
    }
    for fail in 0..8u64 {
        let mut files = MemFiles::new(alloc, &[fail])?;
        files.put("other.c", b"int x;")?;
        files.put("a.c", &content)?;
        match read_all(alloc, &mut files, "a.c") {
            Ok(bytes) => {
                assert!(rt; fail == 0 || fail == 7, "call {fail} did not fail");
                assert!(rt; bytes.as_slice() == content.as_slice());
            }
            Err(end) => {
                assert!(rt; fail != 0 && fail != 7, "call {fail} failed");
                assert_eq!(rt; end, ReadEnd::Failed);
            }
        }
        let again = read_all(alloc, &mut files, "a.c");
        assert_eq!(rt; again.is_ok(), fail != 7, "the second time, with {fail}");
    }
    Ok(())
}

#[test]
fn refuses_what_is_missing_or_too_large(rt: HostRuntime) -> Result<(), Fail> {
    let alloc = rt.alloc();
    for (len, end) in [(16_777_216, None), (16_777_217, Some(ReadEnd::TooLarge))] {
        let content = vec![in alloc; 32u8; len]?;
        let mut files = MemFiles::new(alloc, &[])?;
        files.put("a.c", &content)?;
        match read_all(alloc, &mut files, "a.c") {
            Ok(bytes) => assert_eq!(rt; (bytes.len(), None), (len, end)),
            Err(other) => assert_eq!(rt; Some(other), end),
        }
        assert_eq!(rt;
            read_all(alloc, &mut files, "b.c").err(),
            Some(ReadEnd::Failed)
        );
        assert!(rt; files.get("b.c").is_none());
    }
    Ok(())
}

// Call 1 opens `out.c`, calls 2 and 3 write and call 4 closes it.
#[test]
fn writes_a_file_unless_a_call_fails(rt: HostRuntime) -> Result<(), Fail> {
    let alloc = rt.alloc();
    for (fail, held) in [
        (0, "abcdefg"),
        (1, "old"),
        (2, "defg"),
        (3, "abc"),
        (4, "abcdefg"),
    ] {
        let mut files = MemFiles::new(alloc, &[fail])?;
        files.put("out.c", b"old")?;
        match files.open_write("out.c") {
            Ok(()) => {
                let first = files.write(b"abc");
                assert_eq!(rt; first.ok(), if fail == 2 { None } else { Some(3) });
                let second = files.write(b"defg");
                assert_eq!(rt; second.ok(), if fail == 3 { None } else { Some(4) });
                assert_eq!(rt; files.close().is_ok(), fail != 4);
            }
            Err(end) => assert_eq!(rt; (fail, end), (1, PortEnd::Failed)),
        }
        assert_eq!(rt; files.get("out.c").ok_or("gone")?, held.as_bytes());
    }
    Ok(())
}

// Call 1 opens the file, call 2 writes and call 3 closes it.
#[test]
fn a_file_is_written_whole_unless_a_call_fails(rt: HostRuntime) -> Result<(), Fail> {
    let alloc = rt.alloc();
    for (fail, held) in [(0, "abcdefg"), (1, "old"), (2, ""), (3, "abcdefg")] {
        let mut files = MemFiles::new(alloc, &[fail])?;
        files.put("out.c", b"old")?;
        let end = write_file(&mut files, "out.c", b"abcdefg").err();
        let wanted = if fail == 0 {
            None
        } else {
            Some(PortEnd::Failed)
        };
        assert_eq!(rt; end, wanted, "call {fail}");
        assert_eq!(rt; files.get("out.c").ok_or("gone")?, held.as_bytes());
    }
    Ok(())
}

// A sink that takes three bytes at a time, and refuses its third call.
#[derive(Drop)]
struct Dribble {
    bytes: Vec<u8>,
    calls: u64,
    faults: u64,
}

impl Sink for Dribble {
    ghost use Rattle.ck_ports.specs.HostSink.{host_written};

    ghost written = { λ sink. host_written sink.faults };

    fn write(&mut self, piece: &[u8]) -> Result<usize, PortEnd> {
        self.calls = self.calls.saturating_add(1);
        if self.calls == 3 {
            return Err(fault::fault(&mut self.faults));
        }
        let count = piece.len().min(3);
        self.bytes.extend_from_slice(&piece[..count])?;
        Ok(count)
    }
}

#[test]
fn writes_to_sinks_piece_by_piece(rt: HostRuntime) -> Result<(), Fail> {
    let alloc = rt.alloc();
    let mut sink = MemSink::new(alloc, &[2])?;
    assert!(rt; write_all(&mut sink, b"a.c:1:20: ok\n").is_ok());
    assert_eq!(rt;
        write_all(&mut sink, b"b.c:1:20: ok\n"),
        Err(PortEnd::Failed)
    );
    assert!(rt; write_all(&mut sink, b"c").is_ok());
    assert_eq!(rt; sink.bytes(), b"a.c:1:20: ok\nc".as_slice());
    for (text, done, held) in [("abcde", true, "abcde"), ("abcdefgh", false, "abcdef")] {
        let mut sink = Dribble {
            bytes: Vec::new(alloc),
            calls: 0,
            faults: 0,
        };
        assert_eq!(rt; write_all(&mut sink, text.as_bytes()).is_ok(), done);
        assert_eq!(rt; sink.bytes.as_slice(), held.as_bytes());
    }
    Ok(())
}

#[test]
fn host_files_are_written_and_read(rt: HostRuntime) -> Result<(), Fail> {
    let alloc = rt.alloc();
    let id = process::id(rt.process());
    let name = format!(in alloc; "/tmp/ck_ports_{id}")?;
    let mut files = HostFiles::new(&rt);
    files.open_write(name.as_str())?;
    let wrote = files.write(b"int x;\n");
    files.close()?;
    assert_eq!(rt; wrote, Ok(7));
    assert_eq!(rt;
        fs::read(&rt, name.as_str())?.as_slice(),
        b"int x;\n".as_slice()
    );
    let bytes = read_all(alloc, &mut files, name.as_str())?;
    assert_eq!(rt; bytes.as_slice(), b"int x;\n".as_slice());
    fs::remove_file(&rt, name.as_str())?;
    assert_eq!(rt;
        read_all(alloc, &mut files, name.as_str()).err(),
        Some(ReadEnd::Failed)
    );
    let below = format!(in alloc; "{name}/none")?;
    assert_eq!(rt; files.open_write(below.as_str()), Err(PortEnd::Failed));
    Ok(())
}

// Keeps what is printed, at most four bytes a call.
#[derive(Drop)]
struct Paper {
    bytes: RefCell<Vec<u8>>,
}

impl Print for Paper {
    fn print<D: Display + Drop>(&self, _value: D) -> io::Result<()> {
        Ok(())
    }

    fn println<D: Display + Drop>(&self, _value: D) -> io::Result<()> {
        Ok(())
    }

    fn write_all(&self, bytes: &[u8]) -> io::Result<()> {
        if let Ok(mut held) = self.bytes.try_borrow_mut() {
            held.extend_from_slice(bytes)?;
        }
        Ok(())
    }

    fn write_some(&self, bytes: &[u8]) -> io::Result<usize> {
        let count = bytes.len().min(4);
        Print::write_all(self, &bytes[..count])?;
        Ok(count)
    }
}

#[test]
fn a_host_sink_prints(rt: HostRuntime) -> Result<(), Fail> {
    let alloc = rt.alloc();
    let paper = Paper {
        bytes: RefCell::new(Vec::new(alloc)),
    };
    write_all(&mut HostSink::new(&paper), b"a.c:1:20: ok\n")?;
    assert_eq!(rt;
        paper.bytes.into_inner().as_slice(),
        b"a.c:1:20: ok\n".as_slice()
    );
    write_all(&mut HostSink::new(&rt), b"printed\n")?;
    Ok(())
}
