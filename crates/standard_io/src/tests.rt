// What no contract says: which calls are made again, and the texts of messages and limits.
use super::{limit_in, read_file, tell_failure, write_needed, write_text};
use std::io;
use std::io::{Error, ErrorKind, Read, Write};
use std::test::Fail;

// Interrupted, then not ready, then a byte a call up to `c`; after that the end, or a failure.
#[derive(Drop)]
struct Slow {
    call: u8,
    fails: bool,
}

impl Read for Slow {
    fn read(&mut self, buf: &mut [u8]) -> io::Result<usize> {
        let call = self.call;
        self.call = call.saturating_add(1);
        match call {
            0 => Err(Error::from(ErrorKind::Interrupted)),
            1 => Err(Error::from(ErrorKind::WouldBlock)),
            2..=4 if !buf.is_empty() => {
                buf[0] = b'a' + (call - 2);
                Ok(1)
            }
            _ if self.fails => Err(Error::from_raw_os_error(5)),
            _ => Ok(0),
        }
    }
}

// Takes a byte each other call, and is interrupted or not ready at the others; a failure after so many bytes.
#[derive(Drop)]
struct Halting {
    took: Vec<u8>,
    call: u8,
    most: usize,
}

impl Write for Halting {
    fn write(&mut self, buf: &[u8]) -> io::Result<usize> {
        let call = self.call;
        self.call = call.saturating_add(1);
        if call % 4 == 0 {
            return Err(Error::from(ErrorKind::Interrupted));
        }
        if call % 4 == 2 {
            return Err(Error::from(ErrorKind::WouldBlock));
        }
        if self.most <= self.took.len() {
            return Err(Error::from_raw_os_error(28));
        }
        match buf.first() {
            Some(byte) => {
                self.took.push(*byte)?;
                Ok(1)
            }
            None => Ok(0),
        }
    }

    fn flush(&mut self) -> io::Result<()> {
        Ok(())
    }
}

#[test]
fn reads_again(rt: HostRuntime) {
    let mut space = [0; 8];
    let mut file = Slow {
        call: 0,
        fails: false,
    };
    let input = read_file(&rt, &mut file, &mut space);
    assert!(rt; matches!(input, Ok(3)));
    assert!(rt; &space[..3] == b"abc".as_slice());
}

#[test]
fn tells_a_failed_read(rt: HostRuntime) {
    let mut space = [0; 8];
    let mut file = Slow {
        call: 0,
        fails: true,
    };
    let input = read_file(&rt, &mut file, &mut space);
    assert!(rt; input.is_err());
}

#[test]
fn writes_again(rt: HostRuntime) {
    let mut file = Halting {
        took: Vec::new(rt.alloc()),
        call: 0,
        most: 9,
    };
    let written = write_text(&rt, &mut file, b"text");
    assert!(rt; written.is_ok());
    assert!(rt; file.took.as_slice() == b"text".as_slice());
}

#[test]
fn tells_a_failed_write(rt: HostRuntime) {
    let mut file = Halting {
        took: Vec::new(rt.alloc()),
        call: 0,
        most: 2,
    };
    let written = write_text(&rt, &mut file, b"text");
    assert!(rt; matches!(written, Err(error) if error.kind() == ErrorKind::StorageFull));
    assert!(rt; file.took.as_slice() == b"te".as_slice());
}

#[test]
fn says_what_failed(rt: HostRuntime) {
    let mut said = Vec::new(rt.alloc());
    tell_failure(
        &rt,
        &mut said,
        b"sheet: cannot read",
        &Error::from_raw_os_error(21),
    );
    assert!(rt; said.as_slice() == b"sheet: cannot read: Is a directory\n".as_slice());
}

#[test]
fn says_what_stack_it_needs(rt: HostRuntime) {
    let mut said = Vec::new(rt.alloc());
    let written = write_needed(&rt, &mut said, b"sheet", 2048, 256);
    assert!(rt; written.is_ok());
    assert!(rt;
        said.as_slice()
            == b"sheet: needs a stack of 2048 KiB, has 256 KiB: ulimit -s 2048\n".as_slice()
    );
}

#[test]
fn reads_the_limit(rt: HostRuntime) {
    let limits =
        "Limit                     Soft Limit           Hard Limit           Units     \nMax data size             unlimited            unlimited            bytes     \nMax stack size            8388608              unlimited            bytes     \n";
    assert!(rt; limit_in(limits) == Some(8388608));
    assert!(rt;
        limit_in("Max stack size            unlimited            unlimited            bytes     \n")
            == None
    );
    assert!(rt; limit_in("") == None);
}
