//! Reading and writing by calls that move less than was asked, are interrupted, and break.

use outside::{SinkStop, StoreStop, read_up_to, write_whole};
use std::io;
use std::io::{Error, ErrorKind, Read, Write};

/// A file of three bytes that moves one a call, is interrupted at each second call and then breaks.
#[derive(Drop)]
struct Broken {
    calls: u32,
    whole: u32,
}

impl Broken {
    fn step(&mut self) -> io::Result<()> {
        self.calls = self.calls.saturating_add(1);
        if self.calls % 2 == 0 {
            return Err(Error::from(ErrorKind::Interrupted));
        }
        if self.calls < self.whole {
            return Ok(());
        }
        Err(Error::from(ErrorKind::BrokenPipe))
    }
}

impl Read for Broken {
    fn read(&mut self, buf: &mut [u8]) -> io::Result<usize> {
        if buf.is_empty() {
            return Ok(0);
        }
        self.step()?;
        buf[0] = 7;
        Ok(1)
    }
}

impl Write for Broken {
    fn write(&mut self, buf: &[u8]) -> io::Result<usize> {
        if buf.is_empty() {
            return Ok(0);
        }
        self.step()?;
        Ok(1)
    }

    fn flush(&mut self) -> io::Result<()> {
        Ok(())
    }
}

/// Three bytes come at the calls 1, 3 and 5.
#[test]
fn a_break_in_mid_stream_is_a_fault(rt: HostRuntime) {
    for (limit, want) in [(2, StoreStop::TooLong), (3, StoreStop::Failed)] {
        let mut file = Broken { calls: 0, whole: 6 };
        let found = read_up_to(rt.alloc(), &mut file, limit).err();
        assert!(rt; found == Some(want), "at {limit}");
    }
    let mut file = Broken { calls: 0, whole: 6 };
    assert!(rt; write_whole(&mut file, b"abc").is_ok());
    let mut file = Broken { calls: 0, whole: 6 };
    assert!(rt; write_whole(&mut file, b"abcd") == Err(SinkStop::Failed));
}
