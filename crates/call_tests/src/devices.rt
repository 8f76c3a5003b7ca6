//! Devices, which count their failures.
use commands::{Failed, Metered, Sink, Source};
use std::io;
use std::io::{Error, ErrorKind, Read, Write};

/// A reader of which each read fails, and a writer that takes no byte.
#[derive(Drop)]
struct Broken;

impl Read for Broken {
    fn read(&mut self, _buffer: &mut [u8]) -> io::Result<usize> {
        Err(Error::from(ErrorKind::Interrupted))
    }
}

impl Write for Broken {
    fn write(&mut self, _bytes: &[u8]) -> io::Result<usize> {
        Ok(0)
    }

    fn flush(&mut self) -> io::Result<()> {
        Ok(())
    }
}

/// A read that fails counts, and a write that takes no byte of some. A write of nothing does not.
#[test]
fn devices_count_their_failures(rt: HostRuntime) {
    let mut device = Metered::new(Broken);
    assert!(rt; device.write(b"") == Ok(0) && device.failures() == 0);
    assert!(rt; device.write(b"x") == Ok(0) && device.failures() == 1);
    assert!(rt; device.read(&mut [0]) == Err(Failed) && device.failures() == 2);
}
