//! A real sink: what a call returns where its writer has room, has none, and where its flush fails.

use pc_common::Sink;
use real_outside::RealSink;
use std::io::{self, ErrorKind, Write};

/// A writer with little room, whose flush may fail.
#[derive(Drop)]
struct Wire {
    room: usize,
    is_cut: bool,
}

impl Write for Wire {
    fn write(&mut self, buf: &[u8]) -> io::Result<usize> {
        let n = self.room.min(buf.len());
        self.room -= n;
        Ok(n)
    }

    fn flush(&mut self) -> io::Result<()> {
        if self.is_cut {
            return Err(io::Error::from(ErrorKind::BrokenPipe));
        }
        Ok(())
    }
}

fn takes_four_bytes(sink: &mut RealSink<Wire>) -> bool {
    matches!(sink.write(b"abc"), Ok(3))
        && matches!(sink.write(b"de"), Ok(1))
        && matches!(sink.write(b""), Ok(0))
        && sink.write(b"e").is_err()
}

#[test]
fn takes_what_goes_in_and_tells_what_fails(rt: HostRuntime) {
    let mut sink = RealSink::new(Wire {
        room: 4,
        is_cut: false,
    });
    let mut cut = RealSink::new(Wire {
        room: 4,
        is_cut: true,
    });
    let takes = takes_four_bytes(&mut sink) && cut.write(b"abc").is_err();
    assert!(rt; takes);
}
