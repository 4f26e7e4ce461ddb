//! The adapters of a process's streams.
use crate::same::same;
use script_loop::{Failed, Sink, Source};
use script_process::{InSource, OutSink};
use std::io;
use std::io::{Cursor, Read, Write};
use std::test::Fail;

#[test]
fn a_sink_fails_where_its_writer_takes_nothing(rt: HostRuntime) -> Result<(), Fail> {
    let mut room = [0u8; 4];
    let mut sink = OutSink::new(Cursor::new(room.as_mut_slice()));
    same(&rt, &sink.write(b"ok\n"), &Ok(3));
    same(&rt, &sink.write(b""), &Ok(0));
    same(&rt, &sink.write(b"gone\n"), &Ok(1));
    same(&rt, &sink.write(b"one\n"), &Err(Failed));
    Ok(())
}

/// A stream whose first calls fail. A writer's second call takes nothing.
#[derive(Drop)]
struct FailsAtFirst {
    calls: u32,
}

impl FailsAtFirst {
    // The number of this call, counted from 0.
    fn call(&mut self) -> u32 {
        let number = self.calls;
        self.calls = number.saturating_add(1);
        number
    }
}

impl Read for FailsAtFirst {
    fn read(&mut self, buf: &mut [u8]) -> io::Result<usize> {
        match self.call() {
            0 => Err(io::Error::from(io::ErrorKind::Interrupted)),
            1 => Err(io::Error::from(io::ErrorKind::BrokenPipe)),
            _ => match buf.first_mut() {
                Some(first) => {
                    *first = b'g';
                    Ok(1)
                }
                None => Ok(0),
            },
        }
    }
}

impl Write for FailsAtFirst {
    fn write(&mut self, buf: &[u8]) -> io::Result<usize> {
        match self.call() {
            0 => Err(io::Error::from(io::ErrorKind::Interrupted)),
            1 => Ok(0),
            2 => Err(io::Error::from(io::ErrorKind::BrokenPipe)),
            _ => Ok(buf.len()),
        }
    }

    fn flush(&mut self) -> io::Result<()> {
        Ok(())
    }
}

#[test]
fn a_failed_call_is_not_made_once_more(rt: HostRuntime) -> Result<(), Fail> {
    let mut source = InSource::new(FailsAtFirst { calls: 0 });
    let mut buffer = [0u8; 3];
    same(&rt, &source.read(&mut buffer), &Err(Failed));
    same(&rt, &source.read(&mut buffer), &Err(Failed));
    same(&rt, &source.read(&mut buffer), &Ok(1));
    let mut sink = OutSink::new(FailsAtFirst { calls: 0 });
    same(&rt, &sink.write(b"ok\n"), &Err(Failed));
    same(&rt, &sink.write(b"ok\n"), &Err(Failed));
    same(&rt, &sink.write(b"ok\n"), &Err(Failed));
    same(&rt, &sink.write(b"ok\n"), &Ok(3));
    Ok(())
}
