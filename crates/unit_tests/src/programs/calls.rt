//! Calls of the tool whose output fails.
use crate::assertion::assert_holds;
use crate::programs::fakes::Unflushed;
use std::alloc::Global;
use std::io::{self, Read};
use std::net::{Net, TcpStream};
use std::sync::Wait;
use std::test::Fail;
use std::thread::Threads;
use std::time::Clock;
use tool_program::tool_run;

#[derive(Drop)]
struct NoInput;

impl Read for NoInput {
    fn read(&mut self, _buf: &mut [u8]) -> io::Result<usize> {
        Ok(0)
    }
}

// The status of a call that is too long to be sent, where the output fails from so many bytes on.
fn status<R>(rt: &R, alloc: Global, full: usize) -> Result<u8, Fail>
where
    R: Net<Stream = TcpStream> + Clock + Wait + Threads,
{
    let mut long = String::new(alloc);
    for _ in 0..65_536 {
        long.push('a')?;
    }
    let mut words = Vec::new(alloc);
    for word in ["127.0.0.1:427", "find", long.as_str(), "DEFAULT"] {
        words.push(String::from_str(alloc, word)?)?;
    }
    let mut output = Unflushed {
        bytes: Vec::new(alloc),
        full,
    };
    Ok(tool_run(rt, alloc, words.as_slice(), NoInput, &mut output))
}

#[test]
fn a_last_flush_that_fails_is_told(rt: HostRuntime) -> Result<(), Fail> {
    assert_holds(
        &rt,
        status(&rt, rt.alloc(), 100)? == 6,
        "too long to be sent",
    );
    assert_holds(&rt, status(&rt, rt.alloc(), 11)? == 1, "and not written");
    Ok(())
}
