// A buffer of a fixed size, so that nothing is allocated: bytes that were read and not yet taken, or that wait to be
// written.
ghost use Rattle.std.specs.Prelude.{◌≡◌, ◌≤◌, [], ◌++◌, ◌+◌, length, drop, IfOk, OnOk};
ghost use Rattle.std.specs.Io.KnownBytes.{Keeps, append_known};

use std::io;
use std::io::{ErrorKind, Read, Write};

pub(crate) const SIZE: usize = 65536;

// The bytes from `start` to `end`, and room behind them.
#[derive(Drop)]
pub(crate) struct Window {
    bytes: [u8; SIZE],
    start: usize,
    end: usize,
    ghost ordered: { start ≤ end },
    ghost within: { end ≤ 65536 },
}

impl Window {
    ghost use Rattle.program_lines.specs.InnerWindow.{items, room};

    pub(crate) fn new() -> Window
        ensures { items result ≡ [] }
    {
        Window {
            bytes: [0; SIZE],
            start: 0,
            end: 0,
        }
    }

    pub(crate) fn as_slice(&self) -> &[u8]
        ensures { result.now ≡ items self.now }
    {
        &self.bytes[self.start..self.end]
    }

    pub(crate) fn room(&self) -> usize
        ensures { result ≡ room self.now }
    {
        SIZE - self.end
    }

    // Leaves the first bytes out, which were taken or written.
    pub(crate) fn consume(&mut self, count: usize)
        requires { count ≤ length (items self.old) }
        ensures { items self.new ≡ drop count (items self.old) }
    {
        self.start += count;
    }

    // Reads once, over all that the window has.
    pub(crate) fn fill<R: Read>(&mut self, source: &mut R) -> io::Result<usize>
        ensures { IfOk result (λ len. length (items self.new) ≡ len) }
    {
        self.start = 0;
        self.end = 0;
        let len = source.read(&mut self.bytes)?;
        self.end = len;
        Ok(len)
    }

    // Bytes behind those that are there.
    pub(crate) fn put(&mut self, more: &[u8])
        requires { length more.now ≤ room self.old }
        ensures { items self.new ≡ items self.old ++ more.now }
    {
        let end = self.end + more.len();
        self.bytes[self.end..end].copy_from_slice(more);
        self.end = end;
    }

    // Writes all of it. What a failure leaves unwritten stays.
    pub(crate) fn write_to<W: Write>(&mut self, sink: &mut W) -> io::Result<()>
        ensures none_waits { OnOk result ((items self.new ≡ []) × (room self.new ≡ 65536)) }
        ensures bytes { Keeps (append_known (W.contents sink.old) (items self.old))
            (append_known (W.contents sink.new) (items self.new)) }
    {
        'writes: for _ in 0..u64::MAX {
            if self.as_slice().is_empty() {
                self.start = 0;
                self.end = 0;
                return Ok(());
            }
            match sink.write(self.as_slice()) {
                Ok(0) => return Err(io::Error::from(ErrorKind::WriteZero)),
                Ok(count) => self.consume(count),
                Err(e) if e.kind() == ErrorKind::Interrupted => {}
                Err(e) => return Err(e),
            }
        }
        Err(io::Error::from(ErrorKind::Interrupted))
    }
}
