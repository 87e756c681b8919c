// Answers that wait in a buffer before they are written.
ghost use Rattle.std.specs.Prelude.{◌≡◌, ◌≤◌, [], OnOk};
ghost use Rattle.std.specs.Io.KnownBytes.{Keeps, Appends};
ghost use Rattle.program_lines.specs.InnerWindow.{items, room};

use crate::window::{SIZE, Window};
use std::io;
use std::io::Write;

#[derive(Drop)]
pub struct Waiting<W> {
    sink: W,
    window: Window,
}

impl<W: Write> Waiting<W> {
    ghost use Rattle.program_lines.specs.InnerOutput.{waiting, waiting_sink, waiting_contents};

    pub fn new(sink: W) -> Waiting<W>
        ensures sink { waiting_sink result ≡ sink }
        ensures none_waits { waiting result ≡ [] }
    {
        Waiting {
            sink,
            window: Window::new(),
        }
    }

    // Keeps room for so many bytes.
    fn make_room(&mut self, len: usize) -> io::Result<()>
        requires { len ≤ 65536 }
        ensures room { OnOk result (len ≤ room self.new.window) }
        ensures bytes { Keeps (waiting_contents W.contents self.old) (waiting_contents W.contents self.new) }
    {
        if self.window.room() < len {
            return self.window.write_to(&mut self.sink);
        }
        Ok(())
    }
}

impl<W: Write> Write for Waiting<W> {
    ghost use Rattle.program_lines.specs.InnerOutput.{waiting, waiting_sink, waiting_contents};

    ghost contents = { waiting_contents W.contents };

    fn write(&mut self, bytes: &[u8]) -> io::Result<usize> {
        let len = bytes.len().min(SIZE);
        self.make_room(len)?;
        self.window.put(&bytes[..len]);
        Ok(len)
    }

    // Writes the answers that wait.
    fn flush(&mut self) -> io::Result<()>
        ensures bytes { Keeps (waiting_contents W.contents self.old) (waiting_contents W.contents self.new) }
        ensures none_waits { OnOk result (waiting self.new ≡ []) }
        ensures written { OnOk result
            (Appends (W.contents (waiting_sink self.old)) (W.contents (waiting_sink self.new)) (waiting self.old)) }
    {
        self.window.write_to(&mut self.sink)?;
        self.sink.flush()
    }
}
