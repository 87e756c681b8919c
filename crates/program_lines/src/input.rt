// Standard input, taken line by line. A line stands in a buffer without its newline: a last line that has none is a line
// as others are, and nothing behind the last newline is no line. A line that is longer than its buffer fills it, and what
// does not fit is left out.
ghost use Rattle.std.specs.Prelude.{◌≡◌, ◌+◌, ◌≤◌, true, [], length, min, IfOk, IfSome};
ghost use Rattle.program_lines.specs.InnerOutput.{waiting};

use crate::output::Waiting;
use crate::window::Window;
use std::io;
use std::io::{Read, Write};

// Bytes of a line behind the first `len`, as far as they fit. Answers how many it has then.
fn put(line: &mut [u8], len: usize, bytes: &[u8]) -> usize
    requires { len ≤ length line.old }
    ensures { result ≡ min (length line.old) (len + length bytes.now) }
{
    let room = &mut line[len..];
    let count = room.len().min(bytes.len());
    room[..count].copy_from_slice(&bytes[..count]);
    len + count
}

// A source, and what was read of it and not yet taken.
#[derive(Drop)]
struct Lines<R> {
    // None once it ended: it is not read again.
    source: Option<R>,
    window: Window,
}

impl<R: Read + Drop> Lines<R> {
    fn new(source: R) -> Lines<R> {
        Lines {
            source: Some(source),
            window: Window::new(),
        }
    }

    // Reads once more, after all that was read is taken, and answers whether there is more. What waits in `out` is written
    // before, so that a line typed is answered at once.
    fn refill<W: Write>(&mut self, out: &mut Waiting<W>) -> io::Result<bool>
        ensures { IfOk result (λ is_more. is_more ≡ true → waiting out.new ≡ []) }
    {
        let Some(source) = &mut self.source else {
            return Ok(false);
        };
        out.flush()?;
        let read = self.window.fill(source)?;
        if read == 0 {
            self.source = None;
        }
        Ok(read > 0)
    }

    // Takes bytes into the line, to its newline or to the end of what was read. Answers how many the line has then, and
    // whether it is whole.
    fn take_part(&mut self, line: &mut [u8], len: usize) -> (usize, bool)
        requires { len ≤ length line.old }
        ensures { result.0 ≤ length line.new }
    {
        let unread = self.window.as_slice();
        match unread.iter().position(|b| *b == b'\n') {
            Some(newline) => {
                let len = put(line, len, &unread[..newline]);
                self.window.consume(newline + 1);
                (len, true)
            }
            None => {
                let len = put(line, len, unread);
                let taken = unread.len();
                self.window.consume(taken);
                (len, false)
            }
        }
    }

    // The length of the next line, which is put into `line`, or none at the end.
    fn next_line<W: Write>(
        &mut self,
        out: &mut Waiting<W>,
        line: &mut [u8],
    ) -> io::Result<Option<usize>>
        ensures { IfOk result (λ next. IfSome next (λ len. len ≤ length line.new)) }
    {
        let mut len = 0;
        'parts: for _part in 0..u64::MAX {
            if self.window.as_slice().is_empty() && !self.refill(out)? {
                return Ok((len > 0).then_some(len));
            }
            let (taken, is_whole) = self.take_part(line, len);
            if is_whole {
                return Ok(Some(taken));
            }
            len = taken;
        }
        Ok(None)
    }
}

// Answers each line of a source, which is given with what takes its answer. A line that is longer than `line` is cut to it.
// A proved loop has to end, and nothing says that the input does: it counts its turns, to a number that no run uses up. (A
// `for` over `lines` or `split` would keep a line whole, however long it is, and write nothing before it reads.)
pub fn answer_lines<R, W, F>(source: R, sink: W, line: &mut [u8], mut answer: F) -> io::Result<()>
where
    R: Read + Drop,
    W: Write + Drop,
    F: FnMut(&[u8], &mut Waiting<W>) -> io::Result<()>,
    requires { F.IsAlwaysCallable answer }
{
    let mut lines = Lines::new(source);
    let mut waiting = Waiting::new(sink);
    for _ in 0..u64::MAX {
        let Some(len) = lines.next_line(&mut waiting, line)? else {
            break;
        };
        answer(&line[..len], &mut waiting)?;
    }
    waiting.flush()
}
