// What a line asks.
ghost use Rattle.std.specs.Prelude.{◌≡◌, length};
ghost use Rattle.program_columns.specs.Request.{request_of};
ghost use Rattle.program_columns.specs.InnerForm.{request_by};

use crate::field::read_field;

#[derive(Clone, Copy)]
pub enum Request {
    // R page frame
    Record(u64, u64),
    // B frame
    Rollback(u64),
    // F page min max
    Find(u64, u64, u64),
    // L min max
    List(u64, u64),
}

// What a letter asks with these fields.
#[tactic(auto, unfolding(crate::specs::InnerForm::request_by))]
fn request_by(letter: u8, fields: &[[u8; 12]]) -> Option<Request>
    ensures { result ≡ request_by letter fields.now }
{
    match (letter, fields) {
        (b'R', [page, frame]) => Some(Request::Record(read_field(page)?, read_field(frame)?)),
        (b'B', [frame]) => Some(Request::Rollback(read_field(frame)?)),
        (b'F', [page, min, max]) => Some(Request::Find(
            read_field(page)?,
            read_field(min)?,
            read_field(max)?,
        )),
        (b'L', [min, max]) => Some(Request::List(read_field(min)?, read_field(max)?)),
        _ => None,
    }
}

// Reads a line, which is given without its newline. None: it is of another form.
#[tactic(auto, using(crate::proofs::Forms::empty_line, crate::proofs::Forms::columns_left, crate::proofs::Forms::asked_by_line))]
pub fn read_request(line: &[u8]) -> Option<Request>
    ensures { result ≡ request_of line.now }
{
    let (letter, columns) = line.split_first()?;
    let (fields, rest) = columns.as_chunks::<12>();
    if !rest.is_empty() {
        return None;
    }
    request_by(*letter, fields)
}
