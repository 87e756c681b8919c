// A field: 12 columns with a number in decimal, right-justified, without leading zeros.
ghost use Rattle.std.specs.Prelude.{◌≡◌, ◌-◌, ◌≤◌, length, cond, IfSome, position, not, ◌==◌};
ghost use Rattle.program_columns.specs.Field.{is_digit, digits_after, plain_number, field_of};

fn digit(b: u8) -> Option<u64>
    ensures value { result ≡ cond (is_digit b) (Some (b - 48)) None }
    ensures bound { IfSome result (λ d. d ≤ 9) }
{
    match b {
        b'0'..=b'9' => Some(u64::from(b - b'0')),
        _ => None,
    }
}

// A number of these digits.
#[tactic(auto, using(crate::proofs::Fields::no_digit, crate::proofs::Fields::digits_done))]
fn number(digits: &[u8]) -> Option<u64>
    requires { length digits.now ≤ 12 }
    ensures { result ≡ digits_after 0 digits.now }
{
    let mut n = 0;
    for b in digits {
        n = 10 * n + digit(*b)?;
    }
    Some(n)
}

#[tactic(auto, using(crate::proofs::Fields::none_there, crate::proofs::Fields::leading_zero, crate::proofs::Fields::zero_alone, crate::proofs::Fields::not_zero))]
fn plain_number(digits: &[u8]) -> Option<u64>
    requires { length digits.now ≤ 12 }
    ensures { result ≡ plain_number digits.now }
{
    let (first, others) = digits.split_first()?;
    if *first == b'0' && !others.is_empty() {
        return None;
    }
    number(digits)
}

// The first column that is not blank.
fn first_digit(field: &[u8]) -> Option<usize>
    ensures { result ≡ position (λ b. not (b == 32)) field.now }
{
    field.iter().position(|b| *b != b' ')
}

#[tactic(auto, using(crate::proofs::Fields::only_blanks, crate::proofs::Fields::behind_first), unfolding(crate::specs::Field::field_of))]
pub fn read_field(field: &[u8]) -> Option<u64>
    ensures { result ≡ field_of field.now }
{
    if field.len() != 12 {
        return None;
    }
    let first = first_digit(field)?;
    plain_number(&field[first..])
}
