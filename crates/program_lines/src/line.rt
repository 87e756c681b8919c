// The numbers of a line.
ghost use Rattle.std.specs.Prelude.{◌≡◌, ◌-◌, ◌≤◌, cond, IfSome};
ghost use Rattle.program_lines.specs.InnerLine.{is_digit, digits_after, number_of};

fn digit(b: u8) -> Option<u64>
    ensures value { result ≡ cond (is_digit b) (Some (b - 48)) None }
    ensures bound { IfSome result (λ d. d ≤ 9) }
{
    match b {
        b'0'..=b'9' => Some(u64::from(b - b'0')),
        _ => None,
    }
}

// A field as a number: 1 to 20 decimal digits that fit 64 bits. (program_columns has its own: of 12 columns.)
#[tactic(auto, unfolding(crate::specs::InnerLine::number_of))]
pub fn number(field: &[u8]) -> Option<u64>
    ensures { result ≡ number_of field.now }
{
    if field.is_empty() || field.len() > 20 {
        return None;
    }
    digits(field)
}

#[tactic(auto, using(crate::proofs::Digits::no_digit, crate::proofs::Digits::too_large, crate::proofs::Digits::digits_done))]
fn digits(field: &[u8]) -> Option<u64>
    ensures { result ≡ digits_after 0 field.now }
{
    let mut n = 0u64;
    for b in field {
        let digit = digit(*b)?;
        n = n.checked_mul(10)?.checked_add(digit)?;
    }
    Some(n)
}
