// Numbers.
ghost use Rattle.std.specs.Prelude.{◌≡◌, ◌≤◌, ◌^◌, true, Some, None, IfSome, IfNone};
ghost use Rattle.std.specs.List.{list_all};
ghost use Rattle.record_fields.specs.Numbers.{number_of, is_decimal, read_on};

fn are_digits(field: &[u8]) -> bool
    ensures { result ≡ list_all is_decimal field.now }
{
    field.iter().all(|b| b'0' <= *b && *b <= b'9')
}

// The number of some digits, where it fits.
#[tactic(auto, using(crate::proofs::Digits::read_on_grows))]
fn read_digits(field: &[u8]) -> Option<u64>
    requires { list_all is_decimal field.now ≡ true }
    ensures some { IfSome result (λ n. n ≡ read_on 0 field.now) }
    ensures none { IfNone result (2 ^ 64 ≤ read_on 0 field.now) }
{
    let mut value: u64 = 0;
    for digit in field {
        let Some(tens) = value.checked_mul(10) else {
            return None;
        };
        let Some(next) = tens.checked_add((*digit - b'0') as u64) else {
            return None;
        };
        value = next;
    }
    Some(value)
}

/// The number of a field of 1 to 20 digits, where it fits 64 bits.
#[tactic(auto, unfolding(crate::specs::Numbers::number_of))]
pub fn number(field: &[u8]) -> Option<u64>
    ensures { result ≡ number_of 64 field.now }
{
    if field.is_empty() || field.len() > 20 || !are_digits(field) {
        return None;
    }
    read_digits(field)
}

/// The number of a field of 1 to 20 digits, where it fits 32 bits.
#[tactic(auto, unfolding(crate::specs::Numbers::number_of))]
pub fn small_number(field: &[u8]) -> Option<u32>
    ensures { result ≡ number_of 32 field.now }
{
    if field.is_empty() || field.len() > 20 || !are_digits(field) {
        return None;
    }
    match read_digits(field) {
        Some(n) if n <= u32::MAX as u64 => Some(n as u32),
        _ => None,
    }
}
