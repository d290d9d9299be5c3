// Fields that a byte parts.
ghost use Rattle.std.specs.Prelude.{◌≡◌, ◌==◌, ◌<◌, length, position, option_map, IfSome};
ghost use Rattle.plan_fields.specs.Fields.{parted_at as parted_at_of};

fn place_of(field: &[u8], byte: u8) -> Option<usize>
    ensures value { result ≡ position (λ b. b == byte) field.now }
    ensures bound { IfSome result (λ at. at < length field.now) }
{
    field.iter().position(|b| *b == byte)
}

/// What stands before the first of this byte and behind it.
pub fn parted_at(field: &[u8], byte: u8) -> Option<(&[u8], &[u8])>
    ensures { option_map (λ p. (p.0.now, p.1.now)) result ≡ parted_at_of byte field.now }
{
    match place_of(field, byte) {
        Some(at) => Some((&field[..at], &field[at + 1..])),
        None => None,
    }
}
