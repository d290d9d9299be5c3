// How a head says where its body ends.
ghost use Rattle.std.specs.Prelude.{◌≡◌, ◌≤◌, ◌&&◌, not, ◌==◌, length, map, All, Some, None, if◌then◌else◌, codes, bytes_eq};
ghost use Rattle.std.specs.Str.Parse.{digits_value};
ghost use Rattle.httparse.specs.Spans.{IsHeaderWithin, header_bytes};
ghost use Rattle.http_framing.specs.Framings.{eq_ignore_case, is_number, known_length, length_said, joined, lengths_said, hosts, framing_of, reply_framing_of};

use httparse::spans::HeaderSpan;

/// The most fields of a head.
pub const MAX_FIELDS: usize = 100;

/// The most digits of a `content-length`.
const MAX_DIGITS: usize = 19;

/// What a head says of its body (RFC 9112, section 6.3). `TooMany` and `Wrong` are heads that are refused.
#[derive(Clone, Copy, Debug, PartialEq, Eq)]
pub enum Framing {
    /// It has more than 100 fields.
    TooMany,
    /// It breaks the rules on `host`, on lengths or on statuses.
    Wrong,
    /// It says nothing of a body.
    Absent,
    /// The body has so many bytes.
    Known(u64),
    /// The body comes in chunks.
    Chunked,
}

fn eq_ignore_case(a: &[u8], b: &[u8]) -> bool
    ensures { result ≡ eq_ignore_case a.now b.now }
{
    if a.len() != b.len() {
        return false;
    }
    let mut same = true;
    for i in 0..b.len() {
        same &= a[i].to_ascii_lowercase() == b[i].to_ascii_lowercase();
    }
    same
}

fn parse_number(digits: &[u8]) -> Option<u64>
    ensures { result ≡ (if is_number digits.now then Some (digits_value 10 digits.now) else None) }
{
    if digits.is_empty() {
        return None;
    }
    let mut n: u64 = 0;
    for b in digits {
        if !b.is_ascii_digit() {
            return None;
        }
        n = n.checked_mul(10)?.checked_add(u64::from(*b - b'0'))?;
    }
    Some(n)
}

fn known_length(value: &[u8]) -> Framing
    ensures { result ≡ known_length value.now }
{
    if value.len() > MAX_DIGITS {
        return Framing::Wrong;
    }
    match parse_number(value) {
        Some(n) => Framing::Known(n),
        None => Framing::Wrong,
    }
}

fn is_chunked(value: &[u8]) -> bool
    ensures { result ≡ bytes_eq value.now (codes "chunked") }
{
    value == b"chunked".as_slice()
}

#[tactic(auto, unfolding(crate::specs::Framings::length_said))]
fn length_said(http10: bool, name: &[u8], value: &[u8]) -> Framing
    ensures { result ≡ length_said http10 (name.now, value.now) }
{
    if eq_ignore_case(name, b"content-length") {
        known_length(value)
    } else if eq_ignore_case(name, b"transfer-encoding") {
        if !http10 && is_chunked(value) {
            Framing::Chunked
        } else {
            Framing::Wrong
        }
    } else {
        Framing::Absent
    }
}

impl Framing {
    // What two fields say together.
    fn joined(self, other: Framing) -> Framing
        ensures { result ≡ joined self other }
    {
        match (self, other) {
            (Framing::Absent, f) => f,
            (f, Framing::Absent) => f,
            _ => Framing::Wrong,
        }
    }
}

fn lengths_said(http10: bool, buf: &[u8], fields: &[HeaderSpan]) -> Framing
    requires { All (IsHeaderWithin (length buf.now)) fields.now }
    ensures { result ≡ lengths_said http10 (map (header_bytes buf.now) fields.now) }
{
    let mut said = Framing::Absent;
    for field in fields {
        said = said.joined(length_said(http10, field.name.of(buf), field.value.of(buf)));
    }
    said
}

fn hosts(buf: &[u8], fields: &[HeaderSpan]) -> usize
    requires { All (IsHeaderWithin (length buf.now)) fields.now }
    ensures { result ≡ hosts (map (header_bytes buf.now) fields.now) }
{
    let mut n = 0;
    for field in fields {
        if eq_ignore_case(field.name.of(buf), b"host") {
            n += 1;
        }
    }
    n
}

/// What the fields of a request's head say of its body. The spans are those of the fields in `buf`.
pub fn framing_of(http10: bool, buf: &[u8], fields: &[HeaderSpan]) -> Framing
    requires { All (IsHeaderWithin (length buf.now)) fields.now }
    ensures { result ≡ framing_of http10 (map (header_bytes buf.now) fields.now) }
{
    if fields.len() > MAX_FIELDS {
        Framing::TooMany
    } else if http10 || hosts(buf, fields) == 1 {
        lengths_said(http10, buf, fields)
    } else {
        Framing::Wrong
    }
}

/// What the head of a reply says of its body. The spans are those of the fields in `buf`.
pub fn reply_framing(http10: bool, status: u16, buf: &[u8], fields: &[HeaderSpan]) -> Framing
    requires { All (IsHeaderWithin (length buf.now)) fields.now }
    ensures { result ≡ reply_framing_of http10 status (map (header_bytes buf.now) fields.now) }
{
    if fields.len() > MAX_FIELDS {
        Framing::TooMany
    } else if status < 100 {
        Framing::Wrong
    } else {
        lengths_said(http10, buf, fields)
    }
}
