// The methods.
ghost use Rattle.std.specs.Prelude.{◌≡◌};
ghost use Rattle.vtl_grammar.specs.Bytes.{is_one_of};
ghost use Rattle.vtl_grammar.specs.Methods.{without_argument, with_one as with_one_of, with_two as with_two_of, of_roots as of_roots_of, arity as arity_of};

fn takes_none(x: &[u8]) -> bool
    ensures { result ≡ is_one_of without_argument x.now }
{
    b"toString".as_slice() == x
        || b"length".as_slice() == x
        || b"toUpperCase".as_slice() == x
        || b"toLowerCase".as_slice() == x
        || b"trim".as_slice() == x
        || b"isEmpty".as_slice() == x
        || b"size".as_slice() == x
        || b"keySet".as_slice() == x
        || b"entrySet".as_slice() == x
}

fn takes_one(x: &[u8]) -> bool
    ensures { result ≡ is_one_of with_one_of x.now }
{
    b"equals".as_slice() == x
        || b"contains".as_slice() == x
        || b"startsWith".as_slice() == x
        || b"endsWith".as_slice() == x
        || b"indexOf".as_slice() == x
        || b"split".as_slice() == x
        || b"get".as_slice() == x
        || b"containsKey".as_slice() == x
}

fn takes_two(x: &[u8]) -> bool
    ensures { result ≡ is_one_of with_two_of x.now }
{
    b"replace".as_slice() == x || b"replaceAll".as_slice() == x
}

// A method of `$input` or `$util` that takes one argument.
fn is_of_roots(x: &[u8]) -> bool
    ensures { result ≡ is_one_of of_roots_of x.now }
{
    b"json".as_slice() == x
        || b"path".as_slice() == x
        || b"escapeJavaScript".as_slice() == x
        || b"parseJson".as_slice() == x
        || b"urlEncode".as_slice() == x
        || b"urlDecode".as_slice() == x
        || b"base64Encode".as_slice() == x
        || b"base64Decode".as_slice() == x
}

/// The fewest and the most arguments of a method of this name, where there is one.
pub fn arity(name: &[u8]) -> Option<(u32, u32)>
    ensures { result ≡ arity_of name.now }
{
    if takes_none(name) {
        Some((0, 0))
    } else if takes_one(name) {
        Some((1, 1))
    } else if takes_two(name) {
        Some((2, 2))
    } else if is_of_roots(name) {
        Some((1, 1))
    } else if name == b"substring".as_slice() {
        Some((1, 2))
    } else if name == b"params".as_slice() {
        Some((0, 1))
    } else {
        None
    }
}
