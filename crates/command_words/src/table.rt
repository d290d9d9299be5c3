// Whether words stand in the table of commands.
ghost use Rattle.std.specs.Prelude.{◌≡◌};
ghost use Rattle.command_words.specs.Table.{is_row as is_row_of};
ghost use Rattle.command_words.specs.Commands.{is_argument as is_argument_of};

use gw_base::Text;

// Whether a word is neither empty nor a flag.
fn is_argument(word: &Text) -> bool
    ensures { result ≡ is_argument_of word.now }
{
    match word.as_str().as_bytes() {
        [] => false,
        [first, ..] => *first != b'-',
    }
}

/// Whether the words are a command's name and as many arguments as it takes.
pub fn is_row(words: &[Text]) -> bool
    ensures { result ≡ is_row_of words.now }
{
    match words {
        [name] => name.as_str() == "play",
        [name, only] => {
            (name.as_str() == "check" || name.as_str() == "admin") && is_argument(only)
        }
        [name, first, second] => {
            (name.as_str() == "render" || name.as_str() == "load")
                && is_argument(first)
                && is_argument(second)
        }
        [name, first, second, third] => {
            name.as_str() == "serve"
                && is_argument(first)
                && is_argument(second)
                && is_argument(third)
        }
        _ => false,
    }
}
