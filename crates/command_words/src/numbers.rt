// The numbers of a command line.
ghost use Rattle.std.specs.Prelude.{◌≡◌, ◌≤◌, IfSome};
ghost use Rattle.command_words.specs.Commands.{number_to as number_to_of};

use record_fields::number;

/// The number of a word, from 1 to the most.
pub fn number_to(most: u64, word: &str) -> Option<u64>
    ensures number { result ≡ number_to_of most word.now }
    ensures within { IfSome result (λ n. (1 ≤ n) × (n ≤ most)) }
{
    match number(word.as_bytes()) {
        Some(n) if 1 <= n && n <= most => Some(n),
        _ => None,
    }
}
