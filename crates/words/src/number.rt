// Numbers read from words.
ghost use Rattle.std.specs.Prelude.{◌≡◌, min};
ghost use Rattle.text.specs.Digits.{after as put, number as made};
ghost use Rattle.words.specs.Numbers.{largest, number_in};

use text::class;
use text::class::Class;

// The number of a word of digits, where one past the largest counts as the largest; none of another word.
#[tactic(auto, unfolding(crate::specs::Numbers::number_in))]
pub fn read(word: &[u8]) -> Option<u64>
    ensures { result ≡ number_in word.now }
{
    if word.is_empty() {
        return None;
    }
    if class::is_only(Class::Digit, word) {
        Some(number_of(word))
    } else {
        None
    }
}

// The number that the digits of a text make, at most the largest.
fn number_of(text: &[u8]) -> u64
    ensures { result ≡ min (made 0 text.now) largest }
{
    text.iter().fold(0, |n, byte| after(n, *byte))
}

// A digit put after a number, at most the largest; any other byte leaves it.
#[tactic(auto, unfolding(text::specs::Digits::after))]
fn after(n: u64, byte: u8) -> u64
    ensures { result ≡ min (put n byte) largest }
{
    if class::is_of(Class::Digit, byte) {
        n.saturating_mul(10).saturating_add(u64::from(byte - b'0'))
    } else {
        n
    }
}
