// Hex digits: what a byte says, and what the bytes of a field say, as specs/Hex.antt has it.

ghost use Rattle.std.specs.Prelude.{◌≡◌, ◌≤◌, length, option_map};
ghost use Rattle.cache.specs.Hex.{hex_digit, read_hex, of_words};

// What a byte is as a hex digit.
#[tactic(auto, using(std::proofs::lemmas::Bool::Decides::nat_tests), unfolding(crate::specs::Hex::hex_digit))]
fn read_digit(b: u8) -> Option<u64>
    ensures { result ≡ hex_digit b }
{
    match b {
        b'0'..=b'9' => Some((b - b'0') as u64),
        b'a'..=b'f' => Some((b - b'a' + 10) as u64),
        _ => None,
    }
}

// What up to sixteen bytes are as hex digits.
fn read_word(part: &[u8]) -> Option<u64>
    requires { length part.now ≤ 16 }
    ensures { result ≡ read_hex 0 part.now }
{
    let mut word = 0;
    for b in part {
        let digit = read_digit(*b)?;
        word = word << 4 | digit;
    }
    Some(word)
}

// What up to sixty-four bytes are as hex digits: four words, the most significant first.
pub fn read_words(field: &[u8]) -> Option<(u64, u64, u64, u64)>
    requires { length field.now ≤ 64 }
    ensures { option_map of_words result ≡ read_hex 0 field.now }
{
    // A word has sixteen digits, counted from the end. Where the digits run out, the words above have none and are 0.
    let end = field.len();
    let to_w3 = end.saturating_sub(48);
    let to_w2 = end.saturating_sub(32);
    let to_w1 = end.saturating_sub(16);
    let w3 = read_word(&field[0..to_w3])?;
    let w2 = read_word(&field[to_w3..to_w2])?;
    let w1 = read_word(&field[to_w2..to_w1])?;
    let w0 = read_word(&field[to_w1..])?;
    Some((w3, w2, w1, w0))
}
