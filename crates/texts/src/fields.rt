// What a field says: the numbers and names of specs/Fields.antt.

ghost use Rattle.std.specs.Prelude.{◌≡◌, ◌≤◌, length};
ghost use Rattle.std.specs.List.{list_all};
ghost use Rattle.std.specs.Str.{bytes_eq};
ghost use Rattle.texts.specs.Bytes.{is_name_byte};
ghost use Rattle.texts.specs.Fields.{read_digits, read_number, is_name, is_within};

// The number that up to nine digits say.
fn read_digits(f: &[u8]) -> Option<u64>
    requires { length f.now ≤ 9 }
    ensures { result ≡ read_digits 0 f.now }
{
    let mut v = 0;
    for b in f {
        if !b.is_ascii_digit() {
            return None;
        }
        v = v * 10 + (*b - b'0') as u64;
    }
    Some(v)
}

// Up to nine digits with no leading zero; only `0` itself starts with one.
#[tactic(auto, using(std::proofs::lemmas::Bool::Decides::nat_tests), unfolding(crate::specs::Fields::read_number))]
pub fn read_number(f: &[u8]) -> Option<u64>
    ensures { result ≡ read_number f.now }
{
    match f {
        [] | [b'0', _, ..] => None,
        _ if 9 < f.len() => None,
        _ => read_digits(f),
    }
}

#[tactic(auto, using(std::proofs::lemmas::Bool::Decides::nat_tests))]
fn is_name_byte(b: u8) -> bool
    ensures { result ≡ is_name_byte b }
{
    matches!(b, b'a'..=b'z' | b'0'..=b'9' | b'-')
}

fn all_name_bytes(f: &[u8]) -> bool
    ensures { result ≡ list_all is_name_byte f.now }
{
    f.iter().all(|b| is_name_byte(*b))
}

// Whether a field is a name: up to twelve bytes, at least one, each a small letter, a digit or a dash.
#[tactic(auto, using(std::proofs::lemmas::Bool::Decides::nat_tests), unfolding(crate::specs::Fields::is_name))]
pub fn is_name(f: &[u8]) -> bool
    ensures { result ≡ is_name f.now }
{
    1 <= f.len() && f.len() <= 12 && all_name_bytes(f)
}

// Whether a number lies from `low` to `high`.
pub fn is_within(low: u64, high: u64, n: u64) -> bool
    ensures { result ≡ is_within low high n }
{
    (low <= n) & (n <= high)
}

// Whether two lists of bytes are the same. Names are short and mostly differ early, so that a plain loop is quicker than `==`.
pub fn same_bytes(a: &[u8], b: &[u8]) -> bool
    ensures { result ≡ bytes_eq a.now b.now }
{
    if a.len() != b.len() {
        return false;
    }
    for (k, x) in a.iter().enumerate() {
        if *x != b[k] {
            return false;
        }
    }
    true
}
