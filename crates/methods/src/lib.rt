// The six methods: their names, and their colours in pictures.
#![tactic(auto)]

ghost use Rattle.std.specs.Prelude.{◌≡◌, map};
ghost use Rattle.analysis.specs.Analysis.{methods};
ghost use Rattle.methods.specs.Methods.{single_name, method_name, name_by_number, colour_by_number};

use analysis::Method;
use analysis::costs::Single;

// How many there are.
pub const COUNT: usize = 6;

// The name of a method that counts.
pub fn single_name(method: Single) -> &'static str
    ensures { result.now ≡ single_name method }
{
    match method {
        Single::None => "none",
        Single::EcbOnly => "ecb-only",
        Single::UcbOnly => "ucb-only",
        Single::UcbUnion => "ucb-union",
        Single::EcbUnion => "ecb-union",
    }
}

// The name of one of the six methods.
pub fn method_name(method: Method) -> &'static str
    ensures { result.now ≡ method_name method }
{
    match method {
        Method::Of(single) => single_name(single),
        Method::Combined => "combined",
    }
}

// The name of a method by its number, 0 to 5, and nothing where there is no such method.
#[tactic(auto, unfolding(crate::specs::Methods::name_by_number))]
pub fn name_by_number(number: usize) -> &'static str
    ensures { result.now ≡ name_by_number number }
{
    match Method::from_number(number as u64) {
        Some(method) => method_name(method),
        None => "",
    }
}

// All names, in the order of the numbers.
pub fn names() -> [&'static str; COUNT]
    ensures { map (λ name. name.now) result ≡ map method_name methods }
{
    [
        method_name(Method::Of(Single::None)),
        method_name(Method::Of(Single::EcbOnly)),
        method_name(Method::Of(Single::UcbOnly)),
        method_name(Method::Of(Single::UcbUnion)),
        method_name(Method::Of(Single::EcbUnion)),
        method_name(Method::Combined),
    ]
}

// The same in all pictures; none goes by them alone.
const COLOURS: [&str; COUNT] = [
    "#000000", "#6a3d9a", "#8a4b08", "#1b7340", "#b3261e", "#0b5fa5",
];

// The colour of a method by its number.
#[tactic(auto, unfolding(crate::specs::Methods::colour_by_number))]
pub fn colour_by_number(number: usize) -> &'static str
    ensures { result.now ≡ colour_by_number number }
{
    COLOURS.get(number).copied().unwrap_or("")
}
