// Shares of the processor. specs/Shares.antt says what a share is.

ghost use Rattle.std.specs.Prelude.{◌≡◌, ◌-◌, length};
ghost use Rattle.search.specs.Positions.{front};
ghost use Rattle.search.specs.Terms.{term_in, InRange, NoOverflow};
ghost use Rattle.search.specs.Shares.{share_of, shares_of};

use crate::demand::Term;

// The whole processor, where a share of it is counted in parts.
pub const WHOLE: u64 = 17179869184;

// The share of the processor that a term takes, rounded down.
pub fn share(term: Term) -> u64
    requires { InRange term }
    ensures { result ≡ share_of term }
{
    term.weight.0 * WHOLE / term.period.0
}

// What the terms leave of the processor.
pub fn left_by(terms: &[Term]) -> u64
    requires { NoOverflow 1 terms.now 0 }
    ensures { result ≡ 17179869184 - shares_of (term_in terms.now) (length terms.now) }
{
    let mut left = WHOLE;
    for term in terms {
        left = left.saturating_sub(share(*term));
    }
    left
}

// The shares of the terms, listed.
pub fn listed(terms: &[Term]) -> [u64; 32]
    requires { NoOverflow 1 terms.now 0 }
    ensures { result ≡ front 0 (λ j. share_of (term_in terms.now j)) (length terms.now) }
{
    let mut shares = [0u64; 32];
    for (i, term) in terms.iter().enumerate() {
        shares[i] = share(*term);
    }
    shares
}
