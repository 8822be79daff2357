// Which of the methods never answers later than which.
ghost use Rattle.std.specs.Prelude.{◌≡◌, true};
ghost use Rattle.laws.specs.Dominance.{exceeds, SixInOrder};

use analysis::Method;
use analysis::costs::Single;
use search::demand::Response;
use table::accepted::Pending;

// The responses of a task under the six methods.
#[derive(Clone, Copy)]
pub struct Six {
    pub none: Response,
    pub ecb_only: Response,
    pub ucb_only: Response,
    pub ucb_union: Response,
    pub ecb_union: Response,
    pub combined: Response,
}

// Whether the first of two responses is larger than the second. No response is larger than any number.
fn exceeds(a: Response, b: Response) -> bool
    ensures { result ≡ exceeds a b }
{
    let Response::Within(y) = b else {
        return false;
    };
    let Response::Within(x) = a else {
        return true;
    };
    y.0 < x.0
}

// The six responses of a task: UCB-Union is never larger than ECB-Only, ECB-Union never larger than UCB-Only, and combined never larger than either union.
pub fn under_all(pending: Pending) -> Six
    ensures { SixInOrder pending.entry.table.now pending.entry.i result }
{
    Six {
        none: analysis::respond(pending, Method::Of(Single::None)),
        ecb_only: analysis::respond(pending, Method::Of(Single::EcbOnly)),
        ucb_only: analysis::respond(pending, Method::Of(Single::UcbOnly)),
        ucb_union: analysis::respond(pending, Method::Of(Single::UcbUnion)),
        ecb_union: analysis::respond(pending, Method::Of(Single::EcbUnion)),
        combined: analysis::respond(pending, Method::Combined),
    }
}

// Whether they stand in this order: they always do.
pub fn are_in_order(pending: Pending) -> bool
    ensures { result ≡ true }
{
    let six = under_all(pending);
    !exceeds(six.ucb_union, six.ecb_only)
        & !exceeds(six.ecb_union, six.ucb_only)
        & !exceeds(six.combined, six.ucb_union)
        & !exceeds(six.combined, six.ecb_union)
}
