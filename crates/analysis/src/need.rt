// What a task needs, whatever its limit is, by which method, and what blocks it then: the figure that an explanation is about. specs/Needs.antt says what
// that is.

ghost use Rattle.std.specs.Prelude.{◌≡◌, ◌<◌};
ghost use Rattle.search.specs.Least.{later};
ghost use Rattle.analysis.specs.Row.{ReadyToJoin};
ghost use Rattle.table.specs.Tables.{accesses_of};
ghost use Rattle.analysis.specs.Analysis.{least_under, MayBlock, MayBlockAt};
ghost use Rattle.analysis.specs.Needs.{is_sooner, smaller_of, needed_of, need_of, need_at, just_before};

use crate::blockers::Blocking;
use crate::costs::{Charge, Single};
use crate::{Method, blockers, one_row};
use cache::units::Ticks;
use search::demand::Response;
use table::accepted::Pending;
use table::accesses::Access;

// How far a need is looked for: no deadline is later.
const FURTHEST: Ticks = Ticks(250000000);

// What a task needs, the method under which it does, and the access that blocks it then.
#[derive(Clone, Copy)]
pub struct Need {
    pub method: Single,
    pub time: Response,
    pub blocker: Access,
}

// Whether the first of two needs is the smaller. What is beyond every time that is looked at is larger than any of them.
fn is_sooner(a: Response, b: Response) -> bool
    ensures { result ≡ is_sooner a b }
{
    let Response::Within(x) = a else {
        return false;
    };
    let Response::Within(y) = b else {
        return true;
    };
    x.0 < y.0
}

impl Need {
    // The smaller of two needs, and the second where they are equal.
    fn smaller(self, other: Need) -> Need
        ensures { result ≡ smaller_of self other }
    {
        if is_sooner(self.time, other.time) {
            self
        } else {
            other
        }
    }
}

// Where an access stands, what the task needs while it blocks, and a time that others may be found to need no more than.
#[derive(Clone, Copy)]
struct Start {
    at: usize,
    time: Response,
    known: Ticks,
}

// What the task at i needs under a method while an access blocks it, or the time so far where that is later. `row` has the charges of the method without an access.
fn need_while(
    pending: Pending,
    method: Single,
    row: &[Charge; 32],
    access: &Access,
    so_far: Response,
) -> Response
    requires { ReadyToJoin pending.table.now method pending.i row.now × MayBlock access.now pending.i }
    ensures { result ≡ later so_far (least_under pending.entry.table.now access.now method pending.entry.i 250000000) }
{
    crate::later_under(pending, method, FURTHEST, row, access, so_far)
}

// What to begin with: the longest access, or where there is no time while it blocks, the longest before it, until there is one. Those before that add no more
// reloads then need no more than that time, and are not searched for. Any access would do, and any time.
fn begin_with(pending: Pending, method: Single, row: &[Charge; 32], longest: usize) -> Start
    requires { ReadyToJoin pending.table.now method pending.i row.now × MayBlockAt (accesses_of pending.table.now) pending.i longest }
    ensures { MayBlockAt (accesses_of pending.entry.table.now) pending.entry.i result.at × (result.time ≡ need_at pending.entry.table.now method pending.entry.i result.at) }
{
    let accesses = pending.table.accesses();
    let any = Response::Within(Ticks(0));
    let time = need_while(pending, method, row, &accesses[longest], any);
    let mut start = Start {
        at: longest,
        time,
        known: FURTHEST,
    };
    for _ in 0..accesses.len() {
        let Response::Unschedulable = start.time else {
            return start;
        };
        let Some(next) = blockers::longest(&accesses[..start.at], pending.i) else {
            return start;
        };
        match need_while(pending, method, row, &accesses[next], any) {
            Response::Within(known) => {
                start.known = known;
                return start;
            }
            Response::Unschedulable => start.at = next,
        }
    }
    start
}

// A time that is sooner than the latest so far: the one before it, or where that is beyond every time, the one that is known.
fn just_before(latest: Response, known: Ticks) -> Response
    ensures { result ≡ just_before latest known }
{
    match latest {
        Response::Within(time) => Response::Within(Ticks(time.0.saturating_sub(1))),
        Response::Unschedulable => Response::Within(known),
    }
}

// The largest of what the task at i needs while each access blocks that may, and the first of those that are equal. From one of them on, those before it are
// asked, the last first, whether they need no less, and then those behind it, whether they need more.
fn need_under(pending: Pending, method: Single) -> Need
    ensures { result ≡ needed_of pending.entry.table.now method pending.entry.i }
{
    let accesses = pending.table.accesses();
    let row = one_row::charged(pending, method);
    let Some(longest) = blockers::longest(accesses, pending.i) else {
        let any = Response::Within(Ticks(0));
        return Need {
            method,
            time: need_while(pending, method, &row, &Access::NONE, any),
            blocker: Access::NONE,
        };
    };
    let start = begin_with(pending, method, &row, longest);
    let mut time = start.time;
    let mut blocker = &accesses[start.at];
    for n in (0..start.at).rev() {
        let access = &accesses[n];
        if access.may_block(pending.i) {
            let own = need_while(
                pending,
                method,
                &row,
                access,
                just_before(time, start.known),
            );
            let no_less = !is_sooner(own, time);
            if no_less {
                time = own;
                blocker = access;
            }
        }
    }
    for access in Blocking::of(&accesses[start.at + 1..], pending.i) {
        let own = need_while(pending, method, &row, access, time);
        let more = is_sooner(time, own);
        if more {
            time = own;
            blocker = access;
        }
    }
    Need {
        method,
        time,
        blocker: *blocker,
    }
}

// The need that explains what a method answers. Combined is explained by one of the unions.
pub fn explained(pending: Pending, method: Method) -> Need
    ensures { result ≡ need_of pending.entry.table.now method pending.entry.i }
{
    match method {
        Method::Of(single) => need_under(pending, single),
        Method::Combined => {
            let ucb_union = need_under(pending, Single::UcbUnion);
            ucb_union.smaller(need_under(pending, Single::EcbUnion))
        }
    }
}
