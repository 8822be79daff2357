// The command that does the paper's evaluation again.
use asked::arguments::{Arguments, Opt};
use asked::ending::{Ending, Outcome, Stop};
use console::print;
use evaluated::{Failure, Setting, Watcher, chart, figures};
use files::deliver;
use files::progress::{self, Progress};
use std::alloc::AllocError;
use std::fmt::Write as _;

const SETS_MOST: u64 = 10_000;

const SETS: u64 = 1000;

const SEED: u64 = 1;

// Tells how far the evaluation is.
#[derive(Drop)]
struct Watch<'a> {
    rt: &'a HostRuntime,
    progress: Progress,
}

impl<'a> Watcher for Watch<'a> {
    fn step(&mut self) {
        self.progress.step(self.rt);
    }
}

pub fn evaluate(rt: &HostRuntime, arguments: &Arguments) -> Outcome {
    let alloc = rt.alloc();
    let out = files::output(rt, arguments)?;
    if out == b"-".as_slice() {
        let message = "the figures go to standard output, so the picture needs a file";
        return Err(Stop::wrong(alloc, message));
    }
    let sets = arguments.number(Opt::Sets, 1, SETS_MOST, SETS)?;
    let seed = arguments.number(Opt::Seed, 0, u64::MAX, SEED)?;
    progress::take_jobs(rt, arguments, "one process works")?;
    let setting = Setting { sets, seed };
    let mut watch = Watch {
        rt,
        progress: Progress::new(rt, setting.all_sets(), "task sets"),
    };
    let results = match evaluated::evaluate(alloc, setting, &mut watch) {
        Ok(results) => results,
        Err(Failure::Refused(refusal)) => {
            let number = refusal.reason.number();
            return Err(Stop::refused(format!(in alloc; "a task set is refused ({number})")?));
        }
        Err(Failure::NoMemory) => return Err(Stop::from(AllocError)),
    };
    watch.progress.clear(rt);
    deliver(
        rt,
        out,
        chart::picture(alloc, &results)?.as_str().as_bytes(),
    )?;
    print(rt, figures::figures(alloc, &results)?.as_str().as_bytes())?;
    Ok(Ending::Given)
}
