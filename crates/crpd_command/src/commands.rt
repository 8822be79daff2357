// The commands: what each is called, what it may be given, what it does, and what people are taught of it.
use crate::{answers, compared, deadlines, dossiers, evaluate, help, partner, pool, replays};
use asked::arguments::{Arguments, Form, Opt};
use asked::ending::Outcome;
use command_line::{Manual, show};

#[derive(Clone, Copy, PartialEq, Eq)]
pub enum Command {
    Report,
    Answer,
    Explain,
    Growth,
    Scaled,
    Check,
    Edf,
    Replay,
    Show,
    Plot,
    Dossier,
    Reports,
    Lists,
    Changes,
    Evaluate,
}

pub const ALL: [Command; 15] = [
    Command::Report,
    Command::Answer,
    Command::Explain,
    Command::Growth,
    Command::Scaled,
    Command::Check,
    Command::Edf,
    Command::Replay,
    Command::Show,
    Command::Plot,
    Command::Dossier,
    Command::Reports,
    Command::Lists,
    Command::Changes,
    Command::Evaluate,
];

const PLAIN: Form = Form {
    options: &[],
    needs_output: false,
    least: 0,
    most: 1,
    task: None,
};

fn operands(least: usize, most: usize, options: &'static [Opt]) -> Form {
    Form {
        options,
        needs_output: false,
        least,
        most,
        task: None,
    }
}

// That of a command with METHOD, TASK and FILE.
fn task_form(options: &'static [Opt]) -> Form {
    Form {
        options,
        needs_output: false,
        least: 2,
        most: 3,
        task: Some(1),
    }
}

// That with TASK and FILE, which may draw.
const REPLAYED: Form = Form {
    options: &[Opt::Output],
    needs_output: false,
    least: 1,
    most: 2,
    task: Some(0),
};

// That of a command that draws.
fn picture_form(most: usize, options: &'static [Opt]) -> Form {
    Form {
        options,
        needs_output: true,
        least: 0,
        most,
        task: None,
    }
}

impl Command {
    pub fn name(self) -> &'static str {
        match self {
            Command::Report => "report",
            Command::Answer => "answer",
            Command::Explain => "explain",
            Command::Growth => "growth",
            Command::Scaled => "scaled",
            Command::Check => "check",
            Command::Edf => "edf",
            Command::Replay => "replay",
            Command::Show => "show",
            Command::Plot => "plot",
            Command::Dossier => "dossier",
            Command::Reports => "reports",
            Command::Lists => "lists",
            Command::Changes => "changes",
            Command::Evaluate => "evaluate",
        }
    }

    fn usage(self) -> &'static str {
        match self {
            Command::Report => "report [FILE]",
            Command::Answer => "answer METHOD TASK [FILE]",
            Command::Explain => "explain [--words] METHOD TASK [FILE]",
            Command::Growth => "growth METHOD [FILE]",
            Command::Scaled => "scaled METHOD [FILE]",
            Command::Check => "check [--words] METHOD LIST [FILE]",
            Command::Edf => "edf [--words] [FILE]",
            Command::Replay => "replay TASK [FILE] [-o OUT.svg]",
            Command::Show => show::MANUAL.usage,
            Command::Plot => "plot [FILE] -o OUT.svg",
            Command::Dossier => "dossier [FILE] -o PAGE.html | FOLDER",
            Command::Reports => "reports [--part K/N] [-o LIST] FOLDER",
            Command::Lists => "lists [-o LIST] FILE..",
            Command::Changes => "changes [--words] OLD NEW",
            Command::Evaluate => "evaluate [--sets N] [--seed S] -o OUT.svg",
        }
    }

    pub fn summary(self) -> &'static str {
        match self {
            Command::Report => "the report: limits, responses under six methods, verdicts",
            Command::Answer => "one task's response under one method, or -",
            Command::Explain => "what that response is made of, as lines or in words",
            Command::Growth => "how far execution times may grow, in thousandths",
            Command::Scaled => "the table with that growth",
            Command::Check => "what is found of the responses that a partner claims",
            Command::Edf => "whether the earliest deadline first is in time",
            Command::Replay => "when a first job ends, tick by tick, or a picture of it",
            Command::Show => "the report as a table for people",
            Command::Plot => "the report as a picture",
            Command::Dossier => "a page to hand on: the table, its report and all that explains it",
            Command::Reports => "the reports of all tables below a folder, and a list",
            Command::Lists => "one list of the lists of parts",
            Command::Changes => "what moved between two tables, or two folders of them",
            Command::Evaluate => "the paper's evaluation, done again",
        }
    }

    fn lesson(self) -> &'static str {
        match self {
            Command::Report => help::REPORT,
            Command::Answer => help::ANSWER,
            Command::Explain => help::EXPLAIN,
            Command::Growth => help::GROWTH,
            Command::Scaled => help::SCALED,
            Command::Check => help::CHECK,
            Command::Edf => help::EDF,
            Command::Replay => help::REPLAY,
            Command::Show => show::MANUAL.lesson,
            Command::Plot => help::PLOT,
            Command::Dossier => help::DOSSIER,
            Command::Reports => help::REPORTS,
            Command::Lists => help::LISTS,
            Command::Changes => help::CHANGES,
            Command::Evaluate => help::EVALUATE,
        }
    }

    fn form(self) -> Form {
        match self {
            Command::Report => PLAIN,
            Command::Show => show::MANUAL.form,
            Command::Answer => task_form(&[]),
            Command::Explain => task_form(&[Opt::Words]),
            Command::Growth | Command::Scaled => operands(1, 2, &[]),
            Command::Check => operands(2, 3, &[Opt::Words]),
            Command::Edf => operands(0, 1, &[Opt::Words]),
            Command::Replay => REPLAYED,
            Command::Plot => picture_form(1, &[Opt::Output]),
            Command::Dossier => operands(0, 1, &[Opt::Output]),
            Command::Reports => operands(1, 1, &[Opt::Jobs, Opt::Part, Opt::Output]),
            Command::Lists => operands(1, usize::MAX, &[Opt::Output]),
            Command::Changes => operands(2, 2, &[Opt::Words]),
            Command::Evaluate => {
                picture_form(0, &[Opt::Sets, Opt::Seed, Opt::Jobs, Opt::Output])
            }
        }
    }

    pub fn manual(self) -> Manual {
        Manual {
            usage: self.usage(),
            lesson: self.lesson(),
            form: self.form(),
        }
    }

    pub fn run(self, rt: &HostRuntime, arguments: &Arguments) -> Outcome {
        match self {
            Command::Report => answers::report(rt, arguments),
            Command::Answer => answers::answer(rt, arguments),
            Command::Explain => answers::explain(rt, arguments),
            Command::Growth => answers::growth(rt, arguments),
            Command::Scaled => answers::scaled(rt, arguments),
            Command::Check => partner::check(rt, arguments),
            Command::Edf => deadlines::edf(rt, arguments),
            Command::Replay => replays::replay(rt, arguments),
            Command::Show => show::show(rt, arguments),
            Command::Plot => answers::plot(rt, arguments),
            Command::Dossier => dossiers::dossier(rt, arguments),
            Command::Reports => pool::reports(rt, arguments),
            Command::Lists => pool::lists(rt, arguments),
            Command::Changes => compared::changes(rt, arguments),
            Command::Evaluate => evaluate::evaluate(rt, arguments),
        }
    }
}

// The command of a name.
pub fn find(name: &[u8]) -> Option<Command> {
    for command in ALL {
        if command.name().as_bytes() == name {
            return Some(command);
        }
    }
    None
}
