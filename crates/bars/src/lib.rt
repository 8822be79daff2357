// A report as a picture: for each task its limit and a bar for its response under each method. Every bar has its method's name and its number beside it, so nothing is
// told by colours alone. specs/Bars.antt says which figures the picture shows, and where.
#![tactic(auto)]

ghost use Rattle.std.specs.Prelude.{◌≡◌, ◌≤◌, ◌<◌, ◌+◌, ◌*◌, ◌/◌, ℕ, min, max, pos, List, [], ◌++◌, codes, length, drop, IfOk, IfErr, OnOk, Ok};
ghost use Rattle.std.specs.Str.{chars, encode_utf8_all};
ghost use Rattle.std.specs.Str.Lossy.{utf8_lossy};
ghost use Rattle.std.specs.String.{string_bytes};
ghost use Rattle.search.specs.Least.{AnswerInRange};
ghost use Rattle.table.specs.Tasks.{name_text, limit_of};
ghost use Rattle.analysis.specs.Analysis.{response_of, numbered};
ghost use Rattle.report.specs.VerdictRows.{answer_under, answers_in};
ghost use Rattle.report.specs.Verdicts.{every_verdict, passes_to};
ghost use Rattle.report.specs.Rows.{Reportable};
ghost use Rattle.drawn.specs.Svg.{text_so_far};
ghost use Rattle.bars.specs.Bars.{down_from, bar_length, bar_style, bar_drawn, response_drawn, method_named_left, method_drawn, bars_drawn, edge_drawn, name_drawn, limit_drawn, task_drawn, task_top, tasks_drawn, name_shown, listed_if, passing_text, passing_words, title_drawn, passing_drawn, key_drawn, headings_drawn, report_sheet, picture_of, picture_to, IsWhyUndrawn};

use analysis::rows::{self, Row};
use drawn::svg::{Picture, Place, Tenths};
use report::verdicts;
use search::demand::Response;
use std::alloc::{AllocError, Global};
use std::fmt::Write;
use table::Table;
use table::accepted::Accepted;
use table::tasks::Task;
use texts::refusals::Refusal;

// How wide the picture is.
pub const WIDTH: Tenths = 8600;

const MARGIN: u32 = 240;

const HEAD: u32 = 880; // above the first task

const FOOT: u32 = 200;

const LEFT: u32 = 1200; // where bars start

const LIMIT: u32 = 7200; // where the limit stands

const WHOLE: u64 = 6000; // from there to here

const LONGEST_NAME: usize = 50; // characters

const BAR: Tenths = 130; // the height of a bar

const BAR_STEP: u32 = 180; // from bar to bar

const TASK_HEAD: u32 = 260; // above a task's bars

const TASK: u32 = 1500; // the height of a task, with what is free below it

// The filling of a bar that stands for no response.
const HATCH: &str =
    "<defs><pattern id=\"hatch\" width=\"5\" height=\"5\" patternUnits=\"userSpaceOnUse\" patternTransform=\"rotate(45)\"><line x1=\"0\" y1=\"0\" x2=\"0\" y2=\"5\" stroke=\"#222\" stroke-width=\"2\"/></pattern></defs>";

// Why nothing is drawn.
pub enum Undrawn {
    Refused(Refusal),
    NoMemory,
}

impl From<AllocError> for Undrawn {
    ghost use Rattle.bars.specs.declared.Undrawn.TheVariants.{NoMemory};

    ghost from_gives = { λ _ e. e ≡ NoMemory };

    fn from(_error: AllocError) -> Undrawn {
        Undrawn::NoMemory
    }
}

// A text's report as a picture, and whether every method passes.
#[derive(Drop)]
pub struct Drawn {
    pub text: String,
    pub passes: bool,
}

type Done = Result<(), AllocError>;

// The picture of a text's report; `name` is the table's.
pub fn picture(alloc: Global, name: &str, text: &[u8]) -> Result<Drawn, Undrawn>
    ensures drawn { IfOk result (λ drawn. Ok (string_bytes drawn.text) ≡ picture_to name.now text.now) }
    ensures passes { IfOk result (λ drawn. Ok drawn.passes ≡ passes_to text.now) }
    ensures refused { IfErr result (λ undrawn. IsWhyUndrawn text.now undrawn) }
{
    let mut table = Table::empty();
    match Accepted::read(text, &mut table) {
        Ok(accepted) => Ok(draw_report(alloc, name, accepted)?),
        Err(refusal) => Err(Undrawn::Refused(refusal)),
    }
}

// The picture of a table that is read.
fn draw_report(alloc: Global, name: &str, accepted: Accepted) -> Result<Drawn, AllocError>
    ensures drawn { IfOk result (λ drawn. string_bytes drawn.text ≡ picture_of name.now accepted.entry.table.now) }
    ensures passes { IfOk result (λ drawn. drawn.passes ≡ every_verdict accepted.entry.table.now.count (λ m. response_of accepted.entry.table.now (numbered m))) }
{
    let table = accepted.table;
    let rows = rows::responses(accepted);
    let passes = verdicts::every_verdict(&rows[..table.count]);
    let mut picture = open_sheet(alloc, name, table.count)?;
    picture.raw(HATCH)?;
    draw_headings(
        alloc,
        &mut picture,
        name,
        &verdicts::verdicts(&rows[..table.count]),
    )?;
    draw_tasks(alloc, &mut picture, table, &rows)?;
    let text = picture.finished()?;
    Ok(Drawn { text, passes })
}

// The sheet for so many tasks.
#[tactic(auto, unfolding(crate::specs::Bars::report_sheet))]
fn open_sheet(alloc: Global, name: &str, count: usize) -> Result<Picture, AllocError>
    requires { count ≤ 32 }
    ensures { IfOk result (λ picture. text_so_far picture ≡ report_sheet name.now count) }
{
    let title = format!(in alloc; "Worst-case responses: {name}")?;
    let height = Tenths::from(top_in(count) + FOOT);
    Picture::new(alloc, WIDTH, height, title.as_str())
}

// Where the task at a position begins. No table has more than 32.
pub fn top_of(position: usize) -> Tenths
    ensures { result ≡ pos (task_top (min position 32)) }
{
    Tenths::from(top_in(position.min(Table::MOST_TASKS)))
}

// The same, where it is known that there are no more.
fn top_in(position: usize) -> u32
    requires { position ≤ 32 }
    ensures { result ≡ task_top position }
{
    TASK * position as u32 + HEAD
}

// So far from the left edge, and from the upper one.
fn at(x: u32, y: u32) -> Place
    ensures { result ≡ down_from x y }
{
    Place::new(Tenths::from(x), Tenths::from(y))
}

// The title, which methods pass, and what the bars are.
#[tactic(auto, unfolding(crate::specs::Bars::headings_drawn))]
fn draw_headings(alloc: Global, picture: &mut Picture, name: &str, passes: &[bool; 6]) -> Done
    ensures { OnOk result (text_so_far picture.new ≡ text_so_far picture.old ++ headings_drawn name.now passes.now) }
{
    draw_title(alloc, picture, name)?;
    draw_passing(alloc, picture, passes)?;
    draw_key(picture)
}

// The title, in which the table has its name.
#[tactic(auto, unfolding(crate::specs::Bars::title_drawn))]
fn draw_title(alloc: Global, picture: &mut Picture, name: &str) -> Done
    ensures { OnOk result (text_so_far picture.new ≡ text_so_far picture.old ++ title_drawn name.now) }
{
    let name = ending(alloc, name)?;
    let title = format!(in alloc; "Worst-case responses: {name}")?;
    picture.text(
        at(MARGIN, 340),
        "font-size=\"16\" font-weight=\"bold\"",
        title.as_str(),
    )
}

// Which methods pass.
#[tactic(auto, unfolding(crate::specs::Bars::passing_drawn))]
fn draw_passing(alloc: Global, picture: &mut Picture, passes: &[bool; 6]) -> Done
    ensures { OnOk result (text_so_far picture.new ≡ text_so_far picture.old ++ passing_drawn passes.now) }
{
    let words = tell_passing(alloc, passes)?;
    picture.text(at(MARGIN, 560), "", words.as_str())
}

// The same in words.
#[tactic(auto, unfolding(crate::specs::Bars::passing_words))]
fn tell_passing(alloc: Global, passes: &[bool; 6]) -> Result<String, AllocError>
    ensures { IfOk result (λ words. string_bytes words ≡ passing_words passes.now) }
{
    let passing = passing(alloc, passes)?;
    format!(in alloc; "Every task has a response under: {passing}.")
}

// What the bars and the numbers are.
#[tactic(auto, unfolding(crate::specs::Bars::key_drawn))]
fn draw_key(picture: &mut Picture) -> Done
    ensures { OnOk result (text_so_far picture.new ≡ text_so_far picture.old ++ key_drawn) }
{
    picture.text(
        at(MARGIN, 740),
        "fill=\"#444\"",
        "Bars are parts of each task's own limit (deadline less jitter), the line on the right; numbers are ticks.",
    )
}

// One more name in a list, if it is to stand there.
fn list_if(is_one: bool, names: &mut String, name: &str) -> Done
    ensures { OnOk result (string_bytes names.new ≡ listed_if is_one (string_bytes names.old) name.now) }
{
    if !is_one {
        return Ok(());
    }
    if !names.is_empty() {
        names.push_str(", ")?;
    }
    names.push_str(name)
}

// The methods under which every task has a response.
#[tactic(auto, unfolding(crate::specs::Bars::passing_text))]
fn passing(alloc: Global, passes: &[bool; 6]) -> Result<String, AllocError>
    ensures { IfOk result (λ names. string_bytes names ≡ passing_text passes.now) }
{
    let mut names = String::new(alloc);
    for method in 0..methods::COUNT {
        list_if(passes[method], &mut names, methods::name_by_number(method))?;
    }
    if names.is_empty() {
        names.push_str("no method")?;
    }
    Ok(names)
}

// As much of a long name as the picture has room for: its end, which tells most.
#[tactic(auto, unfolding(crate::specs::Bars::name_shown))]
fn ending(alloc: Global, name: &str) -> Result<String, AllocError>
    ensures { IfOk result (λ end. string_bytes end ≡ name_shown name.now) }
{
    let count = characters(name);
    if count <= LONGEST_NAME {
        String::from_str(alloc, name)
    } else {
        end_of(alloc, name, count - LONGEST_NAME)
    }
}

// How many characters a text has.
#[tactic(auto, using(std::proofs::lemmas::Str::chars_from_encodes))]
fn characters(text: &str) -> usize
    ensures { result ≡ length (chars text.now) }
{
    text.chars().count()
}

// The end of a text: dots, and what follows its first characters, so many of them.
fn end_of(alloc: Global, text: &str, surplus: usize) -> Result<String, AllocError>
    ensures { IfOk result (λ end. string_bytes end ≡ codes "..." ++ encode_utf8_all (drop surplus (chars text.now))) }
{
    let mut end = String::from_str(alloc, "...")?;
    end.push_str(without(text, surplus))?;
    Ok(end)
}

// A text without its first characters, so many of them.
fn without(text: &str, count: usize) -> &str
    ensures { result.now ≡ encode_utf8_all (drop count (chars text.now)) }
{
    let mut rest = text.chars();
    for _k in 0..count {
        rest.next();
    }
    rest.as_str()
}

// The tasks, one below the other.
fn draw_tasks(alloc: Global, picture: &mut Picture, table: &Table, rows: &[Row; 32]) -> Done
    requires reportable { Reportable table.now rows.now }
    ensures { OnOk result (text_so_far picture.new ≡ text_so_far picture.old ++ tasks_drawn table.now (answers_in rows.now)) }
{
    for i in 0..table.count {
        draw_task(alloc, picture, &table.tasks[i], &rows[i], top_in(i))?;
    }
    Ok(())
}

// A task: its name, its limit, and its bars.
#[tactic(auto, unfolding(crate::specs::Bars::task_drawn))]
fn draw_task(alloc: Global, picture: &mut Picture, task: &Task, row: &Row, top: u32) -> Done
    requires jitter { task.now.jitter.0 ≤ task.now.deadline.0 }
    requires ranged { (m : ℕ) → m < 6 → AnswerInRange (answer_under row.now m) }
    requires top { top ≤ 50000 }
    ensures { OnOk result (text_so_far picture.new ≡ text_so_far picture.old ++ task_drawn top task.now (answer_under row.now)) }
{
    let limit = limit_of(task);
    draw_name(alloc, picture, task, top)?;
    draw_limit(alloc, picture, task, top)?;
    draw_edge(picture, LEFT, top, "stroke=\"#888\" stroke-width=\"1\"")?;
    draw_bars(alloc, picture, row, limit, top + TASK_HEAD)?;
    draw_edge(picture, LIMIT, top, "stroke=\"black\" stroke-width=\"2\"")
}

// By when a task has to end after it was released.
fn limit_of(task: &Task) -> u64
    requires { task.now.jitter.0 ≤ task.now.deadline.0 }
    ensures { result ≡ limit_of task.now }
{
    task.deadline.0 - task.jitter.0
}

// A task's name.
#[tactic(auto, unfolding(crate::specs::Bars::name_drawn))]
fn draw_name(alloc: Global, picture: &mut Picture, task: &Task, top: u32) -> Done
    requires { top ≤ 50000 }
    ensures { OnOk result (text_so_far picture.new ≡ text_so_far picture.old ++ name_drawn top task.now) }
{
    let name = name_of(alloc, task)?;
    picture.text(
        at(MARGIN, top + 180),
        "font-size=\"14\" font-weight=\"bold\"",
        name.as_str(),
    )
}

// A task's name as text.
fn name_of(alloc: Global, task: &Task) -> Result<String, AllocError>
    ensures { IfOk result (λ name. string_bytes name ≡ utf8_lossy (name_text task.now.name)) }
{
    String::from_utf8_lossy(alloc, task.name.text())
}

// A task's limit.
#[tactic(auto, unfolding(crate::specs::Bars::limit_drawn))]
fn draw_limit(alloc: Global, picture: &mut Picture, task: &Task, top: u32) -> Done
    requires jitter { task.now.jitter.0 ≤ task.now.deadline.0 }
    requires top { top ≤ 50000 }
    ensures { OnOk result (text_so_far picture.new ≡ text_so_far picture.old ++ limit_drawn top task.now) }
{
    let limit = limit_of(task);
    let words = format!(in alloc; "limit {limit}")?;
    picture.text(
        at(LIMIT, top + 180),
        "text-anchor=\"middle\"",
        words.as_str(),
    )
}

// A line beside all bars of a task.
#[tactic(auto, unfolding(crate::specs::Bars::edge_drawn))]
fn draw_edge(picture: &mut Picture, x: u32, top: u32, style: &str) -> Done
    requires { top ≤ 50000 }
    ensures { OnOk result (text_so_far picture.new ≡ text_so_far picture.old ++ edge_drawn x top style.now) }
{
    picture.line(at(x, top + 230), at(x, top + 1340), style)
}

// The bars of the methods, from a place on.
#[tactic(auto, unfolding(crate::specs::Bars::bars_drawn))]
fn draw_bars(alloc: Global, picture: &mut Picture, row: &Row, limit: u64, top: u32) -> Done
    requires ranged { (m : ℕ) → m < 6 → AnswerInRange (answer_under row.now m) }
    requires top { top ≤ 60000 }
    ensures { OnOk result (text_so_far picture.new ≡ text_so_far picture.old ++ bars_drawn limit top (answer_under row.now)) }
{
    for method in 0..methods::COUNT {
        let line = top + BAR_STEP * method as u32;
        draw_method(alloc, picture, method, row.responses[method], limit, line)?;
    }
    Ok(())
}

// A method's name, its bar, and the response.
#[tactic(auto, unfolding(crate::specs::Bars::method_drawn))]
fn draw_method(
    alloc: Global,
    picture: &mut Picture,
    method: usize,
    response: Response,
    limit: u64,
    top: u32,
) -> Done
    requires ranged { AnswerInRange response }
    requires top { top ≤ 70000 }
    ensures { OnOk result (text_so_far picture.new ≡ text_so_far picture.old ++ method_drawn limit top method response) }
{
    name_method(picture, method, top)?;
    draw_bar(alloc, picture, method, response, limit, top)?;
    draw_response(alloc, picture, response, top)
}

// The name of a method, on the left of its bar.
#[tactic(auto, unfolding(crate::specs::Bars::method_named_left))]
fn name_method(picture: &mut Picture, method: usize, top: u32) -> Done
    requires { top ≤ 70000 }
    ensures { OnOk result (text_so_far picture.new ≡ text_so_far picture.old ++ method_named_left top method) }
{
    let beside = at(LEFT - 100, top + 110);
    picture.text(
        beside,
        "text-anchor=\"end\"",
        methods::name_by_number(method),
    )
}

// The bar of a response: as long as it is of the limit, or hatched over the whole limit where there is none.
#[tactic(auto, unfolding(crate::specs::Bars::bar_drawn))]
fn draw_bar(
    alloc: Global,
    picture: &mut Picture,
    method: usize,
    response: Response,
    limit: u64,
    top: u32,
) -> Done
    requires { AnswerInRange response }
    ensures { OnOk result (text_so_far picture.new ≡ text_so_far picture.old ++ bar_drawn limit top method response) }
{
    match response {
        Response::Within(time) => {
            let style = style_of(alloc, method)?;
            picture.rectangle(at(LEFT, top), length(time.0, limit), BAR, style.as_str())
        }
        Response::Unschedulable => {
            let style = "fill=\"url(#hatch)\" stroke=\"#222\" stroke-width=\"0.5\"";
            picture.rectangle(at(LEFT, top), WHOLE as Tenths, BAR, style)
        }
    }
}

// A response, or that there is none, beside its bar.
#[tactic(auto, unfolding(crate::specs::Bars::response_drawn))]
fn draw_response(alloc: Global, picture: &mut Picture, response: Response, top: u32) -> Done
    requires { top ≤ 70000 }
    ensures { OnOk result (text_so_far picture.new ≡ text_so_far picture.old ++ response_drawn top response) }
{
    let beside = at(LIMIT + 100, top + 110);
    match response {
        Response::Within(time) => {
            let ticks = time.0;
            let words = format!(in alloc; "{ticks}")?;
            picture.text(beside, "", words.as_str())
        }
        Response::Unschedulable => { picture.text(beside, "font-weight=\"bold\"", "no response") }
    }
}

// How the bar of a method looks.
fn style_of(alloc: Global, method: usize) -> Result<String, AllocError>
    ensures { IfOk result (λ style. string_bytes style ≡ bar_style method) }
{
    let colour = methods::colour_by_number(method);
    format!(in alloc; "fill=\"{colour}\" fill-opacity=\"0.7\" stroke=\"#222\" stroke-width=\"0.5\"")
}

// The length of a bar.
fn length(ticks: u64, limit: u64) -> Tenths
    requires { ticks ≤ 250000000 }
    ensures { result ≡ pos (bar_length limit ticks) }
{
    (WHOLE * ticks / limit.max(1)) as Tenths
}
