// The parts of the page, one after the other.
use crate::markup::{
    Done, add, column_head, element, figure_cell, heading, missing_cell, open_wide, paragraph,
    row_head, words_cell,
};
use crate::{Proved, words};
use analysis::Method;
use analysis::rows::Row;
use bars::Undrawn;
use cache::useful::Form;
use search::demand::Response;
use sentences::sums::Sum;
use std::alloc::{AllocError, Global};
use std::fmt::Write;
use table::Table;
use table::accepted::{Accepted, Pending};
use table::tasks::Task;
use texts::lines::Lines;

// What the page is of.
#[derive(Clone, Copy)]
pub struct Subject<'a> {
    pub alloc: Global,
    pub text: &'a [u8],
    // its SHA-256
    pub digest: &'a str,
    pub verdicts: [bool; 6],
    pub proved: Proved<'a>,
}

const COMBINED: usize = 5;

// So many digits of a digest tell a table from others.
const FEW_DIGITS: usize = 12;

// The sum of a task that has fewer above it is not torn where a sheet of paper ends.
const FEW_TASKS: usize = 16;

// How a picture that stands for itself begins, and how one within a page does.
const ALONE: &str = "<svg xmlns=\"http://www.w3.org/2000/svg\"";

const WITHIN: &str = "<svg id=\"picture\"";

impl<'a> Subject<'a> {
    // What the table is called: it has no name of its own.
    pub fn name(&self) -> Result<String, AllocError> {
        let few = self.digest.get(..FEW_DIGITS).unwrap_or(self.digest);
        format!(in self.alloc; "table {few}")
    }

    // The title, what the table is about, and what came of it.
    pub fn tell_head(&self, page: &mut String, table: &Table) -> Done {
        page.push_str("<header>\n<h1>Worst-case response times</h1>\n")?;
        let tasks = wording::counted(self.alloc, table.tasks().len() as u64, "task")?;
        let outcome = if self.verdicts[COMBINED] {
            "every task has a response"
        } else {
            "some task has no response"
        };
        let lead = format!(in self.alloc;
            "{tasks} on one processor with a cache, under fixed priorities with pre-emption. Under the method combined {outcome}."
        )?;
        element(page, "p class=\"lead\"", "p", lead.as_str())?;
        page.push_str("<dl>\n")?;
        self.tell_methods(page, "Methods that pass", true)?;
        self.tell_methods(page, "Methods that do not", false)?;
        let sets = table.sets;
        self.term(
            page,
            "Cache sets",
            format!(in self.alloc; "{sets}")?.as_str(),
        )?;
        if let Form::Digits(ways) = table.form {
            self.term(page, "Ways", format!(in self.alloc; "{ways}")?.as_str())?;
        }
        let reload = wording::counted(self.alloc, table.brt.0, "tick")?;
        self.term(page, "Reload of a block", reload.as_str())?;
        let accesses = table.access_count;
        if 0 < accesses {
            self.term(
                page,
                "Accesses",
                format!(in self.alloc; "{accesses}")?.as_str(),
            )?;
        }
        page.push_str("<dt>SHA-256 of the table</dt>\n<dd><code>")?;
        add(page, self.digest)?;
        page.push_str("</code></dd>\n</dl>\n</header>\n")
    }

    fn term(&self, page: &mut String, term: &str, what: &str) -> Done {
        element(page, "dt", "dt", term)?;
        element(page, "dd", "dd", what)
    }

    // The methods under which every task has a response, or those under which some has none, where there are any.
    fn tell_methods(&self, page: &mut String, term: &str, pass: bool) -> Done {
        let mut names = String::new(self.alloc);
        for (name, passes) in methods::names().iter().zip(self.verdicts.iter()) {
            if *passes == pass {
                if !names.is_empty() {
                    names.push_str(", ")?;
                }
                names.push_str(name)?;
            }
        }
        if names.is_empty() {
            return Ok(());
        }
        self.term(page, term, names.as_str())
    }

    // The table as it was read, byte for byte.
    pub fn tell_table(&self, page: &mut String) -> Done {
        page.push_str("<section>\n")?;
        heading(page, "1 The table as it was read")?;
        page.push_str("<pre>")?;
        for line in Lines::of(self.text) {
            let line = String::from_utf8_lossy(self.alloc, line)?;
            page.push_str("<span>")?;
            add(page, line.as_str())?;
            page.push_str("\n</span>")?;
        }
        page.push_str("</pre>\n")?;
        element(page, "p class=\"note\"", "p", words::LINES)?;
        page.push_str("</section>\n")
    }

    // The report, and its picture.
    pub fn tell_report(&self, page: &mut String, table: &Table, rows: &[Row]) -> Done {
        page.push_str("<section>\n")?;
        heading(page, "2 The report")?;
        paragraph(
            page,
            "Of each task its limit, which is its deadline less its jitter, and its responses under six methods, in ticks; - where there is none. A method passes where every task has a response.",
        )?;
        open_wide(page, "The report")?;
        page.push_str("<table class=\"figures\">\n<thead>\n<tr>\n")?;
        column_head(page, "task")?;
        column_head(page, "limit")?;
        for name in methods::names().iter() {
            column_head(page, name)?;
        }
        page.push_str("</tr>\n</thead>\n<tbody>\n")?;
        for (task, row) in table.tasks().iter().zip(rows.iter()) {
            page.push_str("<tr>\n")?;
            row_head(page, name_of(self.alloc, task)?.as_str())?;
            figure_cell(page, self.number(limit_of(task))?.as_str())?;
            for response in row.responses.iter() {
                match response {
                    Response::Within(time) => {
                        figure_cell(page, self.number(time.0)?.as_str())?;
                    }
                    Response::Unschedulable => missing_cell(page, "-")?,
                }
            }
            page.push_str("</tr>\n")?;
        }
        page.push_str("</tbody>\n<tfoot>\n<tr>\n")?;
        row_head(page, "passes")?;
        words_cell(page, "")?;
        for passes in self.verdicts.iter() {
            if *passes {
                figure_cell(page, "yes")?;
            } else {
                missing_cell(page, "no")?;
            }
        }
        page.push_str("</tr>\n</tfoot>\n</table>\n</div>\n")?;
        self.draw(page, table)?;
        page.push_str("</section>\n")
    }

    fn number(&self, number: u64) -> Result<String, AllocError> {
        format!(in self.alloc; "{number}")
    }

    // The picture of the report. It is taller than a sheet of paper where there are many tasks: so it is shown task by task, and none is torn.
    fn draw(&self, page: &mut String, table: &Table) -> Done {
        let name = self.name()?;
        let drawn = match bars::picture(self.alloc, name.as_str(), self.text) {
            Ok(drawn) => drawn,
            // the text is accepted
            Err(Undrawn::Refused(_)) => return Ok(()),
            Err(Undrawn::NoMemory) => return Err(AllocError),
        };
        page.push_str("<figure>\n")?;
        open_wide(page, "The picture of the report")?;
        let width = pixels(bars::WIDTH);
        for position in 0..table.tasks().len() {
            // what stands above the first task is shown with it
            let top = if position == 0 {
                0
            } else {
                pixels(bars::top_of(position))
            };
            let bottom = pixels(bars::top_of(position.saturating_add(1)));
            let height = bottom.saturating_sub(top);
            let text = drawn.text.as_str();
            write!(
                page,
                "<svg class=\"piece\" viewBox=\"0 {top} {width} {height}\""
            )?;
            if position == 0 {
                page.push_str(">\n")?;
                page.push_str(WITHIN)?;
                page.push_str(text.strip_prefix(ALONE).unwrap_or(text))?;
            } else {
                page.push_str(" aria-hidden=\"true\">\n<use href=\"#picture\"/>\n")?;
            }
            page.push_str("</svg>\n")?;
        }
        page.push_str("</div>\n")?;
        element(
            page,
            "figcaption",
            "figcaption",
            "The report as bars: each is as long as the response is of the task's limit, and hatched where there is none.",
        )?;
        page.push_str("</figure>\n")
    }

    // Of each task why its combined figure is what it is, and what it needs under the methods that leave it none.
    pub fn tell_tasks(&self, page: &mut String, accepted: Accepted, rows: &[Row]) -> Done {
        page.push_str("<section>\n")?;
        heading(page, "3 Each task under combined")?;
        for position in 0..accepted.table.count {
            if position < FEW_TASKS {
                page.push_str("<article class=\"short\">\n")?;
            } else {
                page.push_str("<article>\n")?;
            }
            let pending = accepted.pending(position);
            element(
                page,
                "h3",
                "h3",
                name_of(self.alloc, pending.task())?.as_str(),
            )?;
            let explanation = sentences::explained(self.alloc, pending, Method::Combined)?;
            let (first, others) = self.parted(explanation.sentences.as_slice())?;
            element(page, "p class=\"answer\"", "p", first.as_str())?;
            if !others.is_empty() {
                paragraph(page, others.as_str())?;
            }
            if let Some(sum) = &explanation.sum {
                self.tell_sum(page, sum)?;
            }
            if let Some(row) = rows.get(position) {
                self.tell_needs(page, pending, row)?;
            }
            page.push_str("</article>\n")?;
        }
        page.push_str("</section>\n")
    }

    // Bytes as a text.
    fn text(&self, bytes: &[u8]) -> Result<String, AllocError> {
        String::from_utf8_lossy(self.alloc, bytes)
    }

    // The first of some sentences, and those behind it.
    fn parted(&self, sentences: &[u8]) -> Result<(String, String), AllocError> {
        let text = self.text(sentences)?;
        let told = text.as_str();
        let (first, others) = match told.split_once('\n') {
            Some((first, others)) => (first, others),
            None => (told, ""),
        };
        let first = String::from_str(self.alloc, first)?;
        let others = String::from_str(self.alloc, others)?;
        Ok((first, others))
    }

    fn tell_sum(&self, page: &mut String, sum: &Sum) -> Done {
        page.push_str("<table class=\"sum\">\n<thead>\n<tr>\n")?;
        column_head(page, "task")?;
        column_head(page, "what is asked for")?;
        column_head(page, "ticks")?;
        page.push_str("</tr>\n</thead>\n<tbody>\n")?;
        for part in &sum.parts {
            page.push_str("<tr>\n")?;
            let (name, words) = (
                self.text(part.name.as_slice())?,
                self.text(part.words.as_slice())?,
            );
            row_head(page, name.as_str())?;
            words_cell(page, self.with_signs(words.as_str())?.as_str())?;
            figure_cell(page, self.number(part.ticks)?.as_str())?;
            page.push_str("</tr>\n")?;
        }
        page.push_str("</tbody>\n<tfoot>\n<tr>\n<th scope=\"row\" colspan=\"2\">together</th>\n")?;
        figure_cell(page, self.number(sum.whole)?.as_str())?;
        page.push_str("</tr>\n</tfoot>\n</table>\n")
    }

    // A product with the sign of multiplication for the letter.
    fn with_signs(&self, product: &str) -> Result<String, AllocError> {
        let mut out = String::new(self.alloc);
        for (at, factor) in product.split(" x ").enumerate() {
            if 0 < at {
                out.push_str(" \u{d7} ")?;
            }
            out.push_str(factor)?;
        }
        Ok(out)
    }

    // What the task needs under each other method that leaves it no response.
    fn tell_needs(&self, page: &mut String, pending: Pending, row: &Row) -> Done {
        let mut is_open = false;
        for (method, response) in row.responses.iter().enumerate() {
            let Some(method) = Method::from_number(method as u64) else {
                continue;
            };
            if matches!(method, Method::Combined) || matches!(response, Response::Within(_)) {
                continue;
            }
            if !is_open {
                page.push_str("<ul>\n")?;
                is_open = true;
            }
            let explanation = sentences::explained(self.alloc, pending, method)?;
            let (first, _) = self.parted(explanation.sentences.as_slice())?;
            element(page, "li", "li", first.as_str())?;
        }
        if is_open {
            page.push_str("</ul>\n")?;
        }
        Ok(())
    }

    // How much growth is left under each method.
    pub fn tell_growths(&self, page: &mut String) -> Done {
        page.push_str("<section class=\"short\">\n")?;
        heading(page, "4 How much growth is left")?;
        paragraph(
            page,
            "The greatest number of thousandths, up to 4000, to which every execution time may be brought so that every task still has a response; a part of a tick counts as a whole one. 1000 is the table as it is.",
        )?;
        page.push_str("<table>\n<thead>\n<tr>\n")?;
        column_head(page, "method")?;
        element(page, "th scope=\"col\" class=\"n\"", "th", "growth")?;
        column_head(page, "which says")?;
        page.push_str("</tr>\n</thead>\n<tbody>\n")?;
        for (name, method) in methods::names().iter().zip(0u64..) {
            // the text is accepted, and the method is there
            let growth = crpd::growth(self.text, method).unwrap_or(0);
            page.push_str("<tr>\n")?;
            row_head(page, name)?;
            if growth < AS_IT_IS {
                missing_cell(page, self.number(growth)?.as_str())?;
            } else {
                figure_cell(page, self.number(growth)?.as_str())?;
            }
            words_cell(page, growth_in_words(self.alloc, growth)?.as_str())?;
            page.push_str("</tr>\n")?;
        }
        page.push_str("</tbody>\n</table>\n</section>\n")
    }

    // The equations, by their numbers, in words.
    pub fn tell_equations(&self, page: &mut String, table: &Table) -> Done {
        page.push_str("<section>\n")?;
        heading(page, "5 The equations")?;
        paragraph(page, words::EQUATION)?;
        page.push_str("<table>\n<thead>\n<tr>\n")?;
        column_head(page, "method")?;
        column_head(page, "equation")?;
        column_head(page, "block reloads of an activation")?;
        page.push_str("</tr>\n</thead>\n<tbody>\n")?;
        for (name, (number, charge)) in methods::names().iter().zip(words::CHARGES.iter()) {
            page.push_str("<tr>\n")?;
            row_head(page, name)?;
            words_cell(page, number)?;
            words_cell(page, charge)?;
            page.push_str("</tr>\n")?;
        }
        page.push_str("</tbody>\n</table>\n")?;
        paragraph(page, words::AFFECTED)?;
        if let Form::Digits(_) = table.form {
            paragraph(page, words::WAYS)?;
        }
        if 0 < table.access_count {
            paragraph(page, words::ACCESSES)?;
        }
        element(page, "p class=\"note\"", "p", words::PAPER)?;
        page.push_str("</section>\n")
    }

    // What is proved, with what, and what is assumed.
    pub fn tell_proved(&self, page: &mut String) -> Done {
        page.push_str("<section class=\"short\">\n")?;
        heading(page, "6 What is proved, and what is assumed")?;
        element(page, "p id=\"proved\"", "p", words::PROVED)?;
        paragraph(page, words::NOT_PROVED)?;
        page.push_str("<dl>\n")?;
        let number = self.proved.number;
        self.term(
            page,
            "Made by",
            format!(in self.alloc; "crpd {number}")?.as_str(),
        )?;
        self.term(page, "Proved with", self.proved.toolchain)?;
        page.push_str("</dl>\n")?;
        element(
            page,
            "p class=\"note\"",
            "p",
            "The page has no date and no name of a file: of the same table, crpd dossier of this number makes it again, byte for byte.",
        )?;
        page.push_str("</section>\n")
    }
}

// A growth from here on: the table passes as it is.
const AS_IT_IS: u64 = 1000;

// The greatest one that is tried.
const GREATEST: u64 = 4000;

// What a growth says.
fn growth_in_words(alloc: Global, growth: u64) -> Result<String, AllocError> {
    let (whole, part) = (growth / AS_IT_IS, growth % AS_IT_IS);
    if growth == 0 {
        String::from_str(alloc, "no shrinking helps")
    } else if growth < AS_IT_IS {
        format!(in alloc;
            "the table does not pass: every execution time would have to shrink to {whole}.{part:03} of what it is"
        )
    } else if growth == AS_IT_IS {
        String::from_str(
            alloc,
            "the table passes as it is, and not with a thousandth more",
        )
    } else if growth < GREATEST {
        format!(in alloc; "every execution time may grow to {whole}.{part:03} times what it is")
    } else {
        String::from_str(
            alloc,
            "four times as much passes, and perhaps more: no more is tried",
        )
    }
}

fn name_of(alloc: Global, task: &Task) -> Result<String, AllocError> {
    String::from_utf8_lossy(alloc, task.name.text())
}

fn limit_of(task: &Task) -> u64 {
    task.deadline.0.saturating_sub(task.jitter.0)
}

// Whole pixels of a place in the picture.
fn pixels(tenths: i64) -> i64 {
    tenths / 10
}
