// The words of a command line, sorted into options and others.
use crate::ending::Stop;
use std::alloc::Global;
use texts::fields::is_name;

// An option that a command may have.
#[derive(Clone, Copy, PartialEq, Eq)]
pub enum Opt {
    Words,
    Output,
    Jobs,
    Part,
    Sets,
    Seed,
}

impl Opt {
    fn long(self) -> &'static str {
        match self {
            Opt::Words => "--words",
            Opt::Output => "--output",
            Opt::Jobs => "--jobs",
            Opt::Part => "--part",
            Opt::Sets => "--sets",
            Opt::Seed => "--seed",
        }
    }

    fn short(self) -> Option<&'static str> {
        match self {
            Opt::Output => Some("-o"),
            Opt::Jobs => Some("-j"),
            _ => None,
        }
    }

    fn has_value(self) -> bool {
        self != Opt::Words
    }
}

// What a command may be given.
#[derive(Clone, Copy)]
pub struct Form {
    pub options: &'static [Opt],
    pub needs_output: bool,
    // of the words that are no options, the operands, the least number and the most
    pub least: usize,
    pub most: usize,
    // which of them is a TASK: a name may start with `-`
    pub task: Option<usize>,
}

#[derive(Drop)]
struct Given {
    option: Opt,
    value: Vec<u8>,
}

// What a command was given.
#[derive(Drop)]
pub struct Arguments {
    alloc: Global,
    options: Vec<Given>,
    operands: Vec<Vec<u8>>,
    pub wants_help: bool,
}

// What a word that is an option carries itself.
#[derive(Clone, Copy)]
enum Carried<'a> {
    Nothing(Opt),
    Value(Opt, &'a [u8]),
}

// The option that a word is, with the value that it carries itself.
fn option_of<'a>(options: &[Opt], word: &'a [u8]) -> Option<Carried<'a>> {
    let long = word.starts_with(b"--".as_slice());
    for option in options {
        let name = if long {
            Some(option.long())
        } else {
            option.short()
        };
        let Some(name) = name else {
            continue;
        };
        let Some(rest) = word.strip_prefix(name.as_bytes()) else {
            continue;
        };
        if rest.is_empty() {
            return Some(Carried::Nothing(*option));
        }
        if !long {
            return Some(Carried::Value(*option, rest));
        }
        if rest[0] == b'=' && option.has_value() {
            return Some(Carried::Value(*option, &rest[1..]));
        }
    }
    None
}

// Sorts the words after a command's name.
pub fn sorted(alloc: Global, form: Form, words: &[Vec<u8>]) -> Result<Arguments, Stop> {
    let mut found = Arguments {
        alloc,
        options: Vec::new(alloc),
        operands: Vec::new(alloc),
        wants_help: false,
    };
    let mut open = true;
    let mut waiting: Option<Opt> = None;
    for word in words {
        let bytes = word.as_slice();
        if let Some(option) = waiting {
            found.take(option, bytes)?;
            waiting = None;
        } else if !open {
            found.operands.push(word.clone()?)?;
        } else if bytes == b"--".as_slice() {
            open = false;
        } else if bytes == b"-h".as_slice() || bytes == b"--help".as_slice() {
            found.wants_help = true;
        } else {
            match option_of(form.options, bytes) {
                Some(Carried::Value(option, value)) => found.take(option, value)?,
                Some(Carried::Nothing(option)) => {
                    if option.has_value() {
                        waiting = Some(option);
                    } else {
                        found.take(option, b"")?;
                    }
                }
                None => found.add_operand(form.task, bytes)?,
            }
        }
    }
    if let Some(option) = waiting {
        let option = option.long();
        return Err(Stop::wrong_use(format!(in alloc; "{option} needs a value")?));
    }
    if !found.wants_help {
        found.fits(form)?;
    }
    Ok(found)
}

impl Arguments {
    fn take(&mut self, option: Opt, value: &[u8]) -> Result<(), Stop> {
        if self.has(option) {
            let alloc = self.alloc;
            let option = option.long();
            return Err(Stop::wrong_use(format!(in alloc; "{option} is given twice")?));
        }
        let value = Vec::from_slice(self.alloc, value)?;
        self.options.push(Given { option, value })?;
        Ok(())
    }

    // A word that is no option of the command.
    fn add_operand(&mut self, task: Option<usize>, word: &[u8]) -> Result<(), Stop> {
        let alloc = self.alloc;
        let dashed = word.starts_with(b"-".as_slice()) && word != b"-".as_slice();
        let is_task = task == Some(self.operands.len()) && is_name(word);
        if dashed && !is_task {
            let word = wording::word(alloc, word)?;
            let message = format!(in alloc;
                "there is no option {word}; a name that starts with - goes after --"
            )?;
            return Err(Stop::wrong_use(message));
        }
        self.operands.push(Vec::from_slice(alloc, word)?)?;
        Ok(())
    }

    fn fits(&self, form: Form) -> Result<(), Stop> {
        let alloc = self.alloc;
        if let Some(surplus) = self.operands.get(form.most) {
            let word = wording::word(alloc, surplus.as_slice())?;
            return Err(Stop::wrong_use(format!(in alloc; "{word} is one argument too many")?));
        }
        if self.operands.len() < form.least {
            return Err(Stop::wrong(alloc, "there are too few arguments"));
        }
        if form.needs_output && !self.has(Opt::Output) {
            return Err(Stop::wrong(alloc, "-o OUT.svg is missing"));
        }
        Ok(())
    }

    pub fn has(&self, option: Opt) -> bool {
        self.value(option).is_some()
    }

    pub fn value(&self, option: Opt) -> Option<&[u8]> {
        for given in &self.options {
            if given.option == option {
                return Some(given.value.as_slice());
            }
        }
        None
    }

    // All operands.
    pub fn operands(&self) -> &[Vec<u8>] {
        self.operands.as_slice()
    }

    // The operand at a place, from 0 on.
    pub fn operand(&self, at: usize) -> Option<&[u8]> {
        match self.operands.get(at) {
            Some(operand) => Some(operand.as_slice()),
            None => None,
        }
    }

    // The number that an option says, from `least` to `most`, or what it is without the option.
    pub fn number(&self, option: Opt, least: u64, most: u64, without: u64) -> Result<u64, Stop> {
        let Some(value) = self.value(option) else {
            return Ok(without);
        };
        if let Some(number) = digits(value) {
            if least <= number && number <= most {
                return Ok(number);
            }
        }
        let alloc = self.alloc;
        let (least, most) = (
            wording::number(alloc, least)?,
            wording::number(alloc, most)?,
        );
        let (option, value) = (option.long(), wording::word(alloc, value)?);
        Err(Stop::wrong_use(format!(in alloc;
            "{option} is a number from {least} to {most}, and not {value}"
        )?))
    }

    // The part that an option says as K/N: K, from 1 to N, and N. All is the part 1 of 1.
    pub fn part(&self) -> Result<(u64, u64), Stop> {
        let Some(value) = self.value(Opt::Part) else {
            return Ok((1, 1));
        };
        if let Some(part) = part_of(value) {
            return Ok(part);
        }
        let alloc = self.alloc;
        let value = wording::word(alloc, value)?;
        Err(Stop::wrong_use(format!(in alloc; "--part is K/N, from 1/N to N/N, and not {value}")?))
    }

    // The task at a place.
    pub fn task(&self, at: usize) -> Result<Asked<'_>, Stop> {
        let word = self.operand(at).unwrap_or(b"");
        let Some(position) = word.strip_prefix(b"#".as_slice()) else {
            return Ok(Asked::Named(word));
        };
        if position.is_empty() || !position.iter().all(|byte| byte.is_ascii_digit()) {
            let alloc = self.alloc;
            let word = wording::word(alloc, word)?;
            return Err(Stop::wrong_use(format!(in alloc;
                "{word} is no position: one is written as #0, #1 and so on"
            )?));
        }
        // a position that no number holds is no less one that no table has
        Ok(Asked::At(digits(position).unwrap_or(u64::MAX), word))
    }
}

// A task as it is asked for: by its name, or by its position, with how that was written.
#[derive(Clone, Copy)]
pub enum Asked<'a> {
    Named(&'a [u8]),
    At(u64, &'a [u8]),
}

// The number that digits alone say, if it is not too large.
pub fn digits(word: &[u8]) -> Option<u64> {
    let mut number = 0u64;
    if word.is_empty() {
        return None;
    }
    for byte in word {
        if !byte.is_ascii_digit() {
            return None;
        }
        number = number.checked_mul(10)?.checked_add((*byte - b'0') as u64)?;
    }
    Some(number)
}

// A part that is written as K/N.
fn part_of(written: &[u8]) -> Option<(u64, u64)> {
    let slash = written.iter().position(|byte| *byte == b'/')?;
    let number = digits(written.get(..slash)?)?;
    let of = digits(written.get(slash.saturating_add(1)..)?)?;
    if 1 <= number && number <= of {
        Some((number, of))
    } else {
        None
    }
}
