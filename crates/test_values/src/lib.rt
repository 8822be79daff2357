// Tables written for tests in other languages: every value that a table can be comes as a list of numbers. specs/Values.antt says which they are.
#![tactic(auto)]

ghost use Rattle.std.specs.Prelude.{◌≡◌, ◌≤◌, length};
ghost use Rattle.test_values.specs.Values.{form_from, task_from, access_from, table_from, ValueCoded};

use cache::sets::CacheSet;
use cache::units::Ticks;
use cache::useful::{Form, Useful};
use crpd::codes::code;
use table::Table;
use table::accesses::Access;
use table::tasks::{Name, Task};

fn form_from(number: u64) -> Form
    ensures { result ≡ form_from number }
{
    if number == 0 {
        return Form::Hex;
    }
    Form::Digits(number)
}

fn name_from(numbers: &[u64]) -> Name
    requires { 52 ≤ length numbers.now }
    ensures { result ≡ (task_from numbers.now).name }
{
    let mut bytes = [0u8; 12];
    for k in 0..12usize {
        bytes[k] = (numbers[k] % 256) as u8;
    }
    Name { bytes }
}

fn task_from(numbers: &[u64]) -> Task
    requires { 52 ≤ length numbers.now }
    ensures { result ≡ task_from numbers.now }
{
    let words = &numbers[16..];
    Task {
        name: name_from(numbers),
        work: Ticks(numbers[12]),
        period: Ticks(numbers[13]),
        deadline: Ticks(numbers[14]),
        jitter: Ticks(numbers[15]),
        ucb: Useful::from_words(words),
        ecb: CacheSet::from_words(words, 8),
    }
}

fn access_from(numbers: &[u64]) -> Access
    requires { 35 ≤ length numbers.now }
    ensures { result ≡ access_from numbers.now }
{
    let words = &numbers[3..];
    Access {
        task: numbers[0] as usize,
        ceiling: numbers[1] as usize,
        lasts: Ticks(numbers[2]),
        ucb: Useful::from_words(words),
    }
}

fn table_from(numbers: &[u64]) -> Table
    requires { 2789 ≤ length numbers.now }
    ensures { result ≡ table_from numbers.now }
{
    let first = task_from(&numbers[4..]);
    let mut tasks = [first; 32];
    for k in 0..32usize {
        let task = task_from(&numbers[4 + 52 * k..]);
        tasks[k] = task;
    }
    let unused = access_from(&numbers[1669..]);
    let mut accesses = [unused; 32];
    for n in 0..32usize {
        let access = access_from(&numbers[1669 + 35 * n..]);
        accesses[n] = access;
    }
    Table {
        sets: numbers[0],
        brt: Ticks(numbers[1]),
        form: form_from(numbers[2]),
        count: numbers[3] as usize,
        tasks,
        access_count: numbers[1668] as usize,
        accesses,
    }
}

// The length of the text of the table that 2,789 numbers say, or the number of a refusal; 0 where there are fewer numbers.
#[unsafe(no_mangle)]
pub extern "C" fn test_write(numbers: &[u64], out: &mut [u8]) -> u64
    ensures { ValueCoded numbers.now out.old result out.new }
{
    if numbers.len() < 2789 {
        return 0;
    }
    let table = table_from(numbers);
    code(crpd::write(&table, out))
}
