// Texts, each read, and what the reader answers: a refusal's number and line; or of a table that is accepted its cache sets, its
// block reload time, how many tasks it has, and of the first its name, C, T, D, J and the sizes of UCB and ECB; and where it has accesses,
// how many, and of the first the positions of its task and its ceiling, its length and the size of its UCB.
#![tactic(auto)]

ghost use Rattle.std.specs.Prelude.{◌+◌, ◌-◌, ◌≤◌, length};

use std::io::{self, Print};
use table::Table;
use table::accepted::Accepted;
use table::accesses::Access;
use table::tasks::Task;
use texts::refusals::Refusal;

fn say_refusal(out: &impl Print, refusal: Refusal) -> io::Result<()> {
    print!(out; " refused {} {}", refusal.reason.number(), refusal.line)
}

fn say_task(out: &impl Print, t: &Task, ways: u64) -> io::Result<()>
    requires { ways ≤ 8 }
{
    out.write_all(b" ")?;
    out.write_all(t.name.text())?;
    let (ucb, ecb) = (t.ucb.size(ways), t.ecb.size());
    print!(out;
        " {} {} {} {}",
        t.work.0, t.period.0, t.deadline.0, t.jitter.0
    )?;
    print!(out; " {} {}", ucb.0, ecb.0)
}

fn say_access(out: &impl Print, a: &Access, ways: u64) -> io::Result<()>
    requires { ways ≤ 8 }
{
    let ucb = a.ucb.size(ways);
    print!(out; " {} {} {} {}", a.task, a.ceiling, a.lasts.0, ucb.0)
}

fn say_table(out: &impl Print, accepted: Accepted) -> io::Result<()> {
    let table = accepted.table;
    let ways = table.ways();
    print!(out; " accepted {} {} {}", table.sets, table.brt.0, table.count)?;
    if let Some(first) = table.tasks().first() {
        say_task(out, first, ways)?;
    }
    if let Some(first) = table.accesses().first() {
        print!(out; " {}", table.access_count)?;
        say_access(out, first, ways)?;
    }
    Ok(())
}

fn say_answer(out: &impl Print, input: &[u8]) -> io::Result<()> {
    let mut table = Table::empty();
    match Accepted::read(input, &mut table) {
        Ok(accepted) => say_table(out, accepted),
        Err(refusal) => say_refusal(out, refusal),
    }
}

// What a text is, and what the reader answers. The text is `tail` after `head`.
fn show(out: &impl Print, what: &[u8], head: &[u8], tail: &[u8]) -> io::Result<()>
    requires { length head.now + length tail.now ≤ 20000 }
{
    out.write_all(what)?;
    out.write_all(b":")?;
    let mut input = [0u8; 20000];
    let middle = head.len();
    let end = middle + tail.len();
    input[..middle].copy_from_slice(head);
    input[middle..end].copy_from_slice(tail);
    say_answer(out, &input[..end])?;
    out.write_all(b"\n")
}

// What stands in front of the first '|', and what behind it.
fn cut(entry: &[u8]) -> (&[u8], &[u8])
    ensures { length result.1.now ≤ length entry.now }
{
    match entry.iter().position(|b| *b == b'|') {
        Some(end) => (&entry[..end], &entry[end + 1..]),
        None => (entry, &[]),
    }
}

// Shows texts that start with `head`. Between ';', the list has of each what it is, '|', and what stands after `head`.
fn show_all(out: &impl Print, head: &[u8], list: &[u8]) -> io::Result<()>
    requires { length head.now + length list.now ≤ 20000 }
{
    for entry in list.split(|b| *b == b';') {
        let (what, tail) = cut(entry);
        show(out, what, head, tail)?;
    }
    Ok(())
}

fn main(rt: HostRuntime) -> io::Result<()> {
    let out = rt.stdout();
    // Tables that are accepted, and texts that are refused as a whole.
    show_all(
        &out,
        b"",
        b"three tasks|K\t4\t1\nT\ta\t1\t20\t20\t0\t0\t0\tf\nT\tb\t2\t40\t40\t0\t0\t3\tf\nT\tc\t2\t60\t60\t0\t0\tc\tf\n;\
          the largest numbers, J = D = T, a name of 12 bytes|K\t256\t100000\nT\tabcdefgh-012\t250000000\t250000000\t250000000\t250000000\t0\t0123456789abcdef0123456789abcdef0123456789abcdef0123456789abcdef\tffffffffffffffffffffffffffffffffffffffffffffffffffffffffffffffff\n;\
          the smallest|K\t4\t0\nT\t-\t1\t1\t1\t0\t0\t0\t0\n;\
          C above D|K\t8\t1\nT\ta\t21\t20\t20\t0\t0\tff\t00\n;\
          a name that starts another|K\t4\t1\nT\ta\t1\t20\t20\t0\t0\t0\tf\nT\taa\t1\t20\t20\t0\t0\t0\tf\n;\
          names of 12 bytes, the last differs|K\t4\t1\nT\tabcdefghijkl\t1\t20\t20\t0\t0\t0\tf\nT\tabcdefghijkm\t1\t20\t20\t0\t0\t0\tf\n;\
          nothing|;\
          no LF|K\t4\t1;\
          no LF at the end|K\t4\t1\nT\ta\t1\t20\t20\t0\t0\t0\tf;\
          no task line|K\t4\t1\n",
    )?;
    // Texts that are as long as may be, or longer by a byte.
    show_all(
        &out,
        &[b'a'; 16383],
        b"16,384 bytes without LF|a;\
          16,385 bytes without LF|aa;\
          16,385 bytes|a\n;\
          16,384 bytes|\n",
    )?;
    // Line 1, and then a task line: its shape, name, numbers, sets and order.
    show_all(
        &out,
        b"",
        b"an empty line 1|\n;\
          a T on line 1|T\t4\t1\n;\
          a small k|k\t4\t1\n;\
          two letters|KK\t4\t1\n;\
          byte 255|\xff\t4\t1\n;\
          two fields|K\t4\n;\
          a tab at the end of line 1|K\t4\t1\t\n;\
          spaces|K 4 1\n;\
          3 before 5|T\tx\t1\n;\
          a leading zero|K\t007\t1\n;\
          an empty number|K\t\t1\n;\
          a sign|K\t4\t+1\n;\
          CR before LF on line 1|K\t4\t1\r\n;\
          byte 0|K\t4\x00\t1\n;\
          byte 128|K\t4\t1\x80\n;\
          ten digits|K\t1000000000\t1\n;\
          5 before 6|K\t6\tx\n;\
          nine digits|K\t999999999\t1\n;\
          6 sets|K\t6\t1\n;\
          no sets|K\t0\t1\n;\
          260 sets|K\t260\t1\n;\
          BRT above its range|K\t4\t100001\n;\
          line 1 before line 2|K\t4\t100001\nU\n;\
          an empty line 2|K\t4\t1\n\n;\
          an empty last line|K\t4\t1\nT\ta\t1\t20\t20\t0\t0\t0\tf\n\n;\
          a K on line 2|K\t4\t1\nK\t4\t1\n;\
          eight fields|K\t4\t1\nT\ta\t1\t20\t20\t0\t0\t0\n;\
          a tab at the end of line 2|K\t4\t1\nT\ta\t1\t20\t20\t0\t0\t0\tf\t\n;\
          3 before 4|K\t4\t1\nU\tA\t1\t20\t20\t0\t0\t0\tf\n;\
          an empty name|K\t4\t1\nT\t\t1\t20\t20\t0\t0\t0\tf\n;\
          a name of 13 bytes|K\t4\t1\nT\tabcdefgh-0123\t1\t20\t20\t0\t0\t0\tf\n;\
          a capital|K\t4\t1\nT\tA\t1\t20\t20\t0\t0\t0\tf\n;\
          byte 0 in a name|K\t4\t1\nT\ta\x00\t1\t20\t20\t0\t0\t0\tf\n;\
          byte 200 in a name|K\t4\t1\nT\ta\xc8\t1\t20\t20\t0\t0\t0\tf\n;\
          4 before 5|K\t4\t1\nT\tA\tx\t20\t20\t0\t0\t0\tf\n;\
          a bad C|K\t4\t1\nT\ta\t01\t20\t20\t0\t0\t0\tf\n;\
          a bad T|K\t4\t1\nT\ta\t1\t\t20\t0\t0\t0\tf\n;\
          a bad D|K\t4\t1\nT\ta\t1\t20\t2o\t0\t0\t0\tf\n;\
          a bad J|K\t4\t1\nT\ta\t1\t20\t20\t00\t0\t0\tf\n;\
          5 before 6: C 0, a bad B|K\t4\t1\nT\ta\t0\t20\t20\t0\t-\t0\tf\n;\
          C 0|K\t4\t1\nT\ta\t0\t20\t20\t0\t0\t0\tf\n;\
          T 0|K\t4\t1\nT\ta\t1\t0\t20\t0\t0\t0\tf\n;\
          D 0|K\t4\t1\nT\ta\t1\t20\t0\t0\t0\t0\tf\n;\
          C above its range|K\t4\t1\nT\ta\t250000001\t20\t20\t0\t0\t0\tf\n;\
          6 before 7: T above its range|K\t4\t1\nT\ta\t1\t250000001\t20\t0\t0\t0\tg\n;\
          6 before 8: D above its range|K\t4\t1\nT\ta\t1\t20\t250000001\t0\t0\t0\tf\n;\
          6 before 8: J above its range|K\t4\t1\nT\ta\t1\t20\t20\t250000001\t0\t0\tf\n;\
          B above its range|K\t4\t1\nT\ta\t1\t20\t20\t0\t250000001\t0\tf\n;\
          the largest B|K\t4\t1\nT\ta\t1\t20\t20\t0\t250000000\t0\tf\n;\
          7 before 17|K\t4\t1\nT\ta\t1\t20\t20\t0\t1\tg\tf\n;\
          D above T|K\t4\t1\nT\ta\t1\t20\t21\t0\t0\t0\tf\n;\
          J above D|K\t4\t1\nT\ta\t1\t20\t20\t21\t0\t0\tf\n;\
          a bad UCB|K\t4\t1\nT\ta\t1\t20\t20\t0\t0\tg\tf\n;\
          no ECB|K\t4\t1\nT\ta\t1\t20\t20\t0\t0\t0\t\n;\
          a capital in ECB|K\t4\t1\nT\ta\t1\t20\t20\t0\t0\t0\tF\n;\
          two digits for 4 sets|K\t4\t1\nT\ta\t1\t20\t20\t0\t0\t0\t0f\n;\
          one digit for 8 sets|K\t8\t1\nT\ta\t1\t20\t20\t0\t0\t0\tff\n;\
          CR before LF on line 2|K\t4\t1\nT\ta\t1\t20\t20\t0\t0\t0\tf\r\n;\
          7 before 8|K\t4\t1\nT\ta\t1\t20\t21\t0\t0\t0\tF\n;\
          8 before 9|K\t4\t1\nT\ta\t1\t20\t20\t0\t0\t0\tf\nT\ta\t1\t20\t21\t0\t0\t0\tf\n;\
          a name again|K\t4\t1\nT\ta\t1\t20\t20\t0\t0\t0\tf\nT\tb\t1\t20\t20\t0\t0\t0\tf\nT\ta\t1\t20\t20\t0\t0\t0\tf\n;\
          line 2 before line 3|K\t4\t1\nT\ta\t1\t20\t21\t0\t0\t0\tf\nU\n",
    )?;
    // 31 task lines, with the names a0 to z0 and a1 to e1, and what stands below them.
    show_all(
        &out,
        b"K\t4\t1\n\
          T\ta0\t1\t20\t20\t0\t0\t0\tf\nT\tb0\t1\t20\t20\t0\t0\t0\tf\nT\tc0\t1\t20\t20\t0\t0\t0\tf\n\
          T\td0\t1\t20\t20\t0\t0\t0\tf\nT\te0\t1\t20\t20\t0\t0\t0\tf\nT\tf0\t1\t20\t20\t0\t0\t0\tf\n\
          T\tg0\t1\t20\t20\t0\t0\t0\tf\nT\th0\t1\t20\t20\t0\t0\t0\tf\nT\ti0\t1\t20\t20\t0\t0\t0\tf\n\
          T\tj0\t1\t20\t20\t0\t0\t0\tf\nT\tk0\t1\t20\t20\t0\t0\t0\tf\nT\tl0\t1\t20\t20\t0\t0\t0\tf\n\
          T\tm0\t1\t20\t20\t0\t0\t0\tf\nT\tn0\t1\t20\t20\t0\t0\t0\tf\nT\to0\t1\t20\t20\t0\t0\t0\tf\n\
          T\tp0\t1\t20\t20\t0\t0\t0\tf\nT\tq0\t1\t20\t20\t0\t0\t0\tf\nT\tr0\t1\t20\t20\t0\t0\t0\tf\n\
          T\ts0\t1\t20\t20\t0\t0\t0\tf\nT\tt0\t1\t20\t20\t0\t0\t0\tf\nT\tu0\t1\t20\t20\t0\t0\t0\tf\n\
          T\tv0\t1\t20\t20\t0\t0\t0\tf\nT\tw0\t1\t20\t20\t0\t0\t0\tf\nT\tx0\t1\t20\t20\t0\t0\t0\tf\n\
          T\ty0\t1\t20\t20\t0\t0\t0\tf\nT\tz0\t1\t20\t20\t0\t0\t0\tf\nT\ta1\t1\t20\t20\t0\t0\t0\tf\n\
          T\tb1\t1\t20\t20\t0\t0\t0\tf\nT\tc1\t1\t20\t20\t0\t0\t0\tf\nT\td1\t1\t20\t20\t0\t0\t0\tf\n\
          T\te1\t1\t20\t20\t0\t0\t0\tf\n",
        b"32 task lines|T\tf1\t1\t20\t20\t0\t0\t0\tf\n;\
          33 task lines|T\tf1\t1\t20\t20\t0\t0\t0\tf\nT\tg1\t1\t20\t20\t0\t0\t0\tf\n;\
          10 before 3|T\tf1\t1\t20\t20\t0\t0\t0\tf\nT\tg1\t1\t20\t20\t0\t0\t0\n;\
          line 33 before line 34|U\tf1\t1\t20\t20\t0\t0\t0\tf\nU\tg1\t1\t20\t20\t0\t0\t0\tf\n;\
          the first name again on line 33|T\ta0\t1\t20\t20\t0\t0\t0\tf\nT\tg1\t1\t20\t20\t0\t0\t0\tf\n;\
          31 tasks, an access, a task|A\tc0\ta0\t5\t3\nT\tf1\t1\t20\t20\t0\t0\t0\tf\n;\
          32 tasks, an access, a task|T\tf1\t1\t20\t20\t0\t0\t0\tf\nA\tc0\ta0\t5\t3\nT\tg1\t1\t20\t20\t0\t0\t0\tf\n;\
          32 tasks, an access, a bad task line|T\tf1\t1\t20\t20\t0\t0\t0\tf\nA\tc0\ta0\t5\t3\nT\n;\
          32 tasks and another line|T\tf1\t1\t20\t20\t0\t0\t0\tf\nU\n;\
          32 tasks and an access|T\tf1\t1\t20\t20\t0\t0\t0\tf\nA\tf1\ta0\t5\t3\n",
    )?;
    // Three tasks, and what stands below them: an access line, its shape, names, length, set and order.
    show_all(
        &out,
        b"K\t4\t1\nT\ta\t1\t20\t20\t0\t0\t0\tf\nT\tb\t1\t20\t20\t0\t0\t0\tf\nT\tc\t1\t20\t20\t0\t0\t0\tf\n",
        b"an access|A\tc\ta\t5\t3\n;\
          its own ceiling|A\tc\tc\t1\t0\n;\
          the same access again|A\tc\ta\t5\t3\nA\tc\ta\t5\t3\n;\
          the longest access|A\tb\ta\t250000000\tf\n;\
          a task line below an access|A\tc\ta\t5\t3\nT\td\t1\t20\t20\t0\t0\t0\tf\n;\
          a bad task line below an access|A\tc\ta\t5\t3\nT\tA\n;\
          another line below an access|A\tc\ta\t5\t3\nU\n;\
          a small a|a\tc\ta\t5\t3\n;\
          two letters before a name|AA\tc\ta\t5\t3\n;\
          four fields of an access|A\tc\ta\t5\n;\
          six fields of an access|A\tc\ta\t5\t3\t\n;\
          an access of nine fields|A\td\t1\t20\t20\t0\t0\t0\tf\n;\
          3 before 4 in an access|A\tC\ta\t5\n;\
          a capital in its task|A\tC\ta\t5\t3\n;\
          a capital in its ceiling|A\tc\tA\t5\t3\n;\
          no ceiling|A\tc\t\t5\t3\n;\
          4 before 5 in an access|A\tc\tA\tx\t3\n;\
          a bad length|A\tc\ta\t05\t3\n;\
          5 before 7 in an access|A\tc\ta\tx\tg\n;\
          length 0|A\tc\ta\t0\t3\n;\
          length above its range|A\tc\ta\t250000001\t3\n;\
          6 before 7 in an access|A\tc\ta\t0\tg\n;\
          a bad UCB of an access|A\tc\ta\t5\tg\n;\
          7 before 15|A\td\ta\t5\tg\n;\
          a task that is none|A\td\ta\t5\t3\n;\
          a ceiling that is none|A\tc\td\t5\t3\n;\
          a ceiling below the task|A\ta\tc\t5\t3\n;\
          a ceiling one below|A\tb\tc\t5\t3\n;\
          a line before the next|A\tc\ta\t5\t3\nA\ta\tc\t5\t3\nA\n",
    )?;
    show_all(
        &out,
        b"K\t4\t1\n",
        b"two with a B|T\ta\t1\t20\t20\t0\t0\t0\tf\nT\tb\t1\t20\t20\t0\t1\t0\tf\nT\tc\t1\t20\t20\t0\t2\t0\tf\n;\
          3 on the line below a B|T\ta\t1\t20\t20\t0\t1\t0\tf\nU\n;\
          B beside an access|T\ta\t1\t20\t20\t0\t0\t0\tf\nT\tb\t1\t20\t20\t0\t1\t0\tf\nT\tc\t1\t20\t20\t0\t2\t0\tf\nA\tc\ta\t5\t3\n;\
          15 before 17|T\ta\t1\t20\t20\t0\t1\t0\tf\nA\ta\tb\t5\t3\n;\
          an access and no task|A\tc\ta\t5\t3\n;\
          an access before the tasks|A\tc\ta\t5\t3\nT\ta\t1\t20\t20\t0\t0\t0\tf\n",
    )?;
    // A task and 31 accesses, and what stands below them.
    show_all(
        &out,
        b"K\t4\t1\nT\ta\t1\t20\t20\t0\t0\t0\tf\n\
          A\ta\ta\t1\t0\nA\ta\ta\t1\t0\nA\ta\ta\t1\t0\nA\ta\ta\t1\t0\nA\ta\ta\t1\t0\nA\ta\ta\t1\t0\nA\ta\ta\t1\t0\nA\ta\ta\t1\t0\n\
          A\ta\ta\t1\t0\nA\ta\ta\t1\t0\nA\ta\ta\t1\t0\nA\ta\ta\t1\t0\nA\ta\ta\t1\t0\nA\ta\ta\t1\t0\nA\ta\ta\t1\t0\nA\ta\ta\t1\t0\n\
          A\ta\ta\t1\t0\nA\ta\ta\t1\t0\nA\ta\ta\t1\t0\nA\ta\ta\t1\t0\nA\ta\ta\t1\t0\nA\ta\ta\t1\t0\nA\ta\ta\t1\t0\nA\ta\ta\t1\t0\n\
          A\ta\ta\t1\t0\nA\ta\ta\t1\t0\nA\ta\ta\t1\t0\nA\ta\ta\t1\t0\nA\ta\ta\t1\t0\nA\ta\ta\t1\t0\nA\ta\ta\t1\t0\n",
        b"32 accesses|A\ta\ta\t1\t0\n;\
          33 accesses|A\ta\ta\t1\t0\nA\ta\ta\t1\t0\n;\
          16 before 3|A\ta\ta\t1\t0\nA\n;\
          32 accesses and a task|A\ta\ta\t1\t0\nT\tb\t1\t20\t20\t0\t0\t0\tf\n;\
          32 accesses and another line|A\ta\ta\t1\t0\nU\n",
    )
}
