// The same of table texts, where nothing is asked of the caller; and how texts and tables come back.
ghost use Rattle.laws.specs.Texts.{EasierTextRespondsFirst, ComesBack, IsReadAgain};

use search::demand::Response;
use table::Table;
use texts::refusals::Refusal;

// What two texts are answered.
#[derive(Clone, Copy)]
pub struct TwoAnswers {
    pub first: Result<Response, Refusal>,
    pub second: Result<Response, Refusal>,
}

// What each of two texts is answered for the task at a position.
pub fn of_two_texts(first: &[u8], second: &[u8], method: u64, position: u64) -> TwoAnswers
    ensures { EasierTextRespondsFirst first.now second.now method position result }
{
    TwoAnswers {
        first: crpd::answer(first, method, position),
        second: crpd::answer(second, method, position),
    }
}

// A text, read and then written into a buffer that no accepted text is too long for; or why it is refused.
pub fn read_then_written(text: &[u8], out: &mut [u8; 16384]) -> Result<usize, Refusal>
    ensures { ComesBack text.now out.old result out.new }
{
    crpd::rewrite(text, out)
}

// A table, written and then read; or, where no text gives it, that it has none.
pub fn written_then_read(table: &Table, again: &mut Table) -> Result<(), Refusal>
    ensures { IsReadAgain table.now again.old result again.new }
{
    let mut out = [0u8; 16384];
    let len = crpd::write(table, &mut out)?;
    *again = Table::empty();
    again.read(&out[..len])
}
