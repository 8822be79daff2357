// Names of tasks.
ghost use Rattle.std.specs.Prelude.{◌≡◌, ◌≤◌, ◌==◌, IsTrue, length, position};
ghost use Rattle.texts.specs.Fields.{is_name};
ghost use Rattle.std.specs.Str.{bytes_eq};
ghost use Rattle.table.specs.Names.{has_name, knows, is_filled};
ghost use Rattle.table.specs.Tasks.{name_text, pack_name};

use crate::tasks::Task;
use texts::fields;

// A name of 1 to 12 bytes, filled up with zeros.
#[derive(Clone, Copy, PartialEq, Eq)]
pub struct Name {
    pub bytes: [u8; 12],
}

impl Name {
    // The name that a field says.
    pub fn of(field: &[u8]) -> Name
        requires { IsTrue (is_name field.now) }
        ensures { result ≡ pack_name field.now }
    {
        let mut bytes = [0; 12];
        bytes[..field.len()].copy_from_slice(field);
        Name { bytes }
    }

    // Where the zeros begin that fill it up.
    fn end(&self) -> Option<usize>
        ensures { result ≡ position (λ b. b == 0) self.now.bytes }
    {
        self.bytes.iter().position(|b| *b == 0)
    }

    // Its bytes, without the zeros that fill it up.
    pub fn text(&self) -> &[u8]
        ensures { result.now ≡ name_text self.now }
    {
        match self.end() {
            Some(end) => &self.bytes[..end],
            None => &self.bytes,
        }
    }

    // How many bytes that are.
    pub fn len(&self) -> usize
        ensures is { result ≡ length (name_text self.now) }
        ensures few { result ≤ 12 }
    {
        let whole = &self.bytes;
        match self.end() {
            Some(end) => end,
            None => whole.len(),
        }
    }

    // Whether it is a name that a field can say: filled up with zeros alone.
    #[tactic(auto, unfolding(crate::specs::Names::is_filled))]
    pub fn is_filled(&self) -> bool
        ensures { result ≡ is_filled self.now }
    {
        let text = self.text();
        fields::is_name(text) && Name::of(text).is(*self)
    }

    // Whether it is this name.
    fn is(&self, other: Name) -> bool
        ensures { result ≡ bytes_eq self.now.bytes other.bytes }
    {
        fields::same_bytes(&self.bytes, &other.bytes)
    }
}

// The position of the task that has a name.
pub fn position_of(name: Name, tasks: &[Task]) -> Option<usize>
    ensures { result ≡ position (has_name name) tasks.now }
{
    tasks.iter().position(|task| task.name.is(name))
}

// Whether one of the tasks has a name.
pub fn is_known(name: Name, tasks: &[Task]) -> bool
    ensures { result ≡ knows name tasks.now }
{
    tasks.iter().any(|task| task.name.is(name))
}
