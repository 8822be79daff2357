// Refusals: why a text or a call is refused, which line is told, and which field of it.

ghost use Rattle.std.specs.Prelude.{◌≡◌};
ghost use Rattle.texts.specs.Faults.{at_field, no_field, on_line};
ghost use Rattle.texts.specs.Numbers.{reason_number, untold};

// Why a text, a table or a call is refused, each with its number.
#[derive(Clone, Copy, PartialEq, Eq)]
pub enum Reason {
    TooLong = 1,
    NotEnded = 2,
    Shape = 3,
    Name = 4,
    Number = 5,
    Range = 6,
    Marks = 7,
    Order = 8,
    KnownName = 9,
    TooManyTasks = 10,
    NoTask = 11,
    Method = 12,
    Position = 13,
    ShortBuffer = 14,
    OtherTask = 15,
    TooManyAccesses = 16,
    Blocking = 17,
    TooManyBlocks = 18,
    ListLine = 19,
    ListName = 20,
    HasJitter = 21,
    HasAccess = 22,
    LongHyperperiod = 23,
    LongDeadline = 24,
    NoText = 25,
}

impl Reason {
    pub fn number(self) -> u64
        ensures { result ≡ reason_number self }
    {
        self as u64
    }

    // The fault of a field for this reason.
    pub fn at(self, field: usize) -> Fault
        ensures { result ≡ at_field field self }
    {
        Fault {
            reason: self,
            field: Some(field),
        }
    }

    // The fault that is about no field.
    pub fn alone(self) -> Fault
        ensures { result ≡ no_field self }
    {
        Fault {
            reason: self,
            field: None,
        }
    }
}

// Why a line or a call is refused, and the field of the line that it is about, if it is about one: counted from 0, and where the line has too few, the place behind them.
#[derive(Clone, Copy, PartialEq, Eq)]
pub struct Fault {
    pub reason: Reason,
    pub field: Option<usize>,
}

impl Fault {
    // The refusal that tells a line.
    pub fn on(self, line: u64) -> Refusal
        ensures { result ≡ on_line line self }
    {
        Refusal {
            reason: self.reason,
            line,
            field: self.field,
        }
    }
}

// A refusal, the line that it tells, and the field that it is about, if it is about one.
#[derive(Clone, Copy, PartialEq, Eq)]
pub struct Refusal {
    pub reason: Reason,
    pub line: u64,
    pub field: Option<usize>,
}

impl Refusal {
    // A refusal that tells no line.
    pub fn untold(reason: Reason) -> Refusal
        ensures { result ≡ untold reason }
    {
        reason.alone().on(0)
    }
}
