// What the page says of every table: the equations, and what is proved and assumed.

// What is proved, and what is assumed. README.md has the same paragraph, and tests/dossier.py holds the two together.
pub const PROVED: &str =
    "Where a task's answer is a response R, every job of the task, in every run of the table, is complete R ticks after its release, and so by its deadline. Every figure comes from a function with a contract, which a checker has proved: no index is out of range, no sum wraps, every loop ends, and the result is the one that the contract says. So a response is the smallest solution of its method's equation within the limit, and there is none exactly where the equation has none; an explanation adds up to its figure. Assumed are the checker and its logic, the compiler's back end, what the operating system does as a program reads and writes, and that the stack suffices; and that the definitions of a response, of a reload count and of a refusal, which are short and there to be read, are the wanted ones.";

// What of the page is not among it.
pub const NOT_PROVED: &str =
    "The words of this page and its layout are not proved but tested. Whether the figures hold of the machine rests on the table: its times and its cache sets have to be those of the programs that run.";

// The equation of a task.
pub const EQUATION: &str =
    "The response of a task is the smallest time R, up to its limit, that is what is asked for in R: the task's execution time; where an access of a lower task may block it, the length of that access; and for each task above it, its activations in R, each with its execution time and the block reloads that it is charged, times the block reload time. The activations are (R + jitter) / period, rounded up, with the jitter and the period of the task above. The limit is the deadline less the jitter, of the task itself. What an activation is charged is the method:";

// The tasks that are affected.
pub const AFFECTED: &str =
    "Affected are the tasks below the one that is activated, down to the one whose response it is. Useful sets are those of a task's UCB, evicting sets those of its ECB.";

// The table of cache sets with several ways.
pub const WAYS: &str =
    "This table counts useful blocks: a digit of a UCB tells how many a cache set holds. What an evicting set clears is all that its set holds. Under ecb-only each set counts as many blocks as there are ways, and under ucb-union the counts of a set are added, up to the ways.";

// The accesses to shared devices.
pub const ACCESSES: &str =
    "This table has accesses to shared devices, (17) and (18). One may block a task where its own task is below and its ceiling is the task or one above. The equation is then taken for each such access alone: its length stands beside the execution time, and for each task above its ceiling it is one more that is affected, with its own useful sets. The response is the largest of these.";

// Of a method its equation in the paper, and what an activation is charged.
pub const CHARGES: [(&str, &str); 6] = [
    ("(1)", "nothing"),
    ("(3)", "every evicting set of the task that is activated"),
    ("(4)", "the most useful sets of one affected task"),
    (
        "(5)",
        "the evicting sets of the task that is activated that are useful to any affected task",
    ),
    (
        "(10)",
        "the most useful sets of one affected task that are evicting sets of the task that is activated or of any above it",
    ),
    (
        "(11)",
        "no count of its own: the response is the smaller of those under ucb-union and ecb-union, or the one that there is",
    ),
];

// The paper that the numbers are of.
pub const PAPER: &str =
    "The numbers are those of S. Altmeyer, R. I. Davis, C. Maiza, on cache related pre-emption delays in fixed-priority pre-emptive systems.";

// What the lines of a table say.
pub const LINES: &str =
    "Line K has the number of cache sets, the time to reload a block and, where useful blocks are counted, the ways of a set. A line T has a task, the highest first: its name, execution time, period, deadline, release jitter, a 0, and its useful and its evicting cache sets (UCB, ECB). A line A has an access to a shared device: its task, its ceiling, its length and its useful cache sets. Times are ticks.";
