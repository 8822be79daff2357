// Which task of one table is which of another: the one of its name.

use std::alloc::{AllocError, Global};
use table::Table;
use table::tasks::{Task, position_of};

// For each task of a table, by its position, where the other table has it.
#[derive(Drop)]
struct Places {
    places: Vec<Option<usize>>,
}

impl Places {
    // Where others have tasks.
    fn of(alloc: Global, tasks: &[Task], others: &[Task]) -> Result<Places, AllocError> {
        let mut places = Vec::new(alloc);
        for task in tasks {
            places.push(position_of(task.name, others))?;
        }
        Ok(Places { places })
    }

    fn place(&self, k: usize) -> Option<usize> {
        match self.places.get(k) {
            Some(place) => *place,
            None => None,
        }
    }

    // How many of the tasks above that at a position the others have, too.
    fn rank(&self, k: usize) -> u64 {
        let mut rank = 0u64;
        for place in self.places.iter().take(k) {
            if place.is_some() {
                rank = rank.saturating_add(1);
            }
        }
        rank
    }

    // Whether the others have each task at its own position.
    fn are_the_same(&self) -> bool {
        for (k, place) in self.places.iter().enumerate() {
            match place {
                Some(place) if *place == k => {}
                _ => return false,
            }
        }
        true
    }
}

// A position in the old table or none, and one in the new table or none: of one task.
#[derive(Clone, Copy)]
pub struct Pair {
    pub old: Option<usize>,
    pub new: Option<usize>,
}

// The tasks of two tables.
#[derive(Drop)]
pub struct Matching {
    old: Places,
    new: Places,
}

impl Matching {
    pub fn of(alloc: Global, old: &Table, new: &Table) -> Result<Matching, AllocError> {
        Ok(Matching {
            old: Places::of(alloc, old.tasks(), new.tasks())?,
            new: Places::of(alloc, new.tasks(), old.tasks())?,
        })
    }

    // Where the task at a position of the new table stands in both.
    pub fn of_new(&self, k: usize) -> Pair {
        Pair {
            old: self.new.place(k),
            new: Some(k),
        }
    }

    // That of the old table at a position, where the new one has it no more.
    pub fn gone(&self, k: usize) -> Option<Pair> {
        match self.old.place(k) {
            Some(_) => None,
            None => Some(Pair {
                old: Some(k),
                new: None,
            }),
        }
    }

    // The position of a task in the old table and in the new one: of a task that both have, among those that both have.
    pub fn priorities(&self, pair: Pair) -> (Option<u64>, Option<u64>) {
        match (pair.old, pair.new) {
            (Some(old), Some(new)) => (Some(self.old.rank(old)), Some(self.new.rank(new))),
            (old, new) => (old.map(|k| k as u64), new.map(|k| k as u64)),
        }
    }
}
