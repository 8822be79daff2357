// The builds of two folders, name by name.

use std::alloc::{AllocError, Global};
use std::cmp::Ordering;

// The places of a build among those of the old folder and of the new one, where it is there.
#[derive(Clone, Copy)]
pub struct Places {
    pub old: Option<usize>,
    pub new: Option<usize>,
}

// Names in order, of the builds of two folders: those of one name are one build.
pub fn paired(alloc: Global, old: &[&[u8]], new: &[&[u8]]) -> Result<Vec<Places>, AllocError> {
    let mut pairs = Vec::new(alloc);
    let (mut i, mut j) = (0usize, 0usize);
    for _ in 0..old.len().saturating_add(new.len()) {
        let order = match (old.get(i), new.get(j)) {
            (None, None) => break,
            (Some(_), None) => Ordering::Less,
            (None, Some(_)) => Ordering::Greater,
            (Some(one), Some(two)) => one.cmp(two),
        };
        let places = Places {
            old: (order != Ordering::Greater).then_some(i),
            new: (order != Ordering::Less).then_some(j),
        };
        if places.old.is_some() {
            i = i.saturating_add(1);
        }
        if places.new.is_some() {
            j = j.saturating_add(1);
        }
        pairs.push(places)?;
    }
    Ok(pairs)
}
