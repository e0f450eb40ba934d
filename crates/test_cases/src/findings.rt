//! What is found where the cases of a file are compared.

use crate::{refused_memory, refusing, trees, ways, writing};
use std::alloc::{AllocError, Global};
use test_events::{Case, Difference};

/// How many differences are shown of a file.
const MOST_SHOWN: usize = 20;

/// What is compared with a case.
#[derive(Clone, Copy)]
pub enum Subject {
    /// The events, by each way to take them.
    Events,
    /// What is left where a receiver refuses an event.
    RefusedEvents,
    /// What is written where a write fails.
    FailedWrites,
    /// What takes memory, while there is some.
    GrantedMemory,
    /// The documents as trees, within limits.
    Trees,
    /// That each way to take the events finds a difference.
    Differences,
}

impl Subject {
    pub fn name(self) -> &'static str {
        match self {
            Subject::Events => "events",
            Subject::RefusedEvents => "refused events",
            Subject::FailedWrites => "failed writes",
            Subject::GrantedMemory => "granted memory",
            Subject::Trees => "trees",
            Subject::Differences => "differences by each way",
        }
    }

    fn compare(self, alloc: Global, case: &Case) -> Result<(), Difference> {
        match self {
            Subject::Events => ways::compare(alloc, case),
            Subject::RefusedEvents => refusing::compare(alloc, case),
            Subject::FailedWrites => writing::compare(alloc, case),
            Subject::GrantedMemory => refused_memory::compare(alloc, case),
            Subject::Trees => trees::compare(alloc, case),
            Subject::Differences => ways::differ(alloc, case),
        }
    }
}

/// What is found of the cases of a file.
#[derive(Drop)]
pub struct Findings {
    /// How many cases agree.
    pub agreeing: usize,
    /// The first differences, each after the name of its case.
    pub differences: Vec<String>,
}

impl Findings {
    // Puts a difference after the others, while there are few.
    fn put(&mut self, alloc: Global, name: &str, difference: Difference) -> Result<(), AllocError> {
        match difference.text() {
            Ok(text) => self.put_text(alloc, name, text.as_str()),
            Err(error) => Err(error),
        }
    }

    fn put_text(&mut self, alloc: Global, name: &str, text: &str) -> Result<(), AllocError> {
        if self.differences.len() < MOST_SHOWN {
            self.differences.push(format!(in alloc; "{name}, {text}")?)?;
        }
        Ok(())
    }
}

/// Compares each of the cases.
pub fn compare_all(
    alloc: Global,
    cases: &[Case],
    subject: Subject,
) -> Result<Findings, AllocError> {
    let mut found = Findings {
        agreeing: 0,
        differences: Vec::new(alloc),
    };
    for case in cases {
        match subject.compare(alloc, case) {
            Ok(()) => found.agreeing = found.agreeing.saturating_add(1),
            Err(difference) => found.put(alloc, case.name.as_str(), difference)?,
        }
    }
    Ok(found)
}
