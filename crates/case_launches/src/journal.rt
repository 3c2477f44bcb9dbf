//! A journal of the operations that a program performs. A chosen operation fails whenever the
//! program performs it.

use std::alloc::{AllocError, Global};
use std::cell::RefCell;
use std::io;
use std::io::ErrorKind;

/// The operations recorded so far, separated by commas.
#[derive(Drop)]
pub(crate) struct Journal<'a> {
    alloc: Global,
    // The absolute path of the folder in which the program runs.
    folder: String,
    // The operation that fails whenever the program performs it, if any.
    failing_step: Option<&'a str>,
    steps: RefCell<String>,
}

impl<'a> Journal<'a> {
    /// Returns an empty journal for a program in this folder. The operation `failing_step` fails
    /// whenever the program performs it.
    pub(crate) fn new(alloc: Global, folder: String, failing_step: Option<&'a str>) -> Journal<'a> {
        Journal {
            alloc,
            folder,
            failing_step,
            steps: RefCell::new(String::new(alloc)),
        }
    }

    /// Records an operation. Fails if the operation is `failing_step`.
    pub(crate) fn record(&self, step: &str) -> io::Result<()> {
        if let Ok(mut steps) = self.steps.try_borrow_mut() {
            add_step(&mut steps, step)?;
        }
        self.fail_if_chosen(step)
    }

    /// Records an operation unless it repeats the previous operation. Fails if the operation is
    /// `failing_step`.
    pub(crate) fn record_once(&self, step: &str) -> io::Result<()> {
        if self.is_last_step(step) {
            return self.fail_if_chosen(step);
        }
        self.record(step)
    }

    /// Records an operation on a file unless it repeats the previous operation. Fails if the
    /// operation is `failing_step`.
    pub(crate) fn record_file_step(&self, step: &str, path: &str) -> io::Result<()> {
        let name = match path.strip_prefix(self.folder.as_str()) {
            Some("") => ".",
            Some(name) => name.trim_start_matches('/'),
            None => path,
        };
        let line = format!(in self.alloc; "{step} {name}")?;
        self.record_once(line.as_str())
    }

    pub(crate) fn text(&self) -> Result<String, AllocError> {
        match self.steps.try_borrow() {
            Ok(steps) => String::from_str(self.alloc, steps.as_str()),
            Err(_) => Ok(String::new(self.alloc)),
        }
    }

    /// Returns whether the recorded operations are as expected. `None` accepts all operations.
    pub(crate) fn has_expected_steps(&self, expected: Option<&str>) -> bool {
        match self.steps.try_borrow() {
            Ok(steps) => expected.is_none() || expected == Some(steps.as_str()),
            Err(_) => false,
        }
    }

    fn is_last_step(&self, step: &str) -> bool {
        match self.steps.try_borrow() {
            Ok(steps) => steps.as_str().rsplit(", ").next() == Some(step),
            Err(_) => false,
        }
    }

    fn fail_if_chosen(&self, step: &str) -> io::Result<()> {
        if self.failing_step == Some(step) {
            Err(io::Error::from(ErrorKind::PermissionDenied))
        } else {
            Ok(())
        }
    }
}

fn add_step(steps: &mut String, step: &str) -> Result<(), AllocError> {
    if !steps.is_empty() {
        steps.push_str(", ")?;
    }
    steps.push_str(step)
}
