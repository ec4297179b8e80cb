//! The folder of the tables.
use anyhow::{Context, Result};
use std::alloc::Global;
use std::process::ExitCode;
use std::rt::{Env, Files};
use std::{env, fs};

/// The folder: the program's argument, or the one where it runs.
pub fn folder<R: Env + AllocGlobal>(rt: &R) -> Result<String> {
    match env::args(rt)?.nth(1) {
        Some(folder) => Ok(folder),
        None => Ok(String::from_str(rt.alloc(), ".")?),
    }
}

/// A table, as a file says it.
pub trait Table {
    /// The table that the bytes of a file are.
    fn read(alloc: Global, bytes: &[u8]) -> Result<Self>
    where
        Self: Sized;

    /// Runs it, prints how it went, and answers whether it passed.
    fn run<R: Print + AllocGlobal>(&self, rt: &R) -> Result<bool>;
}

/// The name of an entry of the folder goes behind the others, where it ends so.
fn push_name(alloc: Global, names: &mut Vec<String>, name: &str, ending: &str) -> Result<()> {
    if name.ends_with(ending) {
        names.push(String::from_str(alloc, name)?)?;
    }
    Ok(())
}

/// The names of the files in the folder that end so, in order.
fn names_of<R: Files + AllocGlobal + Clone + Drop>(
    rt: &R,
    folder: &str,
    ending: &str,
) -> Result<Vec<String>> {
    let mut names = Vec::new(rt.alloc());
    for entry in fs::read_dir(rt, folder)? {
        push_name(rt.alloc(), &mut names, entry?.file_name(), ending)?;
    }
    names.sort()?;
    Ok(names)
}

/// The bytes of a file of the folder.
fn bytes_of<R: Files + AllocGlobal>(rt: &R, folder: &str, name: &str) -> Result<Vec<u8>> {
    let path = format!(in rt.alloc(); "{folder}/{name}")?;
    Ok(fs::read(rt, path.as_str())?)
}

fn run_one<T: Table + Drop, R: Files + Print + AllocGlobal>(
    rt: &R,
    folder: &str,
    name: String,
) -> Result<bool> {
    let bytes = bytes_of(rt, folder, name.as_str())?;
    let table = T::read(rt.alloc(), &bytes).context(name)?;
    table.run(rt)
}

/// Runs the table of each file in the folder whose name ends so, and answers whether all passed.
pub fn run_each<T: Table + Drop, R: Files + Print + AllocGlobal + Clone + Drop>(
    rt: &R,
    folder: &str,
    ending: &str,
) -> Result<bool> {
    let mut passed = true;
    for name in names_of(rt, folder, ending)? {
        passed &= run_one::<T, R>(rt, folder, name)?;
    }
    Ok(passed)
}

/// The exit status of a program whose tables passed, or did not.
pub fn status_of(passed: bool) -> ExitCode {
    if passed {
        ExitCode::SUCCESS
    } else {
        ExitCode::FAILURE
    }
}
