//! Runs a table, and tells how it went.
use crate::asking::{Asking, asking_of};
use crate::case::{Case, Meaning, Request, Verdict};
use crate::file::{File, read_file};
use crate::meaning::meaning_of;
use crate::reading::read;
use adr_link::{HttpReply, LinkFault};
use anyhow::Result;
use std::alloc::Global;
use table_files::{Pieces, Table};

/// Whether it is what a case says.
fn is_read(came: &Result<HttpReply, LinkFault>, case: &Case) -> bool {
    match (came, case.verdict) {
        (Ok(reply), Verdict::Reads(status)) => reply.status == status
            && reply.body.as_slice() == case.body.as_slice(),
        (Err(LinkFault::BadReply), Verdict::BadReply) => true,
        (Err(LinkFault::TooLarge), Verdict::TooLarge) => true,
        _ => false,
    }
}

/// Whether a reply is read as it has to be, in such pieces.
fn reads(alloc: Global, case: &Case, pieces: Pieces) -> bool {
    let came = read(alloc, case.comes.as_slice(), pieces);
    is_read(&came, case)
}

/// Whether it is read so all at once, byte by byte, in pieces of 7, and in every cut into two where the table asks for that.
fn reads_in_pieces(alloc: Global, file: &File, case: &Case) -> bool {
    let all = case.comes.len().max(1);
    let mut passed = true;
    for most in [all, 1, 7] {
        passed &= reads(alloc, case, Pieces::Of(most));
    }
    if file.cut_everywhere {
        for at in 0..case.comes.len() {
            passed &= reads(alloc, case, Pieces::Cut(at));
        }
    }
    passed
}

/// Whether a reply means what it has to.
fn means(alloc: Global, came: &Result<HttpReply, LinkFault>, meaning: &Meaning) -> Result<bool> {
    let means = meaning_of(alloc, meaning.question.as_str(), came)?;
    Ok(means.as_str() == meaning.means.as_str())
}

/// Whether it means so to all who asked.
fn means_all(alloc: Global, case: &Case) -> Result<bool> {
    let all = case.comes.len().max(1);
    let came = read(alloc, case.comes.as_slice(), Pieces::Of(all));
    let mut passed = true;
    for meaning in &case.meanings {
        passed &= means(alloc, &came, meaning)?;
    }
    Ok(passed)
}

/// Whether what comes of a request is what it has to be.
fn is_asked(request: &Request, asking: &Asking) -> bool {
    match asking {
        Asking::Bytes(bytes) => request.refused.is_empty()
            && bytes.as_slice() == request.writes.as_slice(),
        Asking::NoUpstream => request.refused.as_str() == "upstream",
        Asking::NoJob => request.refused.as_str() == "job",
    }
}

fn passes(alloc: Global, file: &File, case: &Case) -> Result<bool> {
    if case.verdict == Verdict::Unsaid {
        let asking = asking_of(alloc, &case.request)?;
        return Ok(is_asked(&case.request, &asking));
    }
    let read = reads_in_pieces(alloc, file, case);
    let meant = means_all(alloc, case)?;
    Ok(read && meant)
}

/// Runs a case, tells of it where it fails, and answers whether it passed.
fn run_case<R: Print + AllocGlobal>(rt: &R, file: &File, case: &Case) -> Result<bool> {
    let passed = passes(rt.alloc(), file, case)?;
    if !passed {
        let name = &case.name;
        println!(rt; "case {name} failed")?;
    }
    Ok(passed)
}

/// How many cases fail.
fn run_cases<R: Print + AllocGlobal>(rt: &R, file: &File) -> Result<u64> {
    let mut failed: u64 = 0;
    for case in &file.cases {
        if !run_case(rt, file, case)? {
            failed = failed.saturating_add(1);
        }
    }
    Ok(failed)
}

impl Table for File {
    fn read(alloc: Global, bytes: &[u8]) -> Result<File> {
        read_file(alloc, bytes)
    }

    fn run<R: Print + AllocGlobal>(&self, rt: &R) -> Result<bool> {
        let failed = run_cases(rt, self)?;
        let name = &self.name;
        let count = self.cases.len();
        println!(rt; "link {name}: {count} cases, {failed} failed")?;
        Ok(failed == 0)
    }
}
