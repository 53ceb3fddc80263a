// A program of cases: the words of its command line, files, and what it prints.
use crate::comparing::{Failure, failing, run_file};
use crate::reports::{Trouble, put, put_line, put_numbers};
use crate::subjects::{Subject, Whole};
use outside_io::{StdSink, StdSource, read_all, write_all};
use std::env;
use std::fs::File;
use std::process::ExitCode;

/// How many bytes of a file are read at most.
const LIMIT: u32 = 1 << 24;

/// Runs the cases of the files that the words name, and tells for each file how many passed, or prints its first that
/// doesn't pass. With the words `answer SUBJECT FILE` it prints what the subject answers to the bytes of the file.
pub fn run<S: Subject>(rt: &HostRuntime) -> ExitCode {
    let mut said = Vec::new(rt.alloc());
    let passed = all_pass::<S>(rt, &mut said).unwrap_or(false);
    let written = write_all(&mut StdSink::new(rt.stdout()), &said).is_ok();
    ExitCode::from(if passed && written { 0 } else { 1 })
}

/// Whether what the words ask is done: all cases of the files pass, or a subject has an answer.
fn all_pass<S: Subject>(rt: &HostRuntime, said: &mut Vec<u8>) -> Result<bool, Trouble> {
    let Ok(args) = env::args(rt) else {
        return Ok(false);
    };
    let words: Vec<String> = args.skip(1).collect(rt.alloc())?;
    let asked = match words.as_slice() {
        [verb, name, ..] if verb.as_str() == "answer" => S::named(name.as_bytes()),
        _ => None,
    };
    if let Some(subject) = asked {
        return put_answer(rt, subject, &words, said);
    }
    let mut passed = true;
    for name in &words {
        passed = passes::<S>(rt, name.as_str(), said)? && passed;
    }
    Ok(passed)
}

/// Whether the file that is the third word could be read. What the subject answers to its bytes is printed.
fn put_answer<S: Subject>(
    rt: &HostRuntime,
    subject: S,
    words: &[String],
    said: &mut Vec<u8>,
) -> Result<bool, Trouble> {
    let Some(input) = words.get(2).and_then(|name| contents(rt, name.as_str())) else {
        return Ok(false);
    };
    if input.len() > 1 << 24 {
        return Ok(false);
    }
    let came = subject.answer(rt.alloc(), &input)?;
    put(said, &came)?;
    Ok(true)
}

/// Whether the cases of a file pass. A case that doesn't is printed.
fn passes<S: Subject>(rt: &HostRuntime, name: &str, said: &mut Vec<u8>) -> Result<bool, Trouble> {
    match outcome::<S>(rt, name) {
        Ok(Ok(count)) => {
            put_numbers(said, name.as_bytes(), &[count])?;
            Ok(true)
        }
        Ok(Err(failure)) => {
            put_line(said, &[name.as_bytes(), b"doesn't pass:", &failure.name])?;
            for (head, text) in [
                (b"input:".as_slice(), &failure.input),
                (b"wanted:".as_slice(), &failure.wanted),
                (b"came:".as_slice(), &failure.came),
            ] {
                put_line(said, &[head])?;
                put_line(said, &[text.as_slice()])?;
            }
            Ok(false)
        }
        Err(Trouble::Unread) => {
            put_line(said, &[name.as_bytes(), b"is no file of cases"])?;
            Ok(false)
        }
        Err(Trouble::Memory) => Err(Trouble::Memory),
    }
}

/// How many cases of a file pass, or the first that doesn't.
fn outcome<S: Subject>(rt: &HostRuntime, name: &str) -> Result<Result<u64, Failure>, Trouble> {
    let alloc = rt.alloc();
    let file = contents(rt, name).ok_or(Trouble::Unread)?;
    let (stem, ending) = name.rsplit_once('.').unwrap_or((name, ""));
    let (subject, input, wanted) = match S::whole_file(ending) {
        Some(Whole::Input(subject)) => {
            let beside = format!(in alloc; "{stem}.answer")?;
            let wanted = contents(rt, beside.as_str()).ok_or(Trouble::Unread)?;
            (subject, file, wanted)
        }
        Some(Whole::Wanted(subject)) => {
            let last = match stem.rsplit_once('/') {
                Some((_, last)) => last,
                None => stem,
            };
            (subject, Vec::from_slice(alloc, last.as_bytes())?, file)
        }
        None => return run_file::<S>(alloc, &file),
    };
    match failing(alloc, subject, name.as_bytes(), input, wanted)? {
        Some(failure) => Ok(Err(failure)),
        None => Ok(Ok(1)),
    }
}

/// The bytes of a file, which are at most `LIMIT`.
fn contents(rt: &HostRuntime, path: &str) -> Option<Vec<u8>> {
    let file = File::open(rt, path).ok()?;
    read_all(rt.alloc(), &mut StdSource::new(file), LIMIT).ok()
}
