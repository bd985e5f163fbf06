//! Files of cases: short runs and tools, each with its words, its input and what it comes to.
//!
//! A case begins with a line of a dollar sign and its words. Behind it stand the lines of its
//! input, each behind `< `, the lines of its output behind `> `, and, where its status isn't 0,
//! that and its notice behind `! `. A part of a line stands behind `<- ` or `>- `. What is repeated
//! stands behind `<*N `, `<-*N ` or the same with `>`: `#` is the number of the repetition there,
//! from 1 on, and `¶` stands between lines that come together. Every other line is a note.
use flux::{flux, notice};
use manager_rules::Terms;
use outside::{MemSink, MemSource, OpenGate};
use std::alloc::{AllocError, Global};
use std::sync::Wait;
use std::thread::Threads;
use std::{fs, io, str};

/// What stands behind a mark, and what is to come of it.
#[derive(Drop)]
struct Case<'a> {
    words: &'a str,
    input: String,
    output: String,
    fault: &'a str,
}

/// Adds what a line spells behind its first mark.
fn add(text: &mut String, line: &str) -> Result<(), AllocError> {
    let (line, end) = match line.strip_prefix('-') {
        Some(part) => (part, ""),
        None => (line, "\n"),
    };
    let (times, piece) = line.split_once(' ').unwrap_or((line, ""));
    let Some(times) = times.strip_prefix('*') else {
        text.push_str(piece)?;
        return text.push_str(end);
    };
    for number in 1..=times.parse::<u32>().ok().unwrap_or(0) {
        for part in piece.split('¶') {
            match part.split_once('#') {
                Some((front, back)) => write!(text, "{front}{number}{back}{end}")?,
                None => write!(text, "{part}{end}")?,
            }
        }
    }
    Ok(())
}

/// Reads a case, which begins behind its dollar sign.
fn read_case(alloc: Global, text: &str) -> Result<Case<'_>, AllocError> {
    let (words, rest) = text.split_once('\n').unwrap_or((text, ""));
    let mut case = Case {
        words,
        input: String::new(alloc),
        output: String::new(alloc),
        fault: "0 done",
    };
    for line in rest.split('\n') {
        if let Some(line) = line.strip_prefix('<') {
            add(&mut case.input, line)?;
        } else if let Some(line) = line.strip_prefix('>') {
            add(&mut case.output, line)?;
        } else if let Some(fault) = line.strip_prefix("! ") {
            case.fault = fault;
        }
    }
    Ok(case)
}

/// The words of a case, each behind a space: `''` is the empty word, and `␣` stands for a space.
fn words_of(alloc: Global, line: &str) -> Result<Vec<String>, AllocError> {
    let mut words = Vec::new(alloc);
    for word in line.split(' ').skip(1) {
        let word = if word == "''" { "" } else { word };
        words.push(word.replace(alloc, '␣', " ")?)?;
    }
    Ok(words)
}

/// Whether a case comes to what it says.
fn is_so<R: Threads + Wait + Sync>(
    rt: &R,
    alloc: Global,
    case: &Case<'_>,
) -> Result<bool, AllocError> {
    let words = words_of(alloc, case.words)?;
    let input = Vec::from_slice(alloc, case.input.as_bytes())?;
    let mut source = MemSource::new(input, 4096, Vec::new(alloc));
    let mut sink = MemSink::new(alloc, 262_144, 4096, Vec::new(alloc))?;
    let run = flux(
        rt,
        alloc,
        &words,
        &mut source,
        &mut sink,
        &OpenGate,
        Terms::PLAIN,
    );
    let told = notice(alloc, &run.fault)?;
    let fault = format!(in alloc; "{} {told}", run.status)?;
    Ok(fault.as_str() == case.fault && sink.taken() == case.output.as_bytes())
}

/// Runs the cases of a file, prints those that come to something else and how many come to what
/// they say, and tells whether all do.
pub(crate) fn run_cases<R: Threads + Wait + Sync>(
    rt: &HostRuntime,
    threads: &R,
    name: &str,
) -> io::Result<bool> {
    let bytes = fs::read(rt, name)?;
    let text = str::from_utf8(bytes.as_slice()).ok().unwrap_or("");
    let (mut right, mut wrong) = (0u64, 0u64);
    for part in text.split("\n$").skip(1) {
        let case = read_case(rt.alloc(), part)?;
        if is_so(threads, rt.alloc(), &case)? {
            right = right.saturating_add(1);
        } else {
            println!(rt; "{name}:{} comes to something else", case.words)?;
            wrong = wrong.saturating_add(1);
        }
    }
    println!(rt; "{name}: {right} as told")?;
    Ok(wrong == 0)
}
