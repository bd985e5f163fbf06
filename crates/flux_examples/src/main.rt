//! Runs the examples in data/, and says of each whether its answers are those that stand beside it,
//! and whether each of its commands is answered in twenty drawn orders.
//!
//! Each word of the program is an example's name, and behind it the options of its run; where its
//! answers have another name, that stands behind a colon. `always` before it asks for the same
//! answers in each drawn order. Or it names a file of cases.
#![tactic(auto)]

mod cases;

use flux::flux;
use manager_rules::Terms;
use outside::{MemSink, MemSource, OpenGate};
use std::alloc::{AllocError, Global};
use std::process::ExitCode;
use std::sync::Wait;
use std::thread::Threads;
use std::{env, fs, io};

/// An example: the options of its run, its workload and the answers beside it.
#[derive(Drop)]
struct Example<'a> {
    options: &'a str,
    workload: Vec<u8>,
    answers: Vec<u8>,
}

/// Reads the example of a word of the program.
fn read_example<'a>(rt: &HostRuntime, word: &'a str) -> io::Result<Example<'a>> {
    let alloc = rt.alloc();
    let (names, options) = word.split_once(' ').unwrap_or((word, ""));
    let (workload, answers) = names.split_once(':').unwrap_or((names, names));
    let workload = format!(in alloc; "{workload}.workload")?;
    let answers = format!(in alloc; "{answers}.answers")?;
    Ok(Example {
        options,
        workload: fs::read(rt, workload.as_str())?,
        answers: fs::read(rt, answers.as_str())?,
    })
}

/// The words of a run with these options, which stand between spaces, in a drawn order where there
/// is a seed.
fn run_words(alloc: Global, options: &str, seed: Option<u64>) -> Result<Vec<String>, AllocError> {
    let mut words = Vec::new(alloc);
    words.push(String::from_str(alloc, "run")?)?;
    for option in options.split(' ') {
        if !option.is_empty() {
            words.push(String::from_str(alloc, option)?)?;
        }
    }
    if let Some(seed) = seed {
        words.push(format!(in alloc; "--shuffle={seed}")?)?;
    }
    Ok(words)
}

/// What a run of an example writes, or nothing where its status isn't 0.
fn answers_of<R: Threads + Wait + Sync>(
    rt: &R,
    alloc: Global,
    example: &Example<'_>,
    seed: Option<u64>,
) -> Result<Option<MemSink>, AllocError> {
    let words = run_words(alloc, example.options, seed)?;
    let text = Vec::from_slice(alloc, example.workload.as_slice())?;
    let mut source = MemSource::new(text, 4096, Vec::new(alloc));
    let mut sink = MemSink::new(alloc, 65_536, 4096, Vec::new(alloc))?;
    let run = flux(
        rt,
        alloc,
        &words,
        &mut source,
        &mut sink,
        &OpenGate,
        Terms::PLAIN,
    );
    Ok(if run.status == 0 { Some(sink) } else { None })
}

/// Whether an example's answers are those that stand beside it, in a drawn order where there is a
/// seed.
fn is_as_told<R: Threads + Wait + Sync>(
    rt: &R,
    alloc: Global,
    example: &Example<'_>,
    seed: Option<u64>,
) -> Result<bool, AllocError> {
    let sink = answers_of(rt, alloc, example, seed)?;
    Ok(sink.is_some_and(|sink| sink.taken() == example.answers.as_slice()))
}

/// Whether an example's answers are those that stand beside it in each order that a seed from 1 to
/// 20 draws.
fn is_always_so<R: Threads + Wait + Sync>(
    rt: &R,
    alloc: Global,
    example: &Example<'_>,
) -> Result<bool, AllocError> {
    for seed in 1..21 {
        if !is_as_told(rt, alloc, example, Some(seed))? {
            return Ok(false);
        }
    }
    Ok(true)
}

/// How many answers a text has: a line each, up to the journal.
fn count_answers(text: &[u8]) -> usize {
    text.split(|byte| *byte == b'\n')
        .take_while(|line| *line != b"--".as_slice())
        .count()
}

/// Whether each command of an example is answered in each order that a seed from 1 to 20 draws.
fn is_answered<R: Threads + Wait + Sync>(
    rt: &R,
    alloc: Global,
    example: &Example<'_>,
) -> Result<bool, AllocError> {
    let told = count_answers(&example.answers);
    let mut all = true;
    for seed in 1..21 {
        let sink = answers_of(rt, alloc, example, Some(seed))?;
        let answered = sink.is_some_and(|sink| count_answers(sink.taken()) == told);
        all = all && answered;
    }
    Ok(all)
}

/// What is said of an example in drawn orders, of which it holds or not.
fn words_of_orders(always: bool, holds: bool) -> &'static str {
    match (always, holds) {
        (true, true) => "the same in 20 drawn orders",
        (false, true) => "answered in 20 drawn orders",
        (true, false) => "another in a drawn order",
        (false, false) => "left in a drawn order",
    }
}

/// Runs an example, prints what is said of it, and tells whether all is as it should be.
fn run_example<R: Threads + Wait + Sync>(
    rt: &HostRuntime,
    threads: &R,
    word: &str,
) -> io::Result<bool> {
    let alloc = rt.alloc();
    let always = word.starts_with("always ");
    let example = read_example(rt, word.strip_prefix("always ").unwrap_or(word))?;
    let same = is_as_told(threads, alloc, &example, None)?;
    let holds = if always {
        is_always_so(threads, alloc, &example)?
    } else {
        is_answered(threads, alloc, &example)?
    };
    println!(rt;
        "{word}: {}, {}",
        if same { "as told" } else { "other answers" },
        words_of_orders(always, holds)
    )?;
    Ok(same && holds)
}

fn main(rt: HostRuntime) -> io::Result<ExitCode> {
    let mut all = true;
    for word in env::args(&rt)?.skip(1) {
        let right = if word.as_str().ends_with(".cases") {
            cases::run_cases(&rt, &rt, word.as_str())?
        } else {
            run_example(&rt, &rt, word.as_str())?
        };
        all = all && right;
    }
    Ok(ExitCode::from(if all { 0 } else { 1 }))
}
