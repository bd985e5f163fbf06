//! Draws runs: for each instance which jobs hold each host at each second, and which root each
//! broker had heard of then.
//!
//! Each word names a file with a workload, and behind it, each behind a space, the options of its
//! run. `--cores` before it asks for a row for each core and GPU in place of one for each host, and
//! `--svg` for a page of SVG in place of a text.
#![tactic(auto)]

ghost use Rattle.std.specs.Prelude.{◌≡◌, ◌≤◌, IfOk};
ghost use Rattle.answers.specs.Chronicle.{Setup};
ghost use Rattle.homes.specs.Grant.{first_resources};
ghost use Rattle.run_picture.specs.Columns.{IsPicture};
ghost use Rattle.run_picture.specs.Shown.{IsShownRun};

use flux::{Run, flux, notice};
use homes::hosts_of_brokers;
use manager_rules::Terms;
use outside::{MemSink, MemSource, OpenGate};
use run_options::read_options;
use run_picture::{Picture, PictureFault, Rows, picture_of, svg, text};
use std::alloc::{AllocError, Global};
use std::process::ExitCode;
use std::sync::Wait;
use std::thread::Threads;
use std::{env, fs, io};
use workload::Workload;

/// How runs are drawn.
#[derive(Clone, Copy, Debug, PartialEq, Eq)]
struct Style {
    rows: Rows,
    is_svg: bool,
}

/// The words of a run with these options, which stand between spaces.
fn run_words(alloc: Global, options: &str) -> Result<Vec<String>, AllocError> {
    let mut words = Vec::new(alloc);
    words.push(String::from_str(alloc, "run")?)?;
    for option in options.split(' ') {
        if !option.is_empty() {
            words.push(String::from_str(alloc, option)?)?;
        }
    }
    Ok(words)
}

/// The run of a workload.
fn run_of<R: Threads + Wait + Sync>(
    rt: &R,
    alloc: Global,
    words: &[String],
    workload: &[u8],
) -> Result<Run, AllocError> {
    let mut source = MemSource::new(Vec::from_slice(alloc, workload)?, 4096, Vec::new(alloc));
    let mut sink = MemSink::new(alloc, 65_536, 4096, Vec::new(alloc))?;
    Ok(flux(
        rt,
        alloc,
        words,
        &mut source,
        &mut sink,
        &OpenGate,
        Terms::PLAIN,
    ))
}

/// The picture of a run of a workload, at so many brokers.
fn drawn(
    alloc: Global,
    size: u32,
    work: &Workload,
    run: &Run,
    rows: Rows,
) -> Result<Picture, PictureFault>
    requires { size ≤ 32 }
    ensures { (set : Setup) → IsShownRun set run.now.chronicle → set.size ≡ size
        → set.resources ≡ first_resources size work.now
        → IfOk result (IsPicture set run.now.chronicle rows) }
{
    match &work.grant {
        Some(grant) => picture_of(alloc, size, grant.resources(), work, &run.chronicle, rows),
        None => {
            let grant = hosts_of_brokers(alloc, size)?;
            picture_of(alloc, size, &grant, work, &run.chronicle, rows)
        }
    }
}

/// Draws the run of a workload's file with its options, and tells whether it could.
fn draw<R: Threads + Wait + Sync>(
    rt: &HostRuntime,
    threads: &R,
    word: &str,
    style: Style,
) -> io::Result<bool> {
    let alloc = rt.alloc();
    let (name, options) = word.split_once(' ').unwrap_or((word, ""));
    let workload = fs::read(rt, name)?;
    let words = run_words(alloc, options)?;
    let run = run_of(threads, alloc, &words, &workload)?;
    if run.status != 0 {
        rt.eprintln(notice(alloc, &run.fault)?.as_str())?;
        return Ok(false);
    }
    let Some(option_words) = words.get(1..) else {
        return Ok(false);
    };
    let Some(options) = read_options(alloc, option_words)? else {
        return Ok(false);
    };
    let Ok(work) = workload_reader::read(alloc, &workload, options.size) else {
        return Ok(false);
    };
    let Ok(picture) = drawn(alloc, options.size, &work, &run, style.rows) else {
        return Ok(false);
    };
    let page = if style.is_svg {
        svg(alloc, &picture)?
    } else {
        text(alloc, &picture)?
    };
    rt.stdout().write_all(&page)?;
    Ok(true)
}

fn main(rt: HostRuntime) -> io::Result<ExitCode> {
    let mut style = Style {
        rows: Rows::Hosts,
        is_svg: false,
    };
    let (mut all, mut first) = (true, true);
    for word in env::args(&rt)?.skip(1) {
        match word.as_str() {
            "--cores" => style.rows = Rows::Units,
            "--svg" => style.is_svg = true,
            other => {
                if !first {
                    println!(rt; "")?;
                }
                all = draw(&rt, &rt, other, style)? && all;
                first = false;
            }
        }
    }
    Ok(ExitCode::from(if all && !first { 0 } else { 1 }))
}
