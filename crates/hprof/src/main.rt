//! The program hprof.
#![tactic(auto)]

use hprof_scratch::{available_of, limit_of, memory_for_objects};
use hprof_tool::{Storage, run};
use std::env::Args;
use std::io::{IsTerminal, Write};
use std::process::ExitCode;
use std::{env, fs, io};

/// The line for a person at a terminal who types no command: what is read, and where the commands are listed.
const HINT: &str = "hprof: reading a dump from standard input; hprof --help lists the commands";

/// Returns whether the command line has no word after the program's name.
fn is_bare(words: &io::Result<Args>) -> bool {
    match words {
        Ok(words) => words.len() < 2,
        Err(_) => false,
    }
}

/// Returns the text of a file of the system, if it can be read.
fn text_of(rt: &HostRuntime, path: &str) -> Option<String> {
    fs::read_to_string(rt, path).ok()
}

/// Returns the number of bytes that objects may take in memory.
fn memory_of(rt: &HostRuntime) -> u64 {
    let meminfo = text_of(rt, "/proc/meminfo");
    let limit = text_of(rt, "/sys/fs/cgroup/memory.max");
    memory_for_objects(
        meminfo.and_then(|text| available_of(&text)),
        limit.and_then(|text| limit_of(&text)),
    )
}

/// Returns the value of a variable of the environment, if it has one that is not empty.
fn variable(rt: &HostRuntime, name: &str) -> Option<String> {
    env::var(rt, name).ok().filter(|value| !value.is_empty())
}

/// Returns the path of the folder for scratch: the one that the environment names, or `/var/tmp`, or `/tmp` where that is none.
fn folder_of(rt: &HostRuntime) -> Option<String> {
    if let Some(folder) = variable(rt, "HPROF_TMPDIR").or_else(|| variable(rt, "TMPDIR")) {
        return Some(folder);
    }
    let folder = match fs::metadata(rt, "/var/tmp") {
        Ok(metadata) if metadata.is_dir() => "/var/tmp",
        _ => "/tmp",
    };
    String::from_str(rt.alloc(), folder).ok()
}

fn main(rt: HostRuntime) -> ExitCode {
    let words = env::args(&rt);
    let mut errors = rt.stderr();
    let is_typed = rt.stdin().is_terminal();
    if is_typed && is_bare(&words) {
        // It goes on, also if that cannot be told.
        let _ = writeln!(errors, "{HINT}");
    }
    let is_seen = rt.stderr().is_terminal();
    // A person who types questions is prompted for each.
    let prompts = (is_typed && is_seen).then_some(rt.stderr());
    // A person who waits is told how much was read.
    let terminal = is_seen.then_some(rt.stderr());
    let folder = folder_of(&rt);
    let storage = Storage {
        memory: memory_of(&rt),
        folder: match &folder {
            Some(folder) => folder.as_str(),
            None => "/tmp",
        },
    };
    let status = run(
        rt.alloc(),
        &rt,
        storage,
        words,
        rt.stdin(),
        io::writer(&rt),
        &mut errors,
        prompts,
        terminal,
    );
    ExitCode::from(status.code())
}
