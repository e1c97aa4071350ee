//! The program on the real disk.

use crate::expecting::{equal_at, equal_bytes, holds};
use crate::words::{STORAGE, words_of};
use hprof_fixtures::{END, HEADER, NAME_1_A, bytes_of};
use hprof_tool::run;
use std::alloc::{AllocError, Global};
use std::os::unix::fs::MetadataExt;
use std::process::Abort;
use std::test::Fail;
use std::{env, fs};

/// Returns the path of a new file with this name, in the folder of the tests.
fn path_of(rt: &HostRuntime, name: &str) -> Result<String, Fail> {
    let folder = env::temp_dir(rt)?;
    let folder = folder.to_str().ok_or("the folder's name is text")?;
    let path = format!(in rt.alloc(); "{folder}/hprof-case-{name}")?;
    let _ = fs::remove_file(rt, path.as_str());
    Ok(path)
}

/// Writes a file with this name and these contents, and returns its path.
fn written(rt: &HostRuntime, name: &str, texts: &[&[u8]]) -> Result<String, Fail> {
    let path = path_of(rt, name)?;
    let bytes = bytes_of(rt.alloc(), texts)?;
    fs::write(rt, path.as_str(), bytes.as_slice())?;
    Ok(path)
}

/// Asserts the status of the program and its text on standard error. It prints nothing on standard output.
fn expect_ran(
    rt: &impl Abort,
    files: &HostRuntime,
    words: &[&str],
    code: u8,
    told: &[u8],
) -> Result<(), Fail> {
    let alloc = files.alloc();
    let list = Ok(words_of(alloc, words)?.into_iter());
    let (mut output, mut errors) = (Vec::new(alloc), Vec::new(alloc));
    let status = run(
        alloc,
        files,
        STORAGE,
        list,
        HEADER,
        &mut output,
        &mut errors,
        None::<Vec<u8>>,
        None,
    );
    let found = (status.code(), output.len(), errors.as_slice());
    equal_at(rt, words, found, (code, 0, told));
    Ok(())
}

/// Removes the files.
fn remove(rt: &HostRuntime, paths: &[&str]) -> Result<(), Fail> {
    for path in paths {
        fs::remove_file(rt, path)?;
    }
    Ok(())
}

/// Returns the record of the name `n` with this identifier.
fn name_of(id: u8) -> [u8; 14] {
    [1, 0, 0, 0, 0, 0, 0, 0, 5, 0, 0, 0, id, b'n']
}

/// Returns the dump of the names from 1 to `count`.
fn dump_of_names(alloc: Global, count: u8) -> Result<Vec<u8>, AllocError> {
    let mut dump = bytes_of(alloc, &[HEADER])?;
    for id in 1..=count {
        dump.extend_from_slice(&name_of(id))?;
    }
    dump.extend_from_slice(END)?;
    Ok(dump)
}

#[test]
fn files_are_joined_to_a_new_file(rt: HostRuntime) -> Result<(), Fail> {
    let one = written(&rt, "one", &[HEADER, &name_of(2)])?;
    let two = written(&rt, "two", &[HEADER, &name_of(1)])?;
    let out = path_of(&rt, "out")?;
    let words = ["join", out.as_str(), one.as_str(), two.as_str()];
    expect_ran(&rt, &rt, &words, 0, b"")?;
    let dump = dump_of_names(rt.alloc(), 2)?;
    equal_bytes(&rt, &fs::read(&rt, out.as_str())?, &dump);
    // What is there already is refused, and stays.
    expect_ran(&rt, &rt, &words, 1, b"hprof: cannot create the output\n")?;
    equal_bytes(&rt, &fs::read(&rt, out.as_str())?, &dump);
    remove(&rt, &words[1..])
}

/// Expects that the owner of a command's new file reads and writes it, and no one else does.
fn expect_private(
    rt: &impl Abort,
    files: &HostRuntime,
    command: &str,
    out: &str,
    part: &str,
) -> Result<(), Fail> {
    expect_ran(rt, files, &[command, out, part], 0, b"")?;
    let mode = fs::metadata(files, out)?.mode();
    equal_at(rt, command, mode & 0o777, 0o600);
    remove(files, &[out])
}

#[test]
fn new_files_are_private(rt: HostRuntime) -> Result<(), Fail> {
    let part = written(&rt, "secret", &[HEADER, NAME_1_A])?;
    let out = path_of(&rt, "private")?;
    expect_private(&rt, &rt, "join", out.as_str(), part.as_str())?;
    expect_private(&rt, &rt, "join101", out.as_str(), part.as_str())?;
    expect_private(&rt, &rt, "salvage", out.as_str(), part.as_str())?;
    remove(&rt, &[part.as_str()])
}

/// Returns the paths of `count` parts, each of one name, from 1 on.
fn named_parts(rt: &HostRuntime, count: u8) -> Result<Vec<String>, Fail> {
    let mut paths = Vec::new(rt.alloc());
    for id in 1..=count {
        let file = format!(in rt.alloc(); "many-{id}")?;
        paths.push(written(rt, file.as_str(), &[HEADER, &name_of(id)])?)?;
    }
    Ok(paths)
}

#[test]
fn many_parts(rt: HostRuntime) -> Result<(), Fail> {
    let paths = named_parts(&rt, 70)?;
    let out = path_of(&rt, "many-out")?;
    let mut words = Vec::new(rt.alloc());
    words.push("join")?;
    words.push(out.as_str())?;
    for path in &paths {
        words.push(path.as_str())?;
    }
    expect_ran(&rt, &rt, &words, 0, b"")?;
    let dump = dump_of_names(rt.alloc(), 70)?;
    equal_bytes(&rt, &fs::read(&rt, out.as_str())?, &dump);
    for path in &paths {
        fs::remove_file(&rt, path.as_str())?;
    }
    remove(&rt, &[out.as_str()])
}

#[test]
fn folders_and_refused_parts_leave_no_file(rt: HostRuntime) -> Result<(), Fail> {
    let good = written(&rt, "good", &[HEADER, NAME_1_A])?;
    let out = path_of(&rt, "none")?;
    let folder = env::temp_dir(&rt)?;
    let folder = folder.to_str().ok_or("the folder's name is text")?;
    let (first, second) = (
        b"hprof: part 0: read failed\n",
        b"hprof: part 1: read failed\n",
    );
    let words = ["join", out.as_str(), good.as_str(), folder];
    expect_ran(&rt, &rt, &words, 1, second)?;
    expect_ran(&rt, &rt, &["check", good.as_str(), folder], 1, second)?;
    expect_ran(&rt, &rt, &["check", folder], 1, first)?;
    let words = ["join", out.as_str(), out.as_str()];
    expect_ran(&rt, &rt, &words, 1, b"hprof: cannot open part 0\n")?;
    holds(&rt, !fs::exists(&rt, out.as_str())?);
    remove(&rt, &[good.as_str()])
}
