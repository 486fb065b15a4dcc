use kl_ask::{JoinHow, Settings};
use kl_words::{Command, Job, WordsError, read_words};
use std::alloc::Global;
use std::test::Fail;

fn words_of(alloc: Global, line: &str) -> Result<Vec<String>, Fail> {
    let mut words = Vec::new(alloc);
    for word in line.split(' ') {
        words.push(String::from_str(alloc, word)?)?;
    }
    Ok(words)
}

fn read(alloc: Global, line: &str) -> Result<Result<Command, WordsError>, Fail> {
    let words = words_of(alloc, line)?;
    Ok(read_words(alloc, words.as_slice()))
}

fn has_numbers(settings: &Settings) -> bool {
    settings.block == 256 && settings.fetch == 64 && settings.cache == 0
}

fn has_ways(settings: &Settings) -> bool {
    settings.join == JoinHow::Block && !settings.rewrite && settings.delegate
}

fn has_files(job: &Job) -> bool {
    match &job.catalogue {
        Some(path) => job.program.slice() == b"p".as_slice() && path.slice() == b"c".as_slice(),
        None => false,
    }
}

fn is_wanted(job: &Job) -> bool {
    let settings = &job.settings;
    has_files(job)
        && has_numbers(settings)
        && has_ways(settings)
        && job.first == Some(5)
        && !job.stats
}

fn is_run(found: &Result<Command, WordsError>) -> bool {
    match found {
        Ok(Command::Run(job)) => is_wanted(job),
        _ => false,
    }
}

#[test]
fn options_are_read(rt: HostRuntime) -> Result<(), Fail> {
    let found = read(
        rt.alloc(),
        "run --join=block p --cache 0 c --no-rewrite --first +5",
    )?;
    assert!(rt; is_run(&found));
    Ok(())
}

#[test]
fn an_option_past_its_range_is_refused(rt: HostRuntime) -> Result<(), Fail> {
    let found = read(rt.alloc(), "run p --fetch 4097")?;
    assert!(rt; found == Err(WordsError::Usage));
    Ok(())
}

#[test]
fn a_seed_and_a_size_are_read(rt: HostRuntime) -> Result<(), Fail> {
    let found = read(rt.alloc(), "gen 7 1000")?;
    assert!(rt;
        found
            == Ok(Command::Gen {
                seed: 7,
                size: 1000
            })
    );
    Ok(())
}

fn is_upgrade(found: &Result<Command, WordsError>) -> bool {
    match found {
        Ok(Command::Upgrade { file, ty }) => {
            file.slice() == b"f".as_slice() && ty.slice() == b"{int}".as_slice()
        }
        _ => false,
    }
}

#[test]
fn a_file_and_a_type_are_read(rt: HostRuntime) -> Result<(), Fail> {
    let found = read(rt.alloc(), "upgrade f {int}")?;
    assert!(rt; is_upgrade(&found));
    Ok(())
}

#[test]
fn a_file_without_a_type_is_not_upgraded(rt: HostRuntime) -> Result<(), Fail> {
    let found = read(rt.alloc(), "upgrade f")?;
    assert!(rt; found == Err(WordsError::Usage));
    Ok(())
}
