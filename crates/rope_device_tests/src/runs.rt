//! Runs of several commands: with ample memory none fails.
use rope_plain::failure::{Failure, at, expect_same};
use rope_plain::holds;
use rope_plain::sums::plus;
use rope_script::{Command, Reply, Session};
use std::alloc::Global;
use std::process::Abort;

/// Returns `count` commands, each of which makes a rope.
fn makers(rt: &impl Abort, alloc: Global, count: usize) -> Vec<Command> {
    let mut commands = Vec::new(alloc);
    for _ in 0..count {
        commands.push(Command::New).expect(rt, "there is memory");
    }
    commands
}

/// Fails unless the replies number the ropes from `first` on.
fn expect_numbers(replies: &[Reply], first: usize) -> Result<(), Failure> {
    for (index, reply) in replies.iter().enumerate() {
        let number = plus(first, index);
        holds!(matches!(reply, Reply::Made(made) if *made == number));
    }
    Ok(())
}

/// Fails unless there are `len` replies after a run.
fn expect_run(
    session: &mut Session,
    commands: &[Command],
    replies: &mut Vec<Reply>,
    len: usize,
) -> Result<(), Failure> {
    session.run(commands, replies)?;
    expect_same("replies.len()", &replies.len(), &len)
}

/// Fails unless a run of `count` commands, and then another on the same session, run all of them.
fn expect_two_runs(
    session: &mut Session,
    commands: &[Command],
    replies: &mut Vec<Reply>,
    count: usize,
) -> Result<(), Failure> {
    expect_run(session, commands, replies, count)?;
    expect_run(session, commands, replies, count.saturating_mul(2))?;
    expect_numbers(replies, 0)
}

/// Fails unless runs of `count` commands run all of them.
fn expect_run_of(rt: &impl Abort, alloc: Global, count: usize) -> Result<(), Failure> {
    let commands = makers(rt, alloc, count);
    let mut session = Session::new(alloc);
    let mut replies = Vec::new(alloc);
    expect_two_runs(&mut session, &commands, &mut replies, count)
}

#[test]
fn a_run_of_any_length_is_done(rt: HostRuntime) -> Result<(), Failure> {
    for count in 0..40usize {
        at("commands", count, expect_run_of(&rt, rt.alloc(), count))?;
    }
    at("commands", 1000, expect_run_of(&rt, rt.alloc(), 1000))
}
