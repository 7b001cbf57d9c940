//! The program: reads its command line, opens its files and runs an engine.
#![tactic(auto)]

ghost use Rattle.std.specs.Prelude.{◌≡◌, ◌⊎◌, map};
ghost use Rattle.std.specs.String.{string_bytes};
ghost use Rattle.clap.specs.Values.{kind_of};
ghost use Rattle.clap.specs.declared.error.kind.ErrorKind.TheVariants.{OutOfMemory};
ghost use Rattle.cli.specs.Performing.{Answers, Exits, Performs, passed_on, trouble_status};
ghost use Rattle.cli.specs.Requests.{IsInRange};

mod arguments;
mod help;
mod meter;
mod numbers;
mod request;
mod stack;
mod steady;
mod subcommands;
mod system;
mod tasks;
mod trouble;

use clap::error::ErrorKind;
use crew::Free;
use help::Notes;
use meter::Meter;
use request::{Request, Task};
use sokopar::{
    RunFault, Sink, Writer, run_best, run_best_collection, run_check, run_dead, run_explain,
    run_prove, run_prove_collection, run_replay, run_show, run_show_range, run_solve_with,
};
use std::alloc::Global;
use std::env::Env;
use std::process::ExitCode;
use std::rt::Files;
use std::sync::Wait;
use std::thread::Threads;
use std::time::Clock;
use std::{env, io};
use steady::Steady;
use system::{Solutions, System};
use trouble::Trouble;

/// The exit status of a fault of the command line.
const USAGE: u8 = 2;

/// The result of an engine as that of its task.
fn passed_on<'a>(ran: Result<u8, RunFault>) -> Result<u8, Trouble<'a>>
    ensures { result ≡ passed_on ran }
{
    match ran {
        Ok(status) => Ok(status),
        Err(fault) => Err(Trouble::Run(fault)),
    }
}

/// Opens the files of a task before it reads the first, and runs its engine, which writes its report to the sink.
/// Returns the exit status.
fn perform<'a, R: Clock + Eprint + Threads + Wait + Sync, S: System, K: Sink>(
    rt: &R,
    system: &S,
    alloc: Global,
    file: &'a str,
    task: Task<'a>,
    progress: bool,
    sink: &mut K,
) -> Result<u8, Trouble<'a>>
    requires { IsInRange task }
    ensures { Performs S.opens S.refuses S.File.seen (K.seen sink.old) (K.seen sink.new) file.now task.entry result }
{
    let source = &mut system.open(file)?;
    let meter = &mut Meter::new(rt, progress, task.limit());
    match task {
        Task::Check => passed_on(run_check(alloc, source, sink)),
        Task::Explain(number) => passed_on(run_explain(alloc, source, number, sink)),
        Task::Show(number) => passed_on(run_show(alloc, source, number, sink)),
        Task::ShowRange { from, to } => passed_on(run_show_range(alloc, source, from, to, sink)),
        Task::Dead(number) => passed_on(run_dead(alloc, source, number, sink)),
        Task::Replay { number, solution } => {
            let letters = &mut system.open(solution)?;
            passed_on(run_replay(alloc, source, number, letters, sink))
        }
        Task::Solve(search) => passed_on(run_solve_with(rt, alloc, source, search, &Free, sink)),
        Task::Best(search) => passed_on(run_best(rt, alloc, source, search, meter, sink)),
        Task::BestCollection(search) => {
            passed_on(run_best_collection(rt, alloc, source, search, meter, sink))
        }
        Task::Prove { search, solution } => {
            let letters = &mut system.open(solution)?;
            passed_on(run_prove(rt, alloc, source, letters, search, meter, sink))
        }
        Task::ProveCollection { search, folder } => {
            system.find_folder(folder)?;
            let folder = Solutions {
                system,
                alloc,
                folder,
            };
            let ran = run_prove_collection(rt, alloc, source, &folder, search, meter, sink);
            passed_on(ran)
        }
    }
}

/// Performs a request, and prints why if there is no report. Returns the exit status.
fn carry_out<'a, R: Clock + Eprint + Threads + Wait + Sync, S: System, K: Sink>(
    rt: &R,
    system: &S,
    alloc: Global,
    request: Request<'a>,
    sink: &mut K,
) -> u8
    requires { IsInRange request.task }
    ensures { Exits S.opens S.refuses S.File.seen (K.seen sink.old) (K.seen sink.new) request.entry result }
{
    match perform(
        rt,
        system,
        alloc,
        request.file,
        request.task,
        request.progress,
        sink,
    ) {
        Ok(status) => status,
        Err(trouble) => complain(rt, trouble),
    }
}

/// Prints why a command line is no request: help or the version on standard output, a fault on standard error. Returns
/// the exit status.
fn explain<R: Print + Eprint>(rt: &R, error: clap::Error) -> u8
    ensures memory { kind_of error ≡ OutOfMemory → result ≡ 5 }
    ensures status { (result ≡ 5) ⊎ ((result ≡ 0) ⊎ (result ≡ 2) ⊎ (result ≡ 3)) }
{
    if error.kind() == ErrorKind::OutOfMemory {
        return complain(rt, Trouble::Run(RunFault::OutOfMemory));
    }
    match error.print(rt) {
        Ok(()) if error.use_stderr() => USAGE,
        Ok(()) => 0,
        Err(_) if error.use_stderr() => USAGE,
        Err(_) => complain(rt, Trouble::Run(RunFault::Write)),
    }
}

/// Prints one line that says why there is no report. Returns the exit status.
fn complain<R: Eprint>(rt: &R, trouble: Trouble<'_>) -> u8
    ensures { result ≡ trouble_status trouble.entry }
{
    // if this line cannot be printed, only the status tells
    let _ = eprintln!(rt; "{trouble}");
    trouble.status()
}

/// Runs the command line of these words, and writes a report to the sink. Returns the exit status.
fn run<R: Clock + Print + Eprint + Threads + Wait + Sync, S: System, K: Sink>(
    rt: &R,
    system: &S,
    alloc: Global,
    words: &[String],
    sink: &mut K,
) -> u8
    ensures { Answers S.opens S.refuses S.File.seen (K.seen sink.old) (K.seen sink.new) (map string_bytes words.now)
        result }
{
    let Ok(notes) = Notes::new(alloc) else {
        return complain(rt, Trouble::Run(RunFault::OutOfMemory));
    };
    match request::parse(alloc, words, &notes) {
        Ok(request) => carry_out(rt, system, alloc, request, sink),
        Err(error) => explain(rt, error),
    }
}

/// The words of the command line.
fn words<R: Env + AllocGlobal>(rt: &R) -> io::Result<Vec<String>> {
    let mut words = Vec::new(rt.alloc());
    for word in env::args(rt)? {
        words.push(word)?;
    }
    Ok(words)
}

/// The words without a last `--help` or `-h` after `help`, which clap takes for the name of a subcommand.
fn without_help_flag(words: &[String]) -> &[String] {
    let Some((last, others)) = words.split_last() else {
        return words;
    };
    let is_flag = last.as_str() == "--help" || last.as_str() == "-h";
    if is_flag && others.get(1).is_some_and(|word| word.as_str() == "help") {
        others
    } else {
        words
    }
}

/// Reads the words of the command line, and performs them. Returns the exit status.
fn start<R: Clock + Env + Files + Print + Eprint + Threads + Wait + Sync + AllocGlobal>(
    rt: &R,
) -> u8 {
    match words(rt) {
        Ok(words) => {
            let mut output = Writer::new(Steady::new(io::writer(rt)));
            let words = without_help_flag(words.as_slice());
            run(rt, &rt, rt.alloc(), words, &mut output)
        }
        Err(error) if error.kind() == io::ErrorKind::OutOfMemory => {
            complain(rt, Trouble::Run(RunFault::OutOfMemory))
        }
        Err(_) => {
            let _ = eprintln!(rt; "error: a word of the command line is no UTF-8 text");
            USAGE
        }
    }
}

fn main(rt: HostRuntime) -> ExitCode {
    let status = match stack::enlarge(&rt, rt.alloc()) {
        Ok(()) => start(&rt),
        Err(_) => complain(&rt, Trouble::Run(RunFault::OutOfMemory)),
    };
    ExitCode::from(status)
}
