// The sampler's program.
#![tactic(auto)]

mod demo;
mod files;
mod registers;
mod replies;
mod reports;
mod scans;
mod windows;

use anyhow::bail;
use std::env;
use std::process::ExitCode;

const USAGE: &str = "usage: sampler intake [FILE]
       sampler make IMAGE CAPACITY label|box
       sampler scan IMAGE TAPE FILE
       sampler report IMAGE label|box [YYMMDD]
       sampler same IMAGE IMAGE label|box
       sampler demo";

fn main(rt: HostRuntime) -> anyhow::Result<ExitCode> {
    match run(&rt) {
        Ok(()) => Ok(ExitCode::SUCCESS),
        Err(why) => {
            eprintln!(rt; "sampler: {why}")?;
            Ok(ExitCode::FAILURE)
        }
    }
}

fn run(rt: &HostRuntime) -> anyhow::Result<()> {
    let mut args = env::args(rt)?;
    let _program = args.next();
    let Some(command) = args.next() else {
        return usage(rt);
    };
    match command.as_str() {
        "intake" => {
            let path = args.next();
            scans::intake_lines(rt, path.as_ref().map(|path| path.as_str()))
        }
        "make" => match (args.next(), args.next(), args.next()) {
            (Some(image), Some(capacity), Some(kind)) => {
                registers::make_image(rt, image.as_str(), capacity.as_str(), kind.as_str())
            }
            _ => usage(rt),
        },
        "scan" => match (args.next(), args.next(), args.next()) {
            (Some(image), Some(tape), Some(file)) => {
                registers::scan_file(rt, image.as_str(), tape.as_str(), file.as_str())
            }
            _ => usage(rt),
        },
        "report" => match (args.next(), args.next(), args.next()) {
            (Some(image), Some(kind), Some(day)) => {
                reports::report_until(rt, image.as_str(), kind.as_str(), day.as_str())
            }
            (Some(image), Some(kind), None) => reports::report(rt, image.as_str(), kind.as_str()),
            _ => usage(rt),
        },
        "same" => match (args.next(), args.next(), args.next()) {
            (Some(left), Some(right), Some(kind)) => {
                registers::compare(rt, left.as_str(), right.as_str(), kind.as_str())
            }
            _ => usage(rt),
        },
        "demo" => demo::demo(rt),
        _ => usage(rt),
    }
}

// Prints the usage.
fn usage(rt: &HostRuntime) -> anyhow::Result<()> {
    eprintln!(rt; "{USAGE}")?;
    bail!("no such command, or too few words")
}
