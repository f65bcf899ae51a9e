// The program `uds`: a session script in, an answer out for each of its lines.
#![tactic(auto)]

use script::session::Session;
use script::text::answer_text;
use std::alloc::Global;
use std::env;
use std::fs::File;
use std::io::{self, BufRead, BufReader, BufWriter, Write};
use std::process::ExitCode;

// The next line, or none at the end. One buffer serves all lines: a `Vec` for each, as `split` makes it, costs up to a third more time.
fn next_line<'a, R: BufRead>(
    input: &mut R,
    buffer: &'a mut Vec<u8>,
) -> io::Result<Option<&'a [u8]>> {
    buffer.clear();
    let count = input.read_until(b'\n', buffer)?;
    Ok((count > 0).then_some(buffer.as_slice()))
}

// Answers each line before the next is read. The status tells whether all could be read.
fn answer_all<R: BufRead + Drop, W: Write + Drop>(
    heap: Global,
    mut input: R,
    mut output: W,
) -> anyhow::Result<ExitCode> {
    let mut session = Session::new();
    let mut status = ExitCode::SUCCESS;
    let mut buffer = Vec::new(heap);
    for number in 1..u64::MAX {
        let Some(line) = next_line(&mut input, &mut buffer)? else {
            break;
        };
        let Some(answer) = session.answer(line) else {
            continue;
        };
        let text = answer_text(heap, number, &answer)?;
        writeln!(output, "{text}")?;
        output.flush()?;
        if answer.is_err() {
            status = ExitCode::FAILURE;
        }
    }
    Ok(status)
}

// Ends with status 1 where a line could not be read: its answer has told that.
fn main(rt: HostRuntime) -> anyhow::Result<ExitCode> {
    let heap = rt.alloc();
    let output = BufWriter::new(heap, rt.stdout())?;
    match env::args(&rt)?.nth(1) {
        Some(path) => {
            let file = File::open(&rt, path.as_str())?;
            answer_all(heap, BufReader::new(heap, file)?, output)
        }
        None => answer_all(heap, BufReader::new(heap, rt.stdin())?, output),
    }
}
