//! Runs of the program over inputs in memory, with the answers that are wanted.
use fq_program::{Noted, OpenFault, Opener, Unread, one_input, with_words};
use std::alloc::Global;
use std::io;
use std::io::{ErrorKind, Write};
use std::process::Abort;
use std::sync::Wait;
use std::test::Fail;
use std::thread::Threads;

/// The batch sizes and numbers of workers at which a plan is run.
const SETTINGS: [(u32, u16); 4] = [(1, 1), (1, 16), (2, 3), (1_024, 2)];

/// The inputs of a run: the plan is named `plan`, the files `0`, `1` and so on, and standard input `-`.
#[derive(Clone, Copy)]
struct Inputs<'a> {
    plan: &'a str,
    files: &'a [&'a str],
    standard_input: &'a str,
}

impl<'a> Opener for Inputs<'a> {
    type Reader = &'a [u8];

    type Output = Nowhere;

    fn reader_of(&mut self, name: &str) -> Result<&'a [u8], OpenFault> {
        let text = self.text(name).map(str::as_bytes);
        text.ok_or(OpenFault::Failed(io::Error::from(ErrorKind::NotFound)))
    }

    fn reader_again(&mut self, name: &str) -> Result<&'a [u8], Unread> {
        if name == "-" {
            return Err(Unread::Once);
        }
        let text = self.text(name).map(str::as_bytes);
        text.ok_or(Unread::System(io::Error::from(ErrorKind::NotFound)))
    }

    fn output_of(&mut self, _alloc: Global, _name: &str) -> Result<Nowhere, OpenFault> {
        Err(OpenFault::Failed(io::Error::from(ErrorKind::NotFound)))
    }

    fn keep(&mut self, _name: &str, _output: Nowhere) -> Result<(), OpenFault> {
        Ok(())
    }

    fn discard(&mut self, _output: Nowhere) {}
}

/// What takes no frame.
#[derive(Drop)]
struct Nowhere;

impl Write for Nowhere {
    fn write(&mut self, _buffer: &[u8]) -> io::Result<usize> {
        Err(io::Error::from(ErrorKind::Other))
    }

    fn flush(&mut self) -> io::Result<()> {
        Ok(())
    }
}

impl<'a> Inputs<'a> {
    // The text of the input of a name.
    fn text(&self, name: &str) -> Option<&'a str> {
        match name {
            "plan" => Some(self.plan),
            "-" => Some(self.standard_input),
            _ => {
                let number: usize = name.parse().ok()?;
                self.files.get(number).copied()
            }
        }
    }
}

/// What the program answers.
#[derive(Debug, Drop, PartialEq)]
struct Answer {
    status: u8,
    out: String,
    err: String,
}

impl Answer {
    // A frame on standard output.
    fn of_frame(alloc: Global, frame: &str) -> Result<Answer, Fail> {
        Ok(Answer {
            status: 0,
            out: String::from_str(alloc, frame)?,
            err: String::new(alloc),
        })
    }

    // A line on standard error.
    fn of_fault(alloc: Global, status: u8, line: &str) -> Result<Answer, Fail> {
        Ok(Answer {
            status,
            out: String::new(alloc),
            err: format!(in alloc; "frameq: {line}\n")?,
        })
    }

    // The last line of a case.
    fn of_line(alloc: Global, line: &str) -> Result<Answer, Fail> {
        if let Some(frame) = line.strip_prefix("> ") {
            return Answer::of_frame(alloc, text_of(alloc, frame)?.as_str());
        }
        let (status, fault) = line.split_once(' ').unwrap_or(("", line));
        Answer::of_fault(alloc, status.parse()?, fault)
    }

    // What was written.
    fn of_bytes(status: u8, out: Vec<u8>, err: Vec<u8>) -> Result<Answer, Fail> {
        Ok(Answer {
            status,
            out: String::from_utf8(out)?,
            err: String::from_utf8(err)?,
        })
    }
}

/// Plans over files are answered as these cases say, at each setting.
///
/// An empty line stands between two cases. The lines of a case are what it is about, the plan, a `<`, a space and the text of each file, and
/// last a `>`, a space and the frame, or the status, a space and the line of the fault. In files and frames `\n` and `\r` stand for the ends
/// of lines.
pub fn hold<R: Abort + Threads + Wait + Sync>(
    rt: &R,
    alloc: Global,
    cases: &str,
) -> Result<(), Fail> {
    for case in cases.trim().split("\n\n") {
        holds(rt, alloc, case)?;
    }
    Ok(())
}

// A case holds.
fn holds<R: Abort + Threads + Wait + Sync>(rt: &R, alloc: Global, case: &str) -> Result<(), Fail> {
    let (inputs, answer) = case.rsplit_once('\n').unwrap_or(("", case));
    let mut lines = inputs.split('\n');
    let about = lines.next().unwrap_or("");
    let plan = lines.next().unwrap_or("");
    let mut files = Vec::new(alloc);
    for line in lines {
        files.push(text_of(alloc, line.strip_prefix("< ").unwrap_or(""))?)?;
    }
    let wanted = Answer::of_line(alloc, answer)?;
    let texts: Vec<&str> = files.iter().map(|file| file.as_str()).collect(alloc)?;
    answers(rt, alloc, about, plan, texts.as_slice(), &wanted)
}

// The text of a file or a frame, as a case spells it.
fn text_of(alloc: Global, spelled: &str) -> Result<String, Fail> {
    let text = spelled.replace(alloc, "\\n", "\n")?;
    Ok(text.replace(alloc, "\\r", "\r")?)
}

/// A plan over files gives a frame, at each setting.
pub fn gives<'a, R: Abort + Threads + Wait + Sync>(
    rt: &R,
    alloc: Global,
    plan: &'a str,
    files: &'a [&'a str],
    frame: &str,
) -> Result<(), Fail> {
    let wanted = Answer::of_frame(alloc, frame)?;
    answers(rt, alloc, "a plan", plan, files, &wanted)
}

/// A plan over files ends in a status and a line on standard error, at each setting.
pub fn fails<'a, R: Abort + Threads + Wait + Sync>(
    rt: &R,
    alloc: Global,
    plan: &'a str,
    files: &'a [&'a str],
    status: u8,
    line: &str,
) -> Result<(), Fail> {
    let wanted = Answer::of_fault(alloc, status, line)?;
    answers(rt, alloc, "a plan", plan, files, &wanted)
}

/// Arguments, given in one line, print a text, where standard input holds another.
pub fn prints_by<'a, R: Abort + Threads + Wait + Sync>(
    rt: &R,
    alloc: Global,
    line: &str,
    plan: &'a str,
    files: &'a [&'a str],
    standard_input: &'a str,
    text: &str,
) -> Result<(), Fail> {
    let inputs = Inputs {
        plan,
        files,
        standard_input,
    };
    let wanted = Answer::of_frame(alloc, text)?;
    answers_by(rt, alloc, "arguments", line, inputs, &wanted)
}

/// Arguments, given in one line, end in a status and a fault on standard error, where standard input holds a text.
pub fn fails_by<'a, R: Abort + Threads + Wait + Sync>(
    rt: &R,
    alloc: Global,
    line: &str,
    plan: &'a str,
    files: &'a [&'a str],
    standard_input: &'a str,
    status: u8,
    fault: &str,
) -> Result<(), Fail> {
    let inputs = Inputs {
        plan,
        files,
        standard_input,
    };
    let wanted = Answer::of_fault(alloc, status, fault)?;
    answers_by(rt, alloc, "arguments", line, inputs, &wanted)
}

/// Arguments, given in one line, end in a status and write these texts on standard output and standard error, where standard input holds a
/// text.
pub fn writes_by<'a, R: Abort + Threads + Wait + Sync>(
    rt: &R,
    alloc: Global,
    line: &str,
    plan: &'a str,
    files: &'a [&'a str],
    standard_input: &'a str,
    wanted: (u8, &str, &str),
) -> Result<(), Fail> {
    let inputs = Inputs {
        plan,
        files,
        standard_input,
    };
    let (status, out, err) = wanted;
    let answer = Answer {
        status,
        out: String::from_str(alloc, out)?,
        err: String::from_str(alloc, err)?,
    };
    answers_by(rt, alloc, "arguments", line, inputs, &answer)
}

// A plan over files is answered so at each setting, and from standard input, if it can stand there.
fn answers<'a, R: Abort + Threads + Wait + Sync>(
    rt: &R,
    alloc: Global,
    about: &str,
    plan: &'a str,
    files: &'a [&'a str],
    wanted: &Answer,
) -> Result<(), Fail> {
    let inputs = Inputs {
        plan,
        files,
        standard_input: "",
    };
    for (batch_size, workers) in SETTINGS {
        let line = line_at(alloc, files.len(), batch_size, workers)?;
        answers_by(rt, alloc, about, line.as_str(), inputs, wanted)?;
    }
    match files {
        [file] if !plan.contains('\n') => answers_from_input(rt, alloc, about, plan, *file, wanted),
        _ => Ok(()),
    }
}

// The arguments of a plan over so many files. A plan that is refused wants no file, but one is named.
fn line_at(alloc: Global, files: usize, batch_size: u32, workers: u16) -> Result<String, Fail> {
    let mut line = format!(in alloc; "--plan plan --batch {batch_size} --workers {workers}")?;
    for file in 0..files.max(1) {
        line.push_str(format!(in alloc; " {file}")?.as_str())?;
    }
    Ok(line)
}

// Arguments, given in one line, are answered so.
fn answers_by<R: Abort + Threads + Wait + Sync>(
    rt: &R,
    alloc: Global,
    about: &str,
    line: &str,
    mut inputs: Inputs<'_>,
    wanted: &Answer,
) -> Result<(), Fail> {
    let mut words = Vec::new(alloc);
    for word in line.split(' ') {
        words.push(String::from_str(alloc, word)?)?;
    }
    let (mut out, mut err) = (Noted::new(Vec::new(alloc)), Vec::new(alloc));
    let status = with_words(rt, alloc, words, &mut inputs, &mut out, &mut err);
    assert_eq!(rt;
        &Answer::of_bytes(status, out.writer, err)?,
        wanted,
        "{about}, by {line}"
    );
    Ok(())
}

// The program without arguments answers so to a plan in a line of its own, and a file after it.
fn answers_from_input<R: Abort + Threads + Wait + Sync>(
    rt: &R,
    alloc: Global,
    about: &str,
    plan: &str,
    file: &str,
    wanted: &Answer,
) -> Result<(), Fail> {
    let input = format!(in alloc; "{plan}\n{file}")?;
    let (mut out, mut err) = (Vec::new(alloc), Vec::new(alloc));
    let status = one_input(rt, alloc, input.as_bytes(), &mut out, &mut err);
    assert_eq!(rt;
        &Answer::of_bytes(status, out, err)?,
        wanted,
        "{about}, from standard input"
    );
    Ok(())
}
