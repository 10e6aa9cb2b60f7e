//! A frame in the place of a file, of whose bytes the contracts speak.
ghost use Rattle.std.specs.Prelude.{Some, None, codes, if◌then◌else◌};
ghost use Rattle.std.specs.Str.{bytes_eq};

use fq_program::{Noted, OpenFault, Opener, with_words};
use std::alloc::Global;
use std::io;
use std::io::ErrorKind;
use std::sync::Wait;
use std::test::Fail;
use std::thread::Threads;

// A plan, the file that it reads, and the file that takes the frame.
#[derive(Drop)]
struct Shelf<'a> {
    plan: &'a str,
    input: &'a str,
    frame: Vec<u8>,
}

impl<'a> Opener for Shelf<'a> {
    type Reader = &'a [u8];

    type Output = Vec<u8>;

    ghost bytes_of = { λ shelf name.
        if bytes_eq name (codes "plan") then Some shelf.plan.now
        else if bytes_eq name (codes "input") then Some shelf.input.now
        else if bytes_eq name (codes "frame") then Some shelf.frame.items
        else None };

    fn reader_of(&mut self, name: &str) -> Result<&'a [u8], OpenFault> {
        if name == "plan" {
            Ok(self.plan.as_bytes())
        } else if name == "input" {
            Ok(self.input.as_bytes())
        } else {
            Err(OpenFault::Failed(io::Error::from(ErrorKind::NotFound)))
        }
    }

    fn output_of(&mut self, alloc: Global, _name: &str) -> Result<Vec<u8>, OpenFault> {
        Ok(Vec::new(alloc))
    }

    fn keep(&mut self, name: &str, output: Vec<u8>) -> Result<(), OpenFault> {
        if name == "frame" {
            self.frame = output;
            Ok(())
        } else {
            Err(OpenFault::Failed(io::Error::from(ErrorKind::NotFound)))
        }
    }

    fn discard(&mut self, _output: Vec<u8>) {}
}

// The status of a run over this file, and what the file holds then that is to take the frame.
fn frame_of<R: Threads + Wait + Sync>(
    rt: &R,
    alloc: Global,
    input: &str,
) -> Result<(u8, String), Fail> {
    let mut shelf = Shelf {
        plan: r#"{"version":1,"sources":[{"files":1,"columns":[["v","int"]]}],"steps":[]}"#,
        input,
        frame: b"before".to_vec(alloc)?,
    };
    let mut words = Vec::new(alloc);
    for word in ["--plan", "plan", "--output", "frame", "input"] {
        words.push(String::from_str(alloc, word)?)?;
    }
    let (mut out, mut err) = (Noted::new(Vec::new(alloc)), Vec::new(alloc));
    let status = with_words(rt, alloc, words, &mut shelf, &mut out, &mut err);
    let Shelf { frame, .. } = shelf;
    Ok((status, String::from_utf8(frame)?))
}

#[test]
fn a_frame_takes_the_place_of_a_file(rt: HostRuntime) -> Result<(), Fail> {
    let (status, frame) = frame_of(&rt, rt.alloc(), "v\n1\n2\n")?;
    assert_eq!(rt; status, 0);
    assert_eq!(rt; frame.as_str(), "v\n1\n2\n");
    Ok(())
}

#[test]
fn a_fault_leaves_the_file_as_it_was(rt: HostRuntime) -> Result<(), Fail> {
    let (status, frame) = frame_of(&rt, rt.alloc(), "v\n1\nx\n")?;
    assert_eq!(rt; status, 4);
    assert_eq!(rt; frame.as_str(), "before");
    Ok(())
}
