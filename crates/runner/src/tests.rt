//! Whole runs over devices in memory, with ample memory: none answers want of it.

use crate::{RunBook, run_command};
use sk_ports::{MemoryFolder, MemorySink, MemoryTicks, OpenGate};
use sk_types::{Handle, NoMemory, StartFault, Status, SyntaxFault, SyntaxKind};
use std::alloc::Global;
use std::test::Fail;

const HELLO: &[u8] = b"local skynet = require \"skynet\"\nskynet.error(\"hello\")\n";

/// What a run is given: the start script, where there is one, and the device calls that fail.
#[derive(Drop)]
struct Given<'a> {
    script: Option<&'a [u8]>,
    folder_fails: &'a [u64],
    step: u64,
    out_fails: &'a [u64],
}

/// What a run leaves.
#[derive(Drop)]
struct Left {
    status: Status,
    written: Vec<u8>,
    book: RunBook,
}

fn run(alloc: Global, given: &Given) -> Result<Left, NoMemory> {
    let mut folder = MemoryFolder::new(alloc);
    folder.fail = Vec::from_slice(alloc, given.folder_fails)?;
    if let Some(script) = given.script {
        let name = String::from_str(alloc, "main.lua")?;
        folder.files.push((name, Vec::from_slice(alloc, script)?))?;
    }
    let out_fails = Vec::from_slice(alloc, given.out_fails)?;
    let mut out = MemorySink::new(alloc, 1000, given.step, out_fails)?;
    let mut journal_out = MemorySink::new(alloc, 0, 1, Vec::new(alloc))?;
    let mut book = RunBook::new(alloc);
    let words = vec![in alloc; String::from_str(alloc, "folder")?]?;
    let status = run_command(
        &(),
        alloc,
        &words,
        &mut folder,
        &mut out,
        &mut journal_out,
        &mut MemoryTicks { left: 0 },
        &OpenGate,
        &mut book,
    );
    let written = Vec::from_slice(alloc, out.written.as_slice())?;
    Ok(Left {
        status,
        written,
        book,
    })
}

const GOOD: Given<'static> = Given {
    script: Some(HELLO),
    folder_fails: &[],
    step: 1000,
    out_fails: &[],
};

#[test]
fn a_line_is_logged(rt: HostRuntime) -> Result<(), Fail> {
    let left = run(rt.alloc(), &GOOD)?;
    assert_eq!(rt; left.status, Status::Done);
    assert_eq!(rt; left.written.as_slice(), b"[:00000003] hello\n".as_slice());
    let agents = left.book.journal.as_slice();
    assert_eq!(rt; agents, [Handle(3), Handle(3), Handle(1)].as_slice());
    Ok(())
}

#[test]
fn an_empty_script_logs_nothing(rt: HostRuntime) -> Result<(), Fail> {
    let given = Given {
        script: Some(b""),
        ..GOOD
    };
    let left = run(rt.alloc(), &given)?;
    assert_eq!(rt; left.status, Status::Done);
    assert!(rt; left.written.is_empty());
    assert_eq!(rt; left.book.journal.as_slice(), [Handle(3)].as_slice());
    Ok(())
}

#[test]
fn no_script_no_run(rt: HostRuntime) -> Result<(), Fail> {
    let missing = Given {
        script: None,
        ..GOOD
    };
    let left = run(rt.alloc(), &missing)?;
    assert_eq!(rt; left.status, Status::NoStart(StartFault::Missing));
    assert!(rt; left.book.journal.is_empty());
    Ok(())
}

#[test]
fn a_script_that_cannot_run_has_its_fault(rt: HostRuntime) -> Result<(), Fail> {
    let cases: [(&[u8], SyntaxKind); 3] = [
        (b"x = = 1", SyntaxKind::Unexpected),
        (b"x = 'a", SyntaxKind::OpenString),
        (b"print(1)", SyntaxKind::NotBuilt),
    ];
    for (script, kind) in cases {
        let given = Given {
            script: Some(script),
            ..GOOD
        };
        let left = run(rt.alloc(), &given)?;
        let fault = SyntaxFault { line: 1, kind };
        assert_eq!(rt; left.status, Status::NoStart(StartFault::Unread(fault)));
        assert!(rt; left.written.is_empty() && left.book.journal.is_empty());
    }
    Ok(())
}

#[test]
fn a_failed_write_cuts_the_text(rt: HostRuntime) -> Result<(), Fail> {
    let given = Given {
        step: 4,
        out_fails: &[2],
        ..GOOD
    };
    let left = run(rt.alloc(), &given)?;
    assert_eq!(rt; left.status, Status::WriteFault);
    assert_eq!(rt; left.written.as_slice(), b"[:00".as_slice());
    assert_eq!(rt; left.book.journal.len(), 3);
    Ok(())
}

#[test]
fn a_failed_read_ends_the_call(rt: HostRuntime) -> Result<(), Fail> {
    for call in [1, 2] {
        let given = Given {
            folder_fails: &[call],
            ..GOOD
        };
        let left = run(rt.alloc(), &given)?;
        assert_eq!(rt; left.status, Status::ReadFault);
        assert!(rt; left.written.is_empty() && left.book.journal.is_empty());
    }
    Ok(())
}
