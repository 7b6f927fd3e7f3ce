//! Checks of folders in memory, with ample memory: none answers want of it.

use crate::check_folder;
use sk_ports::{MemoryFolder, MemorySink};
use sk_types::{NoMemory, StartFault, Status, SyntaxFault, SyntaxKind};
use std::alloc::Global;
use std::test::Fail;

/// What a check is given: files, and the device calls that fail.
#[derive(Drop)]
struct Given<'a> {
    files: &'a [(&'a str, &'a [u8])],
    folder_fails: &'a [u64],
    step: u64,
    out_fails: &'a [u64],
}

fn folder_of(alloc: Global, given: &Given) -> Result<MemoryFolder, NoMemory> {
    let mut folder = MemoryFolder::new(alloc);
    folder.fail = Vec::from_slice(alloc, given.folder_fails)?;
    for (name, bytes) in given.files {
        let name = String::from_str(alloc, name)?;
        folder.files.push((name, Vec::from_slice(alloc, bytes)?))?;
    }
    Ok(folder)
}

fn check(alloc: Global, given: &Given) -> Result<(Status, Vec<u8>), NoMemory> {
    let mut folder = folder_of(alloc, given)?;
    let out_fails = Vec::from_slice(alloc, given.out_fails)?;
    let mut out = MemorySink::new(alloc, 1000, given.step, out_fails)?;
    let words = vec![in alloc; String::from_str(alloc, "folder")?]?;
    let status = check_folder(alloc, &words, &mut folder, &mut out);
    let written = Vec::from_slice(alloc, out.written.as_slice())?;
    Ok((status, written))
}

const FILES: &[(&str, &[u8])] = &[
    (
        "main.lua",
        b"local skynet = require \"skynet\"\nskynet.error(\"hello\")\n",
    ),
    ("notes.txt", b"x = = 1"),
    ("bad.lua", b"x = = 1"),
];

const GOOD: Given<'static> = Given {
    files: FILES,
    folder_fails: &[],
    step: 1000,
    out_fails: &[],
};

const FAULT: SyntaxFault = SyntaxFault {
    line: 1,
    kind: SyntaxKind::Unexpected,
};

#[test]
fn a_line_for_each_script(rt: HostRuntime) -> Result<(), Fail> {
    let (status, written) = check(rt.alloc(), &GOOD)?;
    assert_eq!(rt; status, Status::NoStart(StartFault::Unread(FAULT)));
    assert_eq!(rt;
        written.as_slice(),
        b"bad.lua:1: unexpected token\nmain.lua: ok\n".as_slice()
    );
    let (status, written) = check(
        rt.alloc(),
        &Given {
            files: &[("a.lua", b"return 1")],
            ..GOOD
        },
    )?;
    assert_eq!(rt; status, Status::Done);
    assert_eq!(rt; written.as_slice(), b"a.lua: ok\n".as_slice());
    Ok(())
}

#[test]
fn failed_devices_end_the_call(rt: HostRuntime) -> Result<(), Fail> {
    for call in [1, 2, 3] {
        let given = Given {
            folder_fails: &[call],
            ..GOOD
        };
        let (status, written) = check(rt.alloc(), &given)?;
        assert_eq!(rt; status, Status::ReadFault);
        assert!(rt; written.is_empty());
    }
    let given = Given {
        step: 4,
        out_fails: &[2],
        ..GOOD
    };
    let (status, written) = check(rt.alloc(), &given)?;
    assert_eq!(rt; status, Status::WriteFault);
    assert_eq!(rt; written.as_slice(), b"bad.".as_slice());
    Ok(())
}

const FAULTY: &[(&str, &[u8])] = &[
    ("01.lua", b"x = $"),
    ("02.lua", b"x = 'a"),
    ("03.lua", b"\n[[a"),
    ("04.lua", b"x = '\\q'"),
    ("05.lua", b"x = 3.5"),
    ("06.lua", b"return 1\n/ 2"),
    ("07.lua", b"x = = 1"),
    ("08.lua", b"break"),
    ("09.lua", b"function f()\n return ... end"),
    ("10.lua", b"goto x"),
];

const FAULTS: &[u8] = b"01.lua:1: bad byte
02.lua:1: unfinished string
03.lua:2: unfinished long string
04.lua:1: bad escape
05.lua:1: bad numeral
06.lua:2: float operator
07.lua:1: unexpected token
08.lua:1: break outside a loop
09.lua:2: vararg outside a vararg function
10.lua:1: not supported
";

#[test]
fn each_fault_has_its_line_and_text(rt: HostRuntime) -> Result<(), Fail> {
    let given = Given {
        files: FAULTY,
        ..GOOD
    };
    let (status, written) = check(rt.alloc(), &given)?;
    let fault = SyntaxFault {
        line: 1,
        kind: SyntaxKind::BadByte,
    };
    assert_eq!(rt; status, Status::NoStart(StartFault::Unread(fault)));
    assert_eq!(rt; written.as_slice(), FAULTS);
    Ok(())
}

#[test]
fn a_script_may_be_too_long(rt: HostRuntime) -> Result<(), Fail> {
    let mut bytes = Vec::new(rt.alloc());
    bytes.resize(1_048_577, b' ')?;
    let given = Given {
        files: &[("long.lua", bytes.as_slice())],
        ..GOOD
    };
    let (_, written) = check(rt.alloc(), &given)?;
    assert_eq!(rt;
        written.as_slice(),
        b"long.lua:1: script too long\n".as_slice()
    );
    Ok(())
}
