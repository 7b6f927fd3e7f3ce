use crate::{ReadError, read, write};
use sk_types::{Bytes, Handle, Journal, NoMemory};
use std::alloc::Global;
use std::test::Fail;

const HELLO: &str = "skynet-journal 1\n3\n3\n1\nend 3\n";

/// Texts that spell no journal, and where each stops to be the beginning of one.
const FAULTY: [(&str, u64); 33] = [
    ("", 0),
    ("skynet-journal 1", 16),
    ("skynet-journal 2\nend 0\n", 15),
    ("skynet-journal 1\r\nend 0\n", 16),
    ("Skynet-journal 1\nend 0\n", 0),
    ("skynet-journal 1\n", 17),
    ("skynet-journal 1\n\nend 0\n", 17),
    ("skynet-journal 1\nskynet-journal 1\nend 0\n", 17),
    ("skynet-journal 1\n3\n", 19),
    ("skynet-journal 1\n3\n3\n1\nend 4\n", 27),
    ("skynet-journal 1\n3\n3\n1\nend 2\n", 27),
    ("skynet-journal 1\n3\n3\n1\nend 33\n", 28),
    ("skynet-journal 1\n3\n3\n1\nend 03\n", 27),
    ("skynet-journal 1\n3\n3\n1\nend  3\n", 27),
    ("skynet-journal 1\n3\n3\n1\nend 3", 28),
    ("skynet-journal 1\n3\n3\n1\nend 3 \n", 28),
    ("skynet-journal 1\n3\n3\n1\nend 3\n\n", 29),
    ("skynet-journal 1\n3\n3\n1\nend 3\nend 3\n", 29),
    ("skynet-journal 1\n3\n3\n1\nend 3\n3\n", 29),
    ("skynet-journal 1\n3\n3\n1\nEnd 3\n", 23),
    ("skynet-journal 1\n3\n3\n1\nend", 26),
    ("skynet-journal 1\n65536\nend 1\n", 21),
    ("skynet-journal 1\n65540\nend 1\n", 21),
    ("skynet-journal 1\n66000\nend 1\n", 21),
    ("skynet-journal 1\n70000\nend 1\n", 21),
    ("skynet-journal 1\n100000\nend 1\n", 22),
    ("skynet-journal 1\n00\nend 1\n", 18),
    ("skynet-journal 1\n03\nend 1\n", 18),
    ("skynet-journal 1\n+3\nend 1\n", 17),
    ("skynet-journal 1\n-3\nend 1\n", 17),
    ("skynet-journal 1\n3 \nend 1\n", 18),
    ("skynet-journal 1\n 3\nend 1\n", 17),
    ("skynet-journal 1\n3é\nend 1\n", 18),
];

/// Where the text stops to be the beginning of a journal's, or None where it spells one.
fn fault_of(alloc: Global, text: &[u8]) -> Result<Option<u64>, NoMemory> {
    match read(alloc, text) {
        Ok(_) => Ok(None),
        Err(ReadError::Form { offset }) => Ok(Some(offset)),
        Err(ReadError::Memory) => Err(NoMemory),
    }
}

/// A journal of so many entries of the start service, without its last line.
fn long_text(alloc: Global, entries: u32) -> Result<Bytes, NoMemory> {
    let mut text = Bytes::from_slice(alloc, b"skynet-journal 1\n")?;
    for _ in 0..entries {
        text.push_slice(b"3\n")?;
    }
    Ok(text)
}

#[test]
fn faults_have_their_offset(rt: HostRuntime) -> Result<(), Fail> {
    for (text, offset) in FAULTY.iter() {
        assert_eq!(rt; fault_of(rt.alloc(), text.as_bytes())?, Some(*offset));
    }
    Ok(())
}

#[test]
fn cut_texts_end_too_early(rt: HostRuntime) -> Result<(), Fail> {
    let text = HELLO.as_bytes();
    for end in 0..text.len() {
        assert_eq!(rt; fault_of(rt.alloc(), &text[..end])?, Some(end as u64));
    }
    assert_eq!(rt; fault_of(rt.alloc(), text)?, None);
    Ok(())
}

#[test]
fn a_changed_byte_is_the_fault(rt: HostRuntime) -> Result<(), Fail> {
    for (at, _) in HELLO.as_bytes().iter().enumerate() {
        let mut text = Vec::from_slice(rt.alloc(), HELLO.as_bytes())?;
        text[at] = b'x';
        assert_eq!(rt; fault_of(rt.alloc(), text.as_slice())?, Some(at as u64));
    }
    Ok(())
}

#[test]
fn what_was_written_reads_back(rt: HostRuntime) -> Result<(), Fail> {
    let mut journal = Journal::new(rt.alloc());
    for agent in [3, 0, 10, 65535, 655, 1].iter() {
        journal.push(Handle(*agent))?;
        let text = write(rt.alloc(), &journal)?;
        match read(rt.alloc(), text.as_slice()) {
            Ok(back) => assert_eq!(rt; back.as_slice(), journal.as_slice()),
            Err(_) => assert!(rt; false),
        }
    }
    let text = write(rt.alloc(), &journal)?;
    assert_eq!(rt;
        text.as_slice(),
        b"skynet-journal 1\n3\n0\n10\n65535\n655\n1\nend 6\n".as_slice()
    );
    Ok(())
}

#[test]
fn no_journal_is_longer_than_four_million(rt: HostRuntime) -> Result<(), Fail> {
    let mut text = long_text(rt.alloc(), 4_000_000)?;
    text.push_slice(b"end 4000000\n")?;
    assert_eq!(rt; fault_of(rt.alloc(), text.as_slice())?, None);
    let text = long_text(rt.alloc(), 4_000_001)?;
    assert_eq!(rt; fault_of(rt.alloc(), text.as_slice())?, Some(8_000_017));
    Ok(())
}
