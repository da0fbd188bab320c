// What becomes of errors, which no contract says: trials on an output with room for few writes, and with a call that
// fails. Three frames: a call, a number that names no operation, and a call.
use super::*;
use std::cell::Cell;
use std::fmt::{Display, Write};
use std::io::{Error, ErrorKind};

const INPUT: &[u8] = b"\x01a\x01\x01b\x02\x01c\x01";

const LINES: &[u8] = b"a: called\nb: no such operation\nc: called\n";

const WRITES: u32 = 12; // four to a line

#[derive(Clone, Copy)]
struct Text {
    bytes: [u8; 64],
    len: usize,
}

impl Text {
    fn push(&mut self, bytes: &[u8]) {
        for byte in bytes {
            if let Some(place) = self.bytes.get_mut(self.len) {
                *place = *byte;
            }
            self.len = self.len.wrapping_add(1);
        }
    }
}

impl Write for Text {
    fn write_str(&mut self, s: &str) -> fmt::Result {
        self.push(s.as_bytes());
        Ok(())
    }
}

// An output that takes so many writes and fails at each later one.
#[derive(Drop)]
struct Page {
    room: u32,
    tried: Cell<u32>,
    text: Cell<Text>,
}

impl Page {
    fn new(room: u32) -> Page {
        Page {
            room,
            tried: Cell::new(0),
            text: Cell::new(Text {
                bytes: [0; 64],
                len: 0,
            }),
        }
    }

    // Counts a write, and hands out the text that it goes to, where there is room for it.
    fn place(&self) -> io::Result<Text> {
        let before = self.tried.get();
        self.tried.set(before.wrapping_add(1));
        if before < self.room {
            Ok(self.text.get())
        } else {
            Err(Error::from(ErrorKind::StorageFull))
        }
    }
}

impl Print for Page {
    fn print<D: Display + Drop>(&self, value: D) -> io::Result<()> {
        let mut text = self.place()?;
        let _ = write!(text, "{value}");
        self.text.set(text);
        Ok(())
    }

    fn println<D: Display + Drop>(&self, value: D) -> io::Result<()> {
        let mut text = self.place()?;
        let _ = writeln!(text, "{value}");
        self.text.set(text);
        Ok(())
    }

    fn write_all(&self, bytes: &[u8]) -> io::Result<()> {
        let mut text = self.place()?;
        text.push(bytes);
        self.text.set(text);
        Ok(())
    }
}

// The operation 1.
#[derive(Clone, Copy)]
struct Call;

impl TryFrom<u8> for Call {
    type Error = NoSuchOperation;

    fn try_from(number: u8) -> Result<Call, NoSuchOperation> {
        if number == 1 {
            Ok(Call)
        } else {
            Err(NoSuchOperation)
        }
    }
}

#[test]
fn lines_are_the_same(rt: HostRuntime) {
    let page = Page::new(WRITES);
    let told = run_trials(&page, INPUT, |_: Call, _| print!(page; "called"));
    assert!(rt; told.is_ok());
    let every = Page::new(WRITES);
    run_every_trial(&every, INPUT, |_: Call, _| print!(every; "called"));
    for text in [page.text.get(), every.text.get()] {
        assert_eq!(rt; text.len, LINES.len());
        assert!(rt; text.bytes.starts_with(LINES));
    }
}

// How many writes are tried and calls made where there is room for so many writes.
#[test]
fn write_fails(rt: HostRuntime) {
    for (room, tried, calls) in [
        (0, 1, 0),
        (1, 2, 0),
        (2, 3, 1),
        (3, 4, 1),
        (4, 5, 1),
        (5, 6, 1),
        (6, 7, 1),
        (7, 8, 1),
        (8, 9, 1),
        (9, 10, 1),
        (10, 11, 2),
        (11, 12, 2),
    ] {
        let page = Page::new(room);
        let called = Cell::new(0u32);
        let told = run_trials(&page, INPUT, |_: Call, _| {
            called.set(called.get().wrapping_add(1));
            print!(page; "called")
        });
        assert_eq!(rt;
            told.err().map(|e| e.kind()),
            Some(ErrorKind::StorageFull),
            "room {room}"
        );
        assert_eq!(rt; page.tried.get(), tried, "room {room}");
        assert_eq!(rt; called.get(), calls, "room {room}");

        let page = Page::new(room);
        let called = Cell::new(0u32);
        run_every_trial(&page, INPUT, |_: Call, _| {
            called.set(called.get().wrapping_add(1));
            print!(page; "called")
        });
        assert_eq!(rt; page.tried.get(), WRITES, "room {room}");
        assert_eq!(rt; called.get(), 2, "room {room}");
    }
}

#[test]
fn call_fails(rt: HostRuntime) {
    let page = Page::new(WRITES);
    let told = run_trials(&page, INPUT, |_: Call, _| {
        Err(Error::from(ErrorKind::InvalidData))
    });
    assert_eq!(rt; told.err().map(|e| e.kind()), Some(ErrorKind::InvalidData));
    assert_eq!(rt; page.tried.get(), 2);

    let page = Page::new(WRITES);
    run_every_trial(&page, INPUT, |_: Call, _| {
        Err(Error::from(ErrorKind::InvalidData))
    });
    assert_eq!(rt; page.tried.get(), 10);
}
