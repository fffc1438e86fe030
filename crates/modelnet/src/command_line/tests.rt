ghost use Rattle.std.specs.Io.{WritesAtMost};

use crate::command_line::command_line;
use crate::status::Status;
use mn_words::WordsFault;
use std::env::{Env, FillError};

/// A system that was started with one word after the program's name.
#[derive(Drop)]
struct Started<'a> {
    word: &'a [u8],
}

impl Env for Started<'_> {
    fn arg(&self, i: usize, buf: &mut [u8]) -> Result<usize, FillError>
        ensures bound { WritesAtMost result buf.new }
    {
        let word = match i {
            0 => b"modelnet".as_slice(),
            1 => self.word,
            _ => return Err(FillError::NotPresent),
        };
        if word.len() > buf.len() {
            return Err(FillError::TooLong);
        }
        buf[..word.len()].copy_from_slice(word);
        Ok(word.len())
    }

    fn var(&self, _name: &str, buf: &mut [u8]) -> Result<usize, FillError>
        ensures bound { WritesAtMost result buf.new }
    {
        Err(FillError::NotPresent)
    }

    fn var_at(&self, _i: usize, buf: &mut [u8]) -> Result<usize, FillError>
        ensures bound { WritesAtMost result buf.new }
    {
        Err(FillError::NotPresent)
    }
}

#[test]
fn a_word_that_is_no_utf8_is_of_no_form(rt: HostRuntime) {
    let latin = Started {
        word: b"caf\xe9.pcap",
    };
    let refused = command_line(&(latin, rt.alloc()));
    assert_eq!(rt; refused.err(), Some(Status::BadWords(WordsFault::Form)));

    let utf8 = Started {
        word: "caf\u{e9}.pcap".as_bytes(),
    };
    let all = command_line(&(utf8, rt.alloc()));
    let all = all.ok().expect(&rt, "two words");
    assert_eq!(rt; all.len(), 2);
    assert_eq!(rt; all[1].as_str(), "caf\u{e9}.pcap");
}
