// The words with which the program was started.
ghost use Rattle.std.specs.Prelude.{◌≡◌, map, drop, string_bytes, IfOk};
ghost use Rattle.mn_words.specs.Words.{texts};

use crate::status::Status;
use mn_words::WordsFault;
use std::alloc::{AllocError, Global};
use std::env::Env;
use std::{env, io};

/// The program's name and its words, or the answer where they can't be had.
///
/// A word that is no UTF-8 is of no command's form.
pub fn command_line<R: Env + AllocGlobal>(rt: &R) -> Result<Vec<String>, Status> {
    match env::args(rt) {
        Ok(all) => all.collect(rt.alloc()).map_err(|_| Status::NoMemory),
        Err(error) if error.kind() == io::ErrorKind::InvalidData => {
            Err(Status::BadWords(WordsFault::Form))
        }
        Err(_) => Err(Status::NoMemory),
    }
}

/// The words after the first, which is the program's name.
pub fn words_behind(alloc: Global, all: &[String]) -> Result<Vec<&str>, AllocError>
    ensures { IfOk result (λ words. texts words.items ≡ drop 1 (map string_bytes all.now)) }
{
    let Some((_, behind)) = all.split_first() else {
        return Ok(Vec::new(alloc));
    };
    lent(alloc, behind)
}

/// Lends each text.
fn lent(alloc: Global, owned: &[String]) -> Result<Vec<&str>, AllocError>
    ensures { IfOk result (λ words. texts words.items ≡ map string_bytes owned.now) }
{
    let mut words = Vec::new(alloc);
    for word in owned {
        words.push(word.as_str())?;
    }
    Ok(words)
}

#[cfg(test)]
mod tests;
