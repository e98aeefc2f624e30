//! The words of a player's command line.

use std::alloc::{AllocError, Global};
use std::rt::Env;
use std::{env, io};

/// What the words ask for.
#[derive(Drop)]
pub struct Wishes {
    /// Paths; `-` is standard input.
    pub files: Vec<String>,
    pub how: Manner,
}

/// How texts are played.
#[derive(Clone, Copy)]
pub struct Manner {
    /// The player writes the texts, with the answers that came.
    pub prints: bool,
    /// The player plays a line once more if memory was refused to it.
    pub again: bool,
    /// The player plays each example in three ways.
    pub three_ways: bool,
}

impl Wishes {
    /// What these words ask for, the first of which is the program's name; nothing if there is no such option as one
    /// of them.
    pub fn new(alloc: Global, words: Vec<String>) -> Result<Option<Wishes>, AllocError> {
        let mut files = Vec::new(alloc);
        let mut how = Manner {
            prints: false,
            again: false,
            three_ways: false,
        };
        let mut is_program = true;
        for word in words {
            if is_program {
                is_program = false;
                continue;
            }
            match word.as_str() {
                "--print" => how.prints = true,
                "--again" => how.again = true,
                "--three-ways" => how.three_ways = true,
                name if name.starts_with("--") => return Ok(None),
                _ => files.push(word)?,
            }
        }
        if files.is_empty() {
            files.push(String::from_str(alloc, "-")?)?;
        }
        Ok(Some(Wishes { files, how }))
    }
}

/// Whether the command line has the word `--live` alone.
pub(crate) fn has_live_option<R: AllocGlobal + Env>(rt: &R) -> io::Result<bool> {
    let words: Vec<String> = env::args(rt)?.collect(rt.alloc())?;
    Ok(match words.as_slice() {
        [_, word] => word.as_str() == "--live",
        _ => false,
    })
}
