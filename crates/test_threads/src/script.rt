//! A program of the caller's own: loads and stores of one word, by their places.
use physiological_order::{Op, WordAddr};
use programs::{Program, Step};

/// The operations of these places on a word, from the first place to before the last. At each sixth place, from 0 on,
/// the script stores the place's number plus one, and at the others it loads the word.
#[derive(Clone, Copy, Drop)]
pub struct Script {
    pub word: u32,
    pub at: u32,
    pub end: u32,
}

impl Program for Script {
    ghost use Rattle.test_threads.specs.Scripts.{script_next, script_done};

    ghost acts = { record { next = script_next; done = script_done } };

    fn next(&self) -> Option<Step> {
        if self.at >= self.end {
            return None;
        }
        let word = WordAddr::at(u64::from(self.word));
        if self.at % 6 == 0 {
            return Some(Step::Op(Op::Store(word, u64::from(self.at) + 1)));
        }
        Some(Step::Op(Op::Load(word)))
    }

    fn done(&mut self, _received: Option<u64>) {
        if self.at < self.end {
            self.at += 1;
        }
    }
}
