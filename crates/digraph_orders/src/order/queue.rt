//! A queue of numbers from which the least is removed first.
ghost use Rattle.std.specs.Prelude.{◌≡◌, ◌<◌, [], false, length, replicate, IfSome, IfNone, IfOk};
ghost use Rattle.digraphs.specs.Bits.{members};
ghost use Rattle.digraph_orders.specs.inner.Queues.{Joins, Leaves};

use digraphs::IxBitSet;
use std::alloc::{AllocError, Global};
use std::marker::Model;

/// Numbers below a bound, from which the least is removed first. A number that is pushed twice is in the queue
/// once.
#[derive(Drop)]
pub(crate) struct Queue {
    numbers: IxBitSet,
    /// Each word of `numbers` that isn't 0. Words that became 0 may be included.
    words: IxBitSet,
    /// Each word of `words` that isn't 0. Words that became 0 may be included.
    blocks: IxBitSet,
}

impl Model for Queue {
    ghost use Rattle.std.specs.Prelude.{Bool, List};
    ghost use Rattle.digraph_orders.specs.inner.Queues.{IsAbove};

    ghost Value = { List Bool };

    ghost view = { λ q. q.numbers };

    ghost invariant = { λ q. IsAbove q.numbers q.words × IsAbove q.words q.blocks };
}

impl Queue {
    /// Returns an empty queue for numbers below `bound`.
    pub(crate) fn empty(alloc: Global, bound: usize) -> Result<Queue, AllocError>
        ensures { IfOk result (λ queue. queue ≡ replicate bound false) }
    {
        let word_count = bound / 64 + 1;
        let numbers = IxBitSet::empty(alloc, bound)?;
        let words = IxBitSet::empty(alloc, word_count)?;
        let blocks = IxBitSet::empty(alloc, word_count / 64 + 1)?;
        Ok(Queue {
            numbers,
            words,
            blocks,
        })
    }

    /// Inserts `number`, which is below the bound.
    pub(crate) fn push(&mut self, number: usize)
        requires { number < length self.old }
        ensures joins { Joins (members self.old) number (members self.new) }
        ensures room { length self.new ≡ length self.old }
    {
        let word = number / 64;
        self.numbers.insert(number);
        self.words.insert(word);
        self.blocks.insert(word / 64);
    }

    /// Removes the least number and returns it. On the way, words that became 0 are removed from the upper
    /// sets.
    pub(crate) fn pop(&mut self) -> Option<usize>
        ensures none { IfNone result (members self.old ≡ []) }
        ensures empty { IfNone result (members self.new ≡ []) }
        ensures some { IfSome result (λ x. Leaves (members self.old) x (members self.new)) }
        ensures room { length self.new ≡ length self.old }
    {
        while let Some(block) = self.blocks.next_from(0) {
            if let Some(word) = self.words.first_in(block) {
                if let Some(number) = self.numbers.first_in(word) {
                    self.numbers.remove(number);
                    return Some(number);
                }
                self.words.remove(word);
            } else {
                self.blocks.remove(block);
            }
        }
        None
    }
}
