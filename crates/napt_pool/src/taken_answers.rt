//! The answers that one call takes from a worker.

use crate::message::AnsweredBatch;

/// Answers of a worker, in order.
#[derive(Drop)]
pub enum TakenAnswers<I, A> {
    /// One answer: to an item offered alone, or to one of a batch after `take` returned another.
    One(A),
    /// The answers to the items of a batch, or to the first of them if the worker then stopped.
    All(AnsweredBatch<I, A>),
}

impl<I, A> TakenAnswers<I, A> {
    ghost use Rattle.std.specs.Prelude.{◌≡◌, length};
    ghost use Rattle.napt_pool.specs.TakenAnswers.{answers_in};

    /// Returns the number of answers.
    pub fn len(&self) -> usize
        ensures { result ≡ length (answers_in self.now) }
    {
        match self {
            TakenAnswers::One(_) => 1,
            TakenAnswers::All(answered) => answered.answers.len(),
        }
    }
}
