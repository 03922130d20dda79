//! Laws of the program's answers. Each function does nothing: its contract is the law.
ghost use Rattle.laws.specs.answers.Laws.{AnswerExists};

use digraph_orders::laws::order_exists;

/// Over all bytes, each command has a text or a fault. The law is a double negation, so it computes no answer.
pub fn answer_exists()
    ensures { AnswerExists }
{
    order_exists();
}
