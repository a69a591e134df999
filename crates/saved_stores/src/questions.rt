//! Questions that wait for their answers.

ghost use Rattle.std.specs.Prelude.{◌≡◌, true, map, IfOk};
ghost use Rattle.std.specs.List.{list_all};
ghost use Rattle.saved_parts.specs.Telling.{question_of};
ghost use Rattle.saved_spec.specs.Rules.{is_value_text};

use machine_spec::{InstanceId, Question, Questions, Serial};
use saved_parts::{ToldQuestion, ToldQuestions};
use scratch_values::BoundText;
use std::alloc::{AllocError, Global};

// The question that is told, whose text is short enough.
fn question(alloc: Global, told: ToldQuestion) -> Result<Question, AllocError>
    requires { is_value_text told.text ≡ true }
    ensures { IfOk result (λ question. question ≡ question_of told) }
{
    let text = BoundText::from_short(alloc, told.text)?;
    Ok(Question {
        of: InstanceId(told.of),
        thread: Serial(told.thread),
        text,
        bubble: told.bubble,
    })
}

// The questions that are told. The only error is want of memory.
pub(crate) fn asked(alloc: Global, told: ToldQuestions) -> Result<Questions, AllocError>
    requires { list_all (λ q. is_value_text q.text) told ≡ true }
    ensures { IfOk result (λ questions. questions ≡ map question_of told) }
{
    let mut questions = Questions::new(alloc);
    for told in told.into_vec() {
        questions.push(question(alloc, told)?)?;
    }
    Ok(questions)
}
