//! Questions in the order of asking.

ghost use Rattle.std.specs.Prelude.{◌≡◌, ◌==◌, drop, filter, not, slice_get};
ghost use Rattle.machine_spec.specs.Stopping.{is_first_of};

use machine_spec::{InstanceId, Question, Questions};

// The first question, and those behind it.
pub(crate) fn without_first(questions: Questions) -> (Option<Question>, Questions)
    ensures first { result.0 ≡ slice_get questions 0 }
    ensures rest { result.1 ≡ drop 1 questions }
{
    let mut questions = questions.into_vec();
    if questions.is_empty() {
        return (None, Questions::from_vec(questions));
    }
    let first = questions.remove(0);
    (Some(first), Questions::from_vec(questions))
}

// Whether the first question is one of the instance.
pub(crate) fn is_first(of: InstanceId, questions: &[Question]) -> bool
    ensures { result ≡ is_first_of of questions.now }
{
    match questions {
        [] => false,
        [first, ..] => first.of == of,
    }
}

// The questions without those of an instance.
pub(crate) fn without(of: InstanceId, questions: Questions) -> Questions
    ensures { result ≡ filter (λ q. not (q.of == of)) questions }
{
    let mut questions = questions.into_vec();
    questions.retain(|question| question.of != of);
    Questions::from_vec(questions)
}
