//! Whether two desks answered the same, with all that their answers hold.
use adr_machine::Answer;
use adr_same::Same;
use adr_text::Refusal;

/// Whether both were answered the same, or refused the same.
pub fn is_same_answer(answer: &Result<Answer, Refusal>, other: &Result<Answer, Refusal>) -> bool {
    match (answer, other) {
        (Ok(answer), Ok(other)) => answer.is_same(other),
        (Err(refusal), Err(other)) => refusal == other,
        _ => false,
    }
}

/// Whether both lists have the same answers in the same order.
pub fn are_same_answers(
    answers: &[Result<Answer, Refusal>],
    others: &[Result<Answer, Refusal>],
) -> bool {
    answers.len() == others.len()
        && answers
            .iter()
            .zip(others)
            .all(|(answer, other)| is_same_answer(answer, other))
}
