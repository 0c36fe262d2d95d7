// The numbers of an answer, as the list has them:
// 0 or a refusal's number, then the values, which are zeros where it is refused.
use base::refusal::Refusal;

// The numbers of an answer with `N` values.
pub fn numbers_of<const N: usize>(answer: Result<[usize; N], Refusal>) -> (usize, [usize; N]) {
    match answer {
        Ok(values) => (0, values),
        Err(refusal) => (usize::from(u8::from(refusal)), [0; N]),
    }
}
