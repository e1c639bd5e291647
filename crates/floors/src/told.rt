// What a call answered, with a refusal told by its number and its place.
use site::faults::Fault;

pub(crate) fn told<T: Drop>(answer: Result<T, Fault>) -> Result<T, (usize, usize)> {
    answer.map_err(|fault| (fault.number(), fault.place()))
}
