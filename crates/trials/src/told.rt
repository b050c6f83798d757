// A refusal, and the number and place that programs tell of it.
use sets::refusal::Refusal;

#[derive(Clone, Copy)]
pub struct Told(pub Refusal, pub u8, pub u128);

// Is the outcome the one wanted: this value, or this refusal with this number and place?
pub fn comes_to<T: PartialEq + Drop>(outcome: Result<T, Refusal>, want: Result<T, Told>) -> bool {
    match (outcome, want) {
        (Ok(value), Ok(wanted)) => value == wanted,
        (Err(e), Err(Told(refusal, number, place))) => {
            e == refusal && e.number() == number && e.place() == place
        }
        _ => false,
    }
}
