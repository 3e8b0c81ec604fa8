// What a path in a payload can be.

// The form of a path in a payload.
#[derive(Clone, Copy, Debug, PartialEq, Eq)]
pub enum Form {
    Absolute,
    Relative,
    Special,
    Malformed,
}
