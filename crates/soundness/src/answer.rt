// What is answered about node tables.

// A slot's way to the root: the steps that it takes, and the length of the text in the buffer.
#[derive(Clone, Copy, Debug, PartialEq, Eq)]
pub struct Way {
    pub steps: u8,
    pub length: usize,
}
