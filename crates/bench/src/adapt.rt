//! Adaptation: a line names how often to adapt all probabilities of an inter frame. The checksum is of them.

mod counted;
mod rounds;

pub use rounds::describe;
