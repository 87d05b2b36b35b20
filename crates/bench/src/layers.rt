//! The layers by their words.

use crate::{adapt, bools, filter, inter, intra, modes, tokens, transforms};
use std::alloc::{AllocError, Global};

/// What is printed for a line: a layer's word, and what the layer is to do.
pub fn describe(alloc: Global, line: &str) -> Result<String, AllocError> {
    let Some((layer, rest)) = line.split_once(' ') else {
        return format!(in alloc; "{line}: no layer");
    };
    match layer {
        "adapt" => adapt::describe(alloc, rest),
        "bool" => bools::describe(alloc, rest),
        "filter" => filter::describe(alloc, rest),
        "inter" => inter::describe(alloc, rest),
        "intra" => intra::describe(alloc, rest),
        "modes" => modes::describe(alloc, rest),
        "tokens" => tokens::describe(alloc, rest),
        "transforms" => transforms::describe(alloc, rest),
        _ => format!(in alloc; "{line}: no layer"),
    }
}
