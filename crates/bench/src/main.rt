//! Times the layers of the decoder: a line of the input, as `bool fixed 1000`, is answered by a checksum of what a layer made.
#![tactic(auto)]

mod adapt;
mod bools;
mod filter;
mod inter;
mod intra;
mod layers;
mod modes;
mod numbers;
mod tokens;
mod transforms;

use std::io;

fn main(rt: HostRuntime) -> io::Result<()> {
    for line in rt.lines(rt.alloc()) {
        let line = line?;
        let text = layers::describe(rt.alloc(), line.as_str())?;
        println!(rt; "{text}")?;
    }
    Ok(())
}
