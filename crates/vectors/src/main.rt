#![tactic(auto)]
// Published vectors, and sizes at the edges, run through the exported calls of the primitives, those that a host links. What is printed is held to the
// values in `stdout`: the publishers', and those that compare/vectors.py has from independent programs.
mod aes128;
mod aes256;
mod aesavs;
mod edges;
mod print;
mod sha256_and_hmac;
mod shavs;

use std::io;

fn main(rt: HostRuntime) -> io::Result<()> {
    sha256_and_hmac::run(&rt)?;
    shavs::run(&rt)?;
    aes128::run(&rt)?;
    aes256::run(&rt)?;
    aesavs::run(&rt)?;
    edges::run(&rt)
}
