//! Reads a feed from standard input and prints one line for each record.
#![tactic(auto)]

use service::{ServiceError, serve_input};

fn main(rt: HostRuntime) -> anyhow::Result<()> {
    let served = serve_input(&mut rt.stdin(), &mut rt.stdout());
    // an io::Error's own message does not say that it is the input or the output that failed
    served.map_err(|error| ServiceError::Io(error))?;
    Ok(())
}
