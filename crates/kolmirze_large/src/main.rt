//! Reads a feed from standard input and prints one line for each record, as `kolmirze` does, for a catalogue of full size.
#![tactic(auto)]

use service::serve_large_input;

fn main(rt: HostRuntime) -> anyhow::Result<()> {
    serve_large_input(rt.alloc(), &mut rt.stdin(), &mut rt.stdout())?;
    Ok(())
}
