//! Serves the feeds of its input, each on a catalogue and a quote book of its own, and prints their lines.
//!
//! A line of the input is a feed, in words of hexadecimal digits; a word `N*DIGITS` stands for N times the bytes of DIGITS. An empty line
//! is a feed of no bytes. A line that begins with `#` is a remark, and is printed as it is.
#![tactic(auto)]

use service::{ServiceError, serve_input};
use std::alloc::Global;
use std::io::Write;

// Adds the bytes of a word to the feed.
fn add_word(alloc: Global, feed: &mut Vec<u8>, word: &str) -> anyhow::Result<()> {
    let (times, digits) = match word.split_once('*') {
        Some((count, digits)) => (count.parse::<usize>()?, digits),
        None => (1, word),
    };
    let bytes = hex::decode(alloc, digits)?;
    for _ in 0..times {
        feed.extend_from_slice(&bytes)?;
    }
    Ok(())
}

// The feed of a line.
fn feed_of(rt: &HostRuntime, line: &str) -> anyhow::Result<Vec<u8>> {
    let mut feed = Vec::new(rt.alloc());
    for word in line.split_whitespace() {
        add_word(rt.alloc(), &mut feed, word)?;
    }
    Ok(feed)
}

fn main(rt: HostRuntime) -> anyhow::Result<()> {
    let mut out = rt.stdout();
    for line in rt.lines(rt.alloc()) {
        let line = line?;
        if line.starts_with('#') {
            writeln!(out, "{line}")?;
            continue;
        }
        let feed = feed_of(&rt, &line)?;
        let served = serve_input(&mut feed.as_slice(), &mut out);
        served.map_err(|error| ServiceError::Io(error))?;
    }
    Ok(())
}
