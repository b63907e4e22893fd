// listing: reads an image from standard input and prints what it holds.
#![tactic(auto)]

use disassembly::listing_text;
use image::IMAGE_MAX;
use std::io;
use std::io::Read;

fn main(rt: HostRuntime) -> anyhow::Result<()> {
    run(&rt)
}

fn run(rt: &HostRuntime) -> anyhow::Result<()> {
    let image = read_image(rt)?;
    rt.print(listing_text(rt.alloc(), &image)?)?;
    Ok(())
}

// The whole input, or one byte more than an image may have, so that a longer input is refused for its size and not cut.
fn read_image(rt: &HostRuntime) -> io::Result<Vec<u8>> {
    let mut image = Vec::new(rt.alloc());
    rt.stdin()
        .take(IMAGE_MAX as u64 + 1)
        .read_to_end(&mut image)?;
    Ok(image)
}
